//! Why a text is no schedule.

/// Why a text wasn't read as a schedule. Lines are counted from 1.
#[derive(Clone, Copy, PartialEq, Eq)]
pub enum ScheduleFault {
    /// This line is the first that is of none of the forms.
    BadLine(u32),
    /// This line is the first with which there are more than 1000000000 events.
    TooMany(u32),
    /// There was no memory for the schedule.
    NoMemory,
}
