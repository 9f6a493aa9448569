//! What the picture shows of an event in a lane: a mark, and a text beside it.

use printed_runs::Text;

/// Where a mark is: beside a process, of the row that the number names, or in a row of a device.
#[derive(Clone, Copy, PartialEq, Eq)]
pub(crate) enum Lane {
    /// A process.
    Process(usize),
    /// What is typed at the console.
    Typed,
    /// What the console sends.
    Sent,
    /// The raw disk.
    Disk0,
    /// The disk of the files.
    Disk1,
    /// The clock.
    Clock,
}

/// How many lanes of devices there are.
pub(crate) const DEVICES: usize = 5;

impl Lane {
    /// Its place among the lanes of the devices, from the top down; for a process the one after the last.
    pub(crate) fn device(self) -> usize {
        match self {
            Lane::Typed => 0,
            Lane::Sent => 1,
            Lane::Disk0 => 2,
            Lane::Disk1 => 3,
            Lane::Clock => 4,
            Lane::Process(_) => DEVICES,
        }
    }
}

/// What a mark stands for.
#[derive(Clone, Copy)]
pub(crate) enum Mark {
    /// A process made a call, perhaps with its reply.
    Call,
    /// A process got the reply to an earlier call.
    Reply,
    /// A process was trapped.
    Trap,
    /// A process died.
    Death,
    /// Something happened at a device.
    Device,
}

/// A mark in a lane, at the left edge of a column, and the text after it.
#[derive(Drop)]
pub(crate) struct Label {
    pub(crate) column: usize,
    pub(crate) lane: Lane,
    pub(crate) mark: Mark,
    pub(crate) text: Text,
}

/// A process became ready in this column, because of what happened in a lane.
#[derive(Clone, Copy)]
pub(crate) struct Link {
    pub(crate) column: usize,
    pub(crate) from: Lane,
    /// The row of the process.
    pub(crate) row: usize,
}
