//! The kinds of faults.

/// A kind of fault.
#[derive(Clone, Copy)]
pub(crate) enum Kind {
    /// The line hasn't the form of any.
    Bad,
    /// A label is there twice.
    Double,
    /// A name isn't known.
    Unknown,
    /// A number doesn't fit.
    Excess,
}
