//! A deed, as a detector is told of it.

use race_entries::Entry;

/// What an event does with memory.
#[derive(Clone, Copy)]
pub enum Act {
    /// An access to a byte.
    Touch(usize, Entry),
    /// The first of so many bytes that get a new owner.
    Gift(usize, usize),
}
