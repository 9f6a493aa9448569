//! What is told.

use race_entries::Entry;

/// Two accesses of a byte that race.
#[derive(Clone, Copy)]
pub struct Pair {
    /// The byte, by its address.
    pub byte: usize,
    /// The earlier access.
    pub first: Entry,
    /// The later one, as which is made this is told.
    pub second: Entry,
}
