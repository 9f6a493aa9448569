//! The rows of the picture: a process that lived is one.

use crate::layout::Strip;
use printed_runs::Made;

/// A process that lived: its number, its name and priority as it was made, and the columns from its first to its last.
#[derive(Drop)]
pub(crate) struct Row {
    pub(crate) number: usize,
    pub(crate) made: Made,
    pub(crate) first: usize,
    /// The column in which it died, or the greatest number while it lives.
    pub(crate) last: usize,
}

impl Row {
    /// Whether it lived in some column of a strip, or died there.
    pub(crate) fn is_in(&self, strip: Strip) -> bool {
        self.first < strip.to && self.last >= strip.from
    }
}
