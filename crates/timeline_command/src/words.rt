//! Which part of a run is drawn.

use command_words::Taken;

/// The most events that are drawn.
const MOST_DRAWN: u64 = 2000;

/// Which part of a run is drawn.
#[derive(Clone, Copy)]
pub(crate) struct Part {
    /// The number of the first event that may be drawn, counted from 1.
    pub(crate) from: u64,
    /// How many events are drawn at most.
    pub(crate) most: u64,
}

impl Part {
    /// The part that the words of the command ask for.
    pub(crate) fn of(words: &Taken<'_>) -> Part {
        Part {
            from: words.number("from").unwrap_or(1),
            most: words.number("events").unwrap_or(MOST_DRAWN),
        }
    }
}
