//! A mistake in a text.

use xinu_base::{Event, Pid, TranscriptLine};

/// An event of a run: its number, counted from 1, and the process that was current ahead of it.
#[derive(Clone, Copy)]
pub struct Moment {
    /// The number of the event.
    pub number: u64,
    /// The event.
    pub event: Event,
    /// The process.
    pub process: Pid,
}

/// When a run prints a line.
#[derive(Clone, Copy)]
pub enum When {
    /// As it starts, before its first event.
    Start,
    /// In an event.
    In(Moment),
    /// As it ends, after its last event.
    End,
}

/// Where a text goes wrong.
#[derive(Clone, Copy)]
pub struct Mistake<'a> {
    /// What is left of the text, from the line on that no run prints there.
    pub left: &'a [u8],
    /// The line that a run prints there, after the lines of the text before it; none if the run has ended.
    pub due: Option<TranscriptLine>,
    /// When it prints that, or has ended.
    pub when: When,
}
