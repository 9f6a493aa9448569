//! The bands of the picture: a process does one thing from one column to another.

use crate::layout::Strip;
use printed_runs::{Awaited, Doing, Text, User};
use std::alloc::Global;
use xinu_base::State;

/// What the process of a row does from the column `from` on and before `to`, which is the greatest number while it goes on.
#[derive(Clone, Copy)]
pub(crate) struct Band {
    pub(crate) row: usize,
    pub(crate) from: usize,
    pub(crate) to: usize,
    pub(crate) doing: Doing,
    /// Whether it is the null process that runs.
    pub(crate) is_idle: bool,
    /// The process that took the semaphore last for which this one waits.
    pub(crate) taker: Option<User>,
}

impl Band {
    /// Whether it began before a strip and goes on in it.
    pub(crate) fn is_kept_in(&self, strip: Strip) -> bool {
        self.from < strip.from && self.to > strip.from
    }

    /// Its letter, which is its class, too.
    pub(crate) fn letter(&self) -> &'static str {
        match self.doing.state {
            State::Current if self.is_idle => "I",
            State::Free => "F",
            State::Current => "C",
            State::Ready => "R",
            State::Receiving => "M",
            State::Sleeping => "S",
            State::Timed => "T",
            State::Suspended => "U",
            State::Waiting => "W",
        }
    }

    /// Whether it is dark, so that its word is white.
    pub(crate) fn is_dark(&self) -> bool {
        matches!(self.doing.state, State::Current) && !self.is_idle
    }

    /// Its word.
    pub(crate) fn word(&self, alloc: Global) -> Text {
        let mut word = Text::new(alloc);
        if self.is_idle {
            word.put("idle");
        } else {
            self.doing.add_word(&mut word);
        }
        word
    }

    /// Its word with who took the semaphore last, or nothing if that isn't known.
    pub(crate) fn long_word(&self, alloc: Global) -> Text {
        let mut word = Text::new(alloc);
        if let (Awaited::Semaphore, Some(taker)) = (self.doing.awaited, self.taker) {
            self.doing.add_word(&mut word);
            word.numbered(", last taken by ", taker.process.index() as u64);
        }
        word
    }
}
