//! A picture of a part of a run while the events of the whole run are taken.

use crate::words::Part;
use printed_runs::Text;
use run_picture::{Ending, Recording};
use std::alloc::{AllocError, Global};
use xinu_base::Event;

/// The picture, and how far the run is.
#[derive(Drop)]
pub(crate) struct Drawing {
    alloc: Global,
    recording: Recording,
    part: Part,
    /// How many events were taken.
    taken: u64,
}

impl Drawing {
    /// No event was taken.
    pub(crate) fn new(alloc: Global, part: Part) -> Drawing {
        Drawing {
            alloc,
            recording: Recording::new(alloc),
            part,
            taken: 0,
        }
    }

    /// The run starts with these lines and tables.
    pub(crate) fn begin(&mut self, lines: &str, tables: &str) {
        if self.part.from <= 1 {
            self.recording.begin(0, lines, tables);
        }
    }

    /// Whether as many events are drawn as are to be, or memory ran out.
    pub(crate) fn is_full(&self) -> bool {
        self.recording.drawn() >= self.part.most || !self.recording.is_whole()
    }

    /// Whether an event with these lines is told with the tables after it: the last one before the part, and those in it that may be drawn.
    pub(crate) fn needs_tables(&self, event: Event, lines: &str) -> bool {
        let number = self.taken.saturating_add(1);
        if number >= self.part.from {
            Recording::needs_tables(event, lines)
        } else {
            number.saturating_add(1) == self.part.from
        }
    }

    /// An event was taken that is told with the tables after it.
    pub(crate) fn event(&mut self, event: Event, lines: &str, tables: &str) {
        self.taken = self.taken.saturating_add(1);
        if self.taken >= self.part.from {
            self.recording.event(self.taken, event, lines, tables);
        } else {
            self.recording.pass(lines);
            self.recording.begin(self.taken, lines, tables);
        }
    }

    /// An event was taken that is told without the tables.
    pub(crate) fn quiet(&mut self, event: Event, lines: &str) {
        self.taken = self.taken.saturating_add(1);
        if self.taken >= self.part.from {
            self.recording.quiet(event);
        } else {
            self.recording.pass(lines);
        }
    }

    /// The run ended so, with these tables, or goes on after the part.
    pub(crate) fn finish(&mut self, tables: &str, ending: Ending) {
        if !self.recording.has_begun() {
            self.recording.begin(self.taken, "", tables);
        }
        self.recording.end(ending);
    }

    /// The picture, with this title, or *Who ran when*.
    ///
    /// # Errors
    /// Out of memory, also if it ran out before.
    pub(crate) fn picture(&self, title: Option<&str>) -> Result<String, AllocError> {
        let mut heading = Text::of(self.alloc, title.unwrap_or("Who ran when"));
        heading.numbered(": events ", self.part.from.min(self.taken));
        heading.numbered(" to ", self.taken);
        self.recording.picture(&heading)
    }
}
