//! How far a search has come, on standard error.

use crate::terminals::{STANDARD_ERROR, is_terminal};
use races_command::Progress;
use std::rt::Runtime;
use std::time::Instant;

/// Says on standard error once a second how many schedules were run, if that is a terminal, and takes the line away at the end.
#[derive(Drop)]
pub(crate) struct Terminal<R: Runtime> {
    rt: R,
    all: u64,
    tried: u64,
    /// When a line was written last, or the search began. `None` if there is nobody to read it.
    last: Option<Instant>,
}

impl<R: Runtime> Terminal<R> {
    /// Before any search.
    pub(crate) fn new(rt: R) -> Terminal<R> {
        Terminal {
            rt,
            all: 0,
            tried: 0,
            last: None,
        }
    }
}

impl<R: Runtime> Progress for Terminal<R> {
    fn begin(&mut self, all: u64) {
        self.all = all;
        if is_terminal(&self.rt, STANDARD_ERROR) {
            self.last = Instant::now(&self.rt).ok();
        }
    }

    fn tell(&mut self) {
        self.tried = self.tried.saturating_add(1);
        let Some(last) = self.last else {
            return;
        };
        match last.elapsed(&self.rt) {
            Ok(waited) if waited.as_secs() >= 1 => {
                let _ = eprint!(self.rt; "\r{} of {} schedules", self.tried, self.all);
                self.last = Instant::now(&self.rt).ok();
            }
            _ => {}
        }
    }

    fn end(&mut self) {
        if self.last.is_some() {
            // The start of the line, and what erases it (ECMA-48).
            let _ = eprint!(self.rt; "\r\x1b[K");
        }
    }
}
