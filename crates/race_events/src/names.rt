//! The names of kept clocks: how often each is used, so that one that is used no longer names another clock.

use race_detector::Detector;
use std::alloc::{AllocError, Global};
use xinu_base::Pid;

/// A name.
#[derive(Clone, Copy)]
struct Use {
    /// How often it is used.
    count: usize,
    /// The next of those that aren't used, if it isn't.
    next: Option<usize>,
}

/// The names of the clocks that a detector keeps.
#[derive(Drop)]
pub(crate) struct Names {
    uses: Vec<Use>,
    // The first of those that aren't used.
    free: Option<usize>,
}

impl Names {
    /// Of no clock.
    pub(crate) fn new(alloc: Global) -> Names {
        Names {
            uses: Vec::new(alloc),
            free: None,
        }
    }

    /// Keeps the clock of a process's part in an event, under a name that is used once.
    ///
    /// # Errors
    /// Out of memory.
    pub(crate) fn keep(
        &mut self,
        detector: &mut Detector,
        event: u32,
        process: Pid,
    ) -> Result<usize, AllocError> {
        match self.free {
            Some(name) if name < detector.count() => {
                detector.keep_as(name, event, process.index());
                self.begin(name);
                Ok(name)
            }
            _ => {
                let name = detector.keep(event, process.index())?;
                self.uses.push(Use {
                    count: 1,
                    next: None,
                })?;
                Ok(name)
            }
        }
    }

    // The first of those that aren't used is used once.
    fn begin(&mut self, name: usize) {
        if let Some(x) = self.uses.get_mut(name) {
            self.free = x.next;
            x.count = 1;
            x.next = None;
        }
    }

    /// A name is used once more.
    pub(crate) fn add(&mut self, name: usize) {
        if let Some(x) = self.uses.get_mut(name) {
            x.count = x.count.saturating_add(1);
        }
    }

    /// A name is used once less.
    pub(crate) fn release(&mut self, name: usize) {
        if let Some(x) = self.uses.get_mut(name) {
            if x.count == 1 {
                x.next = self.free;
                self.free = Some(name);
            }
            x.count = x.count.saturating_sub(1);
        }
    }
}
