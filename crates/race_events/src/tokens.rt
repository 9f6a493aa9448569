//! The tokens of a semaphore, first in first out, each with the name of the clock of the part that gave it.

use crate::names::Names;
use race_detector::Known;
use std::alloc::{AllocError, Global};
use std::collections::VecDeque;

/// Tokens that one part gave, one after another.
#[derive(Clone, Copy)]
struct Run {
    name: usize,
    count: u32,
}

/// The tokens of a semaphore.
#[derive(Drop)]
pub(crate) struct Tokens {
    runs: VecDeque<Run>,
}

impl Tokens {
    /// None.
    pub(crate) fn new(alloc: Global) -> Tokens {
        Tokens {
            runs: VecDeque::new(alloc),
        }
    }

    /// The edges to a process that takes the first tokens, so many.
    ///
    /// # Errors
    /// Out of memory.
    pub(crate) fn learn(
        &self,
        known: &mut Vec<Known>,
        process: usize,
        count: u32,
    ) -> Result<(), AllocError> {
        let mut left = count;
        for run in &self.runs {
            let taken = left.min(run.count);
            for _ in 0..taken {
                known.push(Known {
                    process,
                    name: run.name,
                })?;
            }
            left -= taken;
        }
        Ok(())
    }

    /// The first tokens are taken, so many.
    pub(crate) fn take(&mut self, count: u32, names: &mut Names) {
        let mut left = count;
        for _ in 0..self.runs.len() {
            let Some(run) = self.runs.front_mut() else {
                return;
            };
            if left < run.count {
                run.count -= left;
                return;
            }
            left -= run.count;
            names.release(run.name);
            self.runs.pop_front();
        }
    }

    /// Tokens are given, so many, by the part whose clock has this name.
    ///
    /// # Errors
    /// Out of memory.
    pub(crate) fn put(
        &mut self,
        name: usize,
        count: u32,
        names: &mut Names,
    ) -> Result<(), AllocError> {
        if count > 0 {
            self.runs.push_back(Run { name, count })?;
            names.add(name);
        }
        Ok(())
    }

    /// There is none any more.
    pub(crate) fn clear(&mut self, names: &mut Names) {
        for run in &self.runs {
            names.release(run.name);
        }
        self.runs.clear();
    }
}
