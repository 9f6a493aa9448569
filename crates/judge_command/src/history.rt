//! What a run's events meant for who owns a byte, so far.

use crate::blocks::Blocks;
use crate::calls::{Asking, Calls};
use crate::lives::Lives;
use kernel_state::KernelState;
use std::alloc::{AllocError, Global};

/// The processes, the calls that they made, and the blocks of the heap that they got.
#[derive(Drop)]
pub(crate) struct History {
    pub(crate) lives: Lives,
    pub(crate) calls: Calls,
    pub(crate) blocks: Blocks,
    /// How many events were noted.
    pub(crate) noted: u32,
}

impl History {
    /// Nothing so far.
    pub(crate) fn new(alloc: Global) -> History {
        History {
            lives: Lives::new(alloc),
            calls: Calls::new(alloc),
            blocks: Blocks::new(alloc),
            noted: 0,
        }
    }

    /// Notes an event, and the call that was made in it, if one was.
    ///
    /// # Errors
    /// Out of memory.
    pub(crate) fn note(
        &mut self,
        k: &KernelState,
        event: u32,
        call: Option<Asking>,
    ) -> Result<(), AllocError> {
        self.noted = self.noted.wrapping_add(1);
        self.lives.note(k, event)?;
        if let Some(asking) = call {
            let answer = k.harts[asking.process.index()].regs[10];
            self.calls.note(event, &asking)?;
            self.blocks.note(event, &asking, answer)?;
        }
        Ok(())
    }
}
