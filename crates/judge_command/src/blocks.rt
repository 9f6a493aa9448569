//! The blocks of the heap that processes got, and gave back.

use crate::calls::Asking;
use std::alloc::{AllocError, Global};
use xinu_base::Call;

const GETMEM: u32 = 10;

const FREEMEM: u32 = 11;

const GETSTK: u32 = 12;

const FREESTK: u32 = 13;

/// What a call answers that is refused.
const REFUSED: u32 = u32::MAX;
/// The number of an event after all others.
const NEVER: u32 = u32::MAX;

/// A block of the heap that a process got.
#[derive(Clone, Copy)]
pub(crate) struct Block {
    /// The lowest address.
    pub(crate) low: u32,
    /// The first address after it.
    pub(crate) end: u32,
    /// Which process got it.
    pub(crate) process: u8,
    /// In which event.
    pub(crate) event: u32,
    // In which event it was given back.
    freed: u32,
    /// By which call.
    pub(crate) call: u32,
}

impl Block {
    // Whether it has a byte.
    fn has(&self, byte: u32) -> bool {
        self.low <= byte && byte < self.end
    }
}

/// The blocks, in the order in which processes got them.
#[derive(Drop)]
pub(crate) struct Blocks {
    blocks: Vec<Block>,
}

impl Blocks {
    /// None so far.
    pub(crate) fn new(alloc: Global) -> Blocks {
        Blocks {
            blocks: Vec::new(alloc),
        }
    }

    /// Notes a call that was made in an event, and its answer.
    ///
    /// # Errors
    /// Out of memory.
    pub(crate) fn note(
        &mut self,
        event: u32,
        asking: &Asking,
        answer: u32,
    ) -> Result<(), AllocError> {
        if answer == REFUSED {
            return Ok(());
        }
        let Call { number, args } = asking.call;
        let first = args[0];
        let second = args[1];
        match number {
            GETMEM => self.get(event, asking, answer, rounded(first))?,
            GETSTK => {
                let end = answer.saturating_add(4);
                self.get(
                    event,
                    asking,
                    end.saturating_sub(rounded(first)),
                    rounded(first),
                )?;
            }
            FREEMEM => self.free(event, first, rounded(second)),
            FREESTK => {
                let end = first.saturating_add(4);
                self.free(event, end.saturating_sub(rounded(second)), rounded(second));
            }
            _ => {}
        }
        Ok(())
    }

    // A process got so many bytes.
    fn get(&mut self, event: u32, asking: &Asking, low: u32, size: u32) -> Result<(), AllocError> {
        self.blocks.push(Block {
            low,
            end: low.saturating_add(size),
            process: asking.process.index() as u8,
            event,
            freed: NEVER,
            call: asking.call.number,
        })?;
        Ok(())
    }

    // So many bytes were given back: the blocks that meet them aren't whole any more.
    fn free(&mut self, event: u32, low: u32, size: u32) {
        let end = low.saturating_add(size);
        for block in self.blocks.iter_mut() {
            if block.freed == NEVER && block.low < end && low < block.end {
                block.freed = event;
            }
        }
    }

    /// The block in which a byte was when an event came.
    pub(crate) fn owner(&self, byte: u32, event: u32) -> Option<usize> {
        let mut found = None;
        for (at, block) in self.blocks.iter().enumerate() {
            if block.has(byte) && block.event < event && event <= block.freed {
                found = Some(at);
            }
        }
        found
    }

    /// The last block in which a byte was at any time.
    pub(crate) fn former_owner(&self, byte: u32) -> Option<usize> {
        let mut found = None;
        for (at, block) in self.blocks.iter().enumerate() {
            if block.has(byte) {
                found = Some(at);
            }
        }
        found
    }

    /// The block at a place.
    pub(crate) fn at(&self, at: usize) -> Option<&Block> {
        self.blocks.get(at)
    }
}

// A size as the heap rounds it, to a multiple of 8.
fn rounded(size: u32) -> u32 {
    size.saturating_add(7) / 8 * 8
}
