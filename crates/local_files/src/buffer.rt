//! The bytes that a call puts or takes: room for 1,048,576, taken once.

ghost use Rattle.std.specs.Prelude.{◌≡◌, ◌+◌, List, ℕ, length, take, IfOk, slice_index};
ghost use Rattle.local_files.specs.Buffers.{put_at, patched};

use std::alloc::Global;
use std::marker::Model;
use xinu_base::NoMemory;

// The number of bytes.
const SIZE: usize = 1_048_576;

/// The bytes of a call.
#[derive(Clone, Drop)]
pub struct Buffer {
    bytes: Vec<u8>,
}

impl Model for Buffer {
    ghost Value = { List ℕ };

    ghost view = { λ b. b.bytes.items };

    ghost invariant = { λ b. length b.bytes.items ≡ 1048576 };
}

impl Buffer {
    /// Room for the bytes of a call.
    pub(crate) fn new(alloc: Global) -> Result<Self, NoMemory>
        ensures { IfOk result (λ b. length b ≡ 1048576) }
    {
        match vec![in alloc; 0u8; SIZE] {
            Ok(bytes) => Ok(Buffer { bytes }),
            Err(_) => Err(NoMemory),
        }
    }

    /// Puts bytes in, if there is room for them.
    pub(crate) fn put(&mut self, at: u32, part: &[u8])
        ensures new { self.new ≡ put_at at part.now self.old }
    {
        let from = at as usize;
        if from <= SIZE && part.len() <= SIZE - from {
            self.bytes[from..from + part.len()].copy_from_slice(part);
        }
    }

    /// The first bytes, if there are so many.
    pub(crate) fn first(&self, many: u32) -> &[u8]
        ensures bytes { result.now ≡ take many self.now }
    {
        let end = (many as usize).min(SIZE);
        &self.bytes[..end]
    }

    /// The first byte.
    pub(crate) fn first_byte(&self) -> u8
        ensures { result ≡ slice_index self.now 0 }
    {
        self.bytes[0]
    }

    /// Puts bytes from a place on into a block, if they are there and have room in it.
    pub(crate) fn patch(&self, at: u32, many: u32, from: u32, block: &mut [u8; 512])
        ensures { block.new ≡ patched at many from self.now block.old }
    {
        let (at, many, from) = (at as usize, many as usize, from as usize);
        if at <= SIZE && many <= SIZE - at && from <= 512 && many <= 512 - from {
            block[from..from + many].copy_from_slice(&self.bytes[at..at + many]);
        }
    }
}
