//! Buffer pools (book, chapter 10).

use std::marker::Model;
use xinu_base::Sem;

/// A pool: where its memory begins, the size of its buffers in bytes, how many it has, its semaphore, and the addresses of the free ones,
/// the one that was freed last first. Its memory lies in RAM.
#[derive(Drop)]
pub struct BufferPool {
    /// The address of its memory.
    pub base: u32,
    /// The size of a buffer in bytes.
    pub size: u32,
    /// How many buffers it has.
    pub number: u32,
    /// Its semaphore.
    pub semaphore: Sem,
    /// The addresses of the free ones.
    pub free: Vec<u32>,
}

impl Model for BufferPool {
    ghost use Rattle.std.specs.Prelude.{◌+◌, ◌*◌, ◌≤◌};
    ghost use Rattle.xinu_model.specs.Pools.Buffers as model;

    ghost Value = { model.BufferPool };

    ghost view = { λ p. record { base = p.base; size = p.size; number = p.number; semaphore = p.semaphore; free = p.free.items } };

    ghost invariant = { λ p. p.base + p.number * (p.size + 4) ≤ 1048576 };
}
