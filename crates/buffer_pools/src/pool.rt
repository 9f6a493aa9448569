//! One pool: its memory, its semaphore and its free buffers (book, chapter 10, `mkbufpool.c`, `getbuf.c`, `freebuf.c`).
//!
//! It keeps true that the free buffers are distinct ones of the pool, and that there is room for all of them, so that only a place for a
//! pool takes memory. The list of free buffers is outside of the machine's RAM.

ghost use Rattle.std.specs.Prelude.{◌≡◌, ◌↔◌, IsTrue, ◌+◌, ◌-◌, ◌*◌, ◌%◌, ◌<◌, ◌≤◌, ◌∷◌, ◌&&◌, true, length, drop, reverse, vec_capacity, IfOk, slice_get, ◌^◌};
ghost use Rattle.xinu_model.specs.Memory.{may_access, ranges_meet};
ghost use Rattle.xinu_model.specs.Pools.Buffers.{addresses, buffers, held_in, is_held, is_in, new_pool, no_pool, pool_bytes, with_free};

use std::alloc::{AllocError, Global};
use std::marker::Model;
use xinu_base::{NoMemory, Sem};

/// A buffer pool, or a place for one, which has no buffers.
pub(crate) struct Pool {
    // The address of its memory.
    base: u32,
    // The size of a buffer in bytes.
    size: u32,
    // How many buffers there are.
    number: u32,
    // The semaphore that counts the free buffers.
    semaphore: Sem,
    // The addresses of the free buffers, the one that was freed last at the end.
    free: Vec<u32>,
}

impl Drop for Pool {
    fn drop(self) {
        let Pool {
            base: _base,
            size: _size,
            number: _number,
            semaphore: _semaphore,
            free: _free,
        } = self;
    }
}

impl Model for Pool {
    ghost use Rattle.xinu_model.specs.Pools.Buffers.{BufferPool};

    ghost Value = { BufferPool };

    ghost use Rattle.buffer_pools.specs.Buffers.{IsPool, pool_of};

    ghost view = { pool_of };

    ghost invariant = { IsPool };
}

impl Pool {
    /// A place for a pool.
    ///
    /// # Errors
    ///
    /// `NoMemory` if there is no memory for the list of the free buffers.
    pub(crate) fn new(alloc: Global) -> Result<Self, NoMemory>
        ensures place { IfOk result (λ p. p ≡ no_pool) }
    {
        let Ok(free) = Vec::with_capacity(alloc, 2048) else {
            return Err(NoMemory);
        };
        Ok(Pool {
            base: 0,
            size: 0,
            number: 0,
            semaphore: Sem::default(),
            free,
        })
    }

    /// Whether another pool has the same memory, semaphore and free buffers in the same order.
    pub(crate) fn equals(&self, other: &Self) -> bool
        ensures equal { IsTrue result ↔ (self.now ≡ other.now) }
    {
        self.base == other.base
            && self.size == other.size
            && self.number == other.number
            && self.semaphore == other.semaphore
            && self.free.as_slice() == other.free.as_slice()
    }

    /// Makes this a pool of `number` buffers of `size` bytes, all of them free, the lowest first.
    pub(crate) fn make(&mut self, base: u32, size: u32, number: u32, semaphore: Sem)
        requires size { size ≤ 8192 }
        requires number { number ≤ 2048 }
        requires in_ram { base + pool_bytes size number ≤ 1048576 }
        requires base_aligned { base % 4 ≡ 0 }
        requires size_aligned { size % 4 ≡ 0 }
        ensures made { self.new ≡ new_pool base size number semaphore }
    {
        self.base = base;
        self.size = size;
        self.number = number;
        self.semaphore = semaphore;
        fill(&mut self.free, base + 4, size + 4, number);
    }

    /// The semaphore that counts the free buffers.
    pub(crate) fn semaphore(&self) -> Sem
        ensures semaphore { result ≡ self.now.semaphore }
    {
        self.semaphore
    }

    /// The size of a buffer in bytes.
    pub(crate) fn size(&self) -> u32
        ensures size { result ≡ self.now.size }
    {
        self.size
    }

    /// Its memory: where it begins, and how many bytes it has.
    pub(crate) fn memory(&self) -> (u32, u32)
        ensures base { result.0 ≡ self.now.base }
        ensures bytes { result.1 ≡ pool_bytes self.now.size self.now.number }
    {
        (self.base, self.number * (self.size + 4))
    }

    /// How many buffers are free.
    pub(crate) fn free_count(&self) -> u32
        ensures count { result ≡ length self.now.free }
        ensures few { result ≤ 2048 }
    {
        self.free.len() as u32
    }

    /// How many buffers are held.
    pub(crate) fn held(&self) -> u32
        ensures held { result ≡ held_in self.now }
    {
        self.number - self.free_count()
    }

    /// The k-th free buffer, the one that was freed last first. `None` if and only if fewer than k + 1 are free.
    pub(crate) fn free_at(&self, k: usize) -> Option<u32>
        ensures free { result ≡ slice_get self.now.free k }
    {
        let count = self.free.len();
        if k < count {
            Some(self.free[count - 1 - k])
        } else {
            None
        }
    }

    /// Takes the buffer that was freed last.
    pub(crate) fn take(&mut self) -> u32
        requires free { 0 < length self.old.free }
        ensures first { self.old.free ≡ result ∷ drop 1 self.old.free }
        ensures pool { self.new ≡ record self.old { free = drop 1 self.old.free } }
        ensures after_word { 4 ≤ result }
        ensures word { may_access (result - 4) 4 ≡ true }
    {
        self.free.pop().unwrap()
    }

    /// Puts a held buffer back.
    pub(crate) fn give(&mut self, a: u32)
        requires held { is_held a self.old ≡ true }
        ensures pool { self.new ≡ with_free a self.old }
    {
        self.free.push(a).unwrap();
    }

    /// Whether an address is that of a held buffer.
    pub(crate) fn is_held(&self, a: u32) -> bool
        ensures held { result ≡ is_held a self.now }
        ensures few { result ≡ true → length self.now.free < 2048 }
    {
        self.is_buffer(a) && !self.free.contains(&a)
    }

    // Whether an address is that of a buffer.
    fn is_buffer(&self, a: u32) -> bool
        ensures buffer { result ≡ is_in a (buffers self.now) }
    {
        let first = self.base + 4;
        let step = self.size + 4;
        if a < first {
            return false;
        }
        let offset = a - first;
        offset % step == 0 && offset / step < self.number
    }

    /// Whether its memory meets the `bytes` bytes from `base` on.
    pub(crate) fn meets(&self, base: u32, bytes: u32) -> bool
        ensures meets { result ≡ ranges_meet base bytes self.now.base (pool_bytes self.now.size self.now.number) }
    {
        let end = self.base + self.number * (self.size + 4);
        let past = u64::from(base) + u64::from(bytes);
        bytes > 0 && self.number > 0 && base < end && u64::from(self.base) < past
    }
}

impl Clone for Pool {
    ghost is_clone = { λ v w. w ≡ v };

    fn clone(&self) -> Result<Self, AllocError> {
        let mut free = Vec::with_capacity(*self.free.allocator(), 2048)?;
        free.extend_from_slice(&self.free)?;
        Ok(Pool {
            base: self.base,
            size: self.size,
            number: self.number,
            semaphore: self.semaphore,
            free,
        })
    }
}

// Makes a list of free buffers from `number` addresses, the first at `first` and each `step` after the one before: the highest is put in
// first, so that the lowest is the first to be taken.
fn fill(free: &mut Vec<u32>, first: u32, step: u32, number: u32)
    requires room { number ≤ vec_capacity free.old }
    requires fits { first + number * step < 2 ^ 32 }
    ensures free { reverse free.new.items ≡ addresses first step number }
    ensures capacity { vec_capacity free.old ≤ vec_capacity free.new }
{
    free.clear();
    let mut left = number;
    let mut next = first + number * step;
    while left > 0 {
        left -= 1;
        next -= step;
        free.push(next).unwrap();
    }
}
