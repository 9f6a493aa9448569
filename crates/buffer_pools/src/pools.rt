//! The pools by number, in the order in which they are made (book, chapter 10).
//!
//! It depends on a single pool. It keeps true that there is a place for each pool that can be made.

ghost use Rattle.std.specs.Prelude.{◌≡◌, ◌↔◌, IsTrue, ◌+◌, ◌-◌, ◌%◌, ◌<◌, ◌≤◌, ◌++◌, ◌∷◌, [], true, length, drop, slice_get, slice_set, nat_lt, if◌then◌else◌, Some, None, IfOk, IfSome};
ghost use Rattle.buffer_pools.specs.Numbers.{after_free, next_number};
ghost use Rattle.xinu_model.specs.Memory.{may_access};
ghost use Rattle.xinu_model.specs.Pools.Buffers.{held_in, holder, is_held, meets_pool, most_pools, new_pool, pool_at, pool_bytes};

use crate::pool::Pool;
use std::alloc::Global;
use std::marker::Model;
use xinu_base::{NoMemory, PoolId, Sem};

/// The buffer pools, of which at most twenty are made. A clone is equal.
#[derive(Clone)]
pub struct Pools {
    // A place for each pool, the made ones first.
    pools: Vec<Pool>,
    // How many are made.
    made: usize,
}

impl Drop for Pools {
    fn drop(self) {
        let Pools {
            pools: _pools,
            made: _made,
        } = self;
    }
}

impl Model for Pools {
    ghost use Rattle.std.specs.Prelude.{List};
    ghost use Rattle.xinu_model.specs.Pools.Buffers.{BufferPool};

    ghost Value = { List BufferPool };

    ghost use Rattle.buffer_pools.specs.Numbers.{HasPlaces, made_pools};

    ghost view = { made_pools };

    ghost invariant = { HasPlaces };
}

impl Pools {
    /// No pool is made. This call and `clone` alone take memory, for the lists of free buffers of all pools.
    ///
    /// # Errors
    ///
    /// `NoMemory` if there is no memory for these lists.
    pub fn new(alloc: Global) -> Result<Self, NoMemory>
        ensures starts { IfOk result (λ p. p ≡ []) }
    {
        let pools = places(alloc)?;
        Ok(Pools { pools, made: 0 })
    }

    /// Whether as many other pools are made, and each is equal.
    pub fn equals(&self, other: &Self) -> bool
        ensures equal { IsTrue result ↔ (self.now ≡ other.now) }
    {
        self.made == other.made && are_equal(&self.pools[..self.made], &other.pools[..other.made])
    }

    /// The number of the next pool. `None` if and only if all twenty are made.
    pub fn next_pool(&self) -> Option<PoolId>
        ensures next { result ≡ next_number self.now }
    {
        PoolId::from_word(self.made as u32)
    }

    /// How many pools are made, at most twenty.
    pub fn count(&self) -> usize
        ensures count { result ≡ length self.now }
        ensures few { result ≤ most_pools }
    {
        self.made
    }

    /// Whether one of the `bytes` addresses from `base` on is in the memory of a pool.
    pub fn meets(&self, base: u32, bytes: u32) -> bool
        ensures meets { result ≡ meets_pool base bytes self.now }
    {
        for k in 0..self.made {
            let pool = &self.pools[k];
            if pool.meets(base, bytes) {
                return true;
            }
        }
        false
    }

    /// Makes a pool of `number` buffers of `size` bytes, each after a word for the pool's number, in the memory from `base` on. All
    /// buffers are free, the lowest first. The pool comes after the others, and its number is answered.
    ///
    /// Fewer than twenty pools are made. `size` is at most 8192 and `number` at most 2048, the memory is in RAM, and `base` and `size` are
    /// multiples of 4.
    pub fn make(&mut self, base: u32, size: u32, number: u32, semaphore: Sem) -> PoolId
        requires room { length self.old < most_pools }
        requires size { size ≤ 8192 }
        requires number { number ≤ 2048 }
        requires in_ram { base + pool_bytes size number ≤ 1048576 }
        requires base_aligned { base % 4 ≡ 0 }
        requires size_aligned { size % 4 ≡ 0 }
        ensures next { result ≡ length self.old }
        ensures made { self.new ≡ self.old ++ new_pool base size number semaphore ∷ [] }
    {
        let at = self.made;
        let pool = &mut self.pools[at];
        pool.make(base, size, number, semaphore);
        self.made = at + 1;
        PoolId::at(at)
    }

    /// The semaphore of pool `i`. `None` if and only if it isn't made.
    pub fn sem_of(&self, i: PoolId) -> Option<Sem>
        ensures semaphore { result ≡ (if nat_lt i (length self.now) then Some (pool_at self.now i).semaphore else None) }
    {
        let at = i.index();
        if at < self.made {
            Some(self.pools[at].semaphore())
        } else {
            None
        }
    }

    /// The size of the buffers of pool `i`, which is made, in bytes.
    pub fn size_of(&self, i: PoolId) -> u32
        requires made { i < length self.now }
        ensures size { result ≡ (pool_at self.now i).size }
    {
        self.pools[i.index()].size()
    }

    /// The memory of pool `i`, which is made: where it begins, and how many bytes it has.
    pub fn memory_of(&self, i: PoolId) -> (u32, u32)
        requires made { i < length self.now }
        ensures base { result.0 ≡ (pool_at self.now i).base }
        ensures bytes { result.1 ≡ pool_bytes (pool_at self.now i).size (pool_at self.now i).number }
    {
        self.pools[i.index()].memory()
    }

    /// How many buffers of pool `i`, which is made, are free: at most 2048.
    pub fn free_count(&self, i: PoolId) -> u32
        requires made { i < length self.now }
        ensures count { result ≡ length (pool_at self.now i).free }
        ensures few { result ≤ 2048 }
    {
        self.pools[i.index()].free_count()
    }

    /// How many buffers of pool `i`, which is made, are held.
    pub fn held(&self, i: PoolId) -> u32
        requires made { i < length self.now }
        ensures held { result ≡ held_in (pool_at self.now i) }
    {
        self.pools[i.index()].held()
    }

    /// The k-th free buffer of pool `i`, which is made, the one that was freed last first. `None` if and only if fewer than k + 1 are
    /// free.
    pub fn free_at(&self, i: PoolId, k: usize) -> Option<u32>
        requires made { i < length self.now }
        ensures free { result ≡ slice_get (pool_at self.now i).free k }
    {
        self.pools[i.index()].free_at(k)
    }

    /// Takes the buffer of pool `i` that was freed last, at first the lowest, and answers its address. One is free, and nothing else
    /// changes. The word before it is in RAM, and is the caller's to write.
    pub fn get_part(&mut self, i: PoolId) -> u32
        requires free { 0 < length (pool_at self.old i).free }
        ensures first { (pool_at self.old i).free ≡ result ∷ drop 1 (pool_at self.old i).free }
        ensures pools { self.new ≡ slice_set self.old i (record (pool_at self.old i) { free = drop 1 (pool_at self.old i).free }) }
        ensures after_word { 4 ≤ result }
        ensures word { may_access (result - 4) 4 ≡ true }
    {
        let pool = &mut self.pools[i.index()];
        pool.take()
    }

    /// Gives back the buffer at an address, and answers its pool, of which it is then the first free buffer. The pool is made, and had
    /// fewer than 2048 free ones. `None`, and nothing changes, if and only if no held buffer has the address.
    pub fn free(&mut self, a: u32) -> Option<PoolId>
        ensures holder { result ≡ holder a self.old }
        ensures pools { self.new ≡ after_free result a self.old }
        ensures made { IfSome result (λ i. i < length self.old) }
        ensures room { IfSome result (λ i. length (pool_at self.old i).free < 2048) }
    {
        let Some(i) = self.holder(a) else {
            return None;
        };
        self.give(i, a);
        Some(i)
    }

    // The pool of the held buffer at an address.
    fn holder(&self, a: u32) -> Option<PoolId>
        ensures holder { result ≡ holder a self.now }
        ensures made { IfSome result (λ i. i < length self.now) }
        ensures held { IfSome result (λ i. is_held a (pool_at self.now i) ≡ true) }
        ensures room { IfSome result (λ i. length (pool_at self.now i).free < 2048) }
    {
        for k in 0..self.made {
            let pool = &self.pools[k];
            if pool.is_held(a) {
                return Some(PoolId::at(k));
            }
        }
        None
    }

    // Puts a held buffer of pool `i` back.
    fn give(&mut self, i: PoolId, a: u32)
        requires made { i < length self.old }
        requires held { is_held a (pool_at self.old i) ≡ true }
        ensures pools { self.new ≡ after_free (Some i) a self.old }
    {
        let pool = &mut self.pools[i.index()];
        pool.give(a);
    }
}

// Whether each of as many pools is equal to the one at its place.
fn are_equal(pools: &[Pool], others: &[Pool]) -> bool
    requires many { length pools.now ≡ length others.now }
    ensures equal { IsTrue result ↔ (pools.now ≡ others.now) }
{
    for k in 0..pools.len() {
        let pool = &pools[k];
        if !pool.equals(&others[k]) {
            return false;
        }
    }
    true
}

// Places for all pools.
fn places(alloc: Global) -> Result<Vec<Pool>, NoMemory>
    ensures places { IfOk result (λ v. length v.items ≡ most_pools) }
{
    let Ok(mut pools) = Vec::with_capacity(alloc, 20) else {
        return Err(NoMemory);
    };
    while pools.len() < 20 {
        let pool = Pool::new(alloc)?;
        if pools.push(pool).is_err() {
            return Err(NoMemory);
        }
    }
    Ok(pools)
}
