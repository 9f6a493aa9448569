//! Buffer pools: buffers of one size that processes take and give back (book, chapter 10).
//!
//! A clause sees a [`Pools`] as the abstract machine's list of pools, in the order in which they are made: base, size, number and semaphore
//! of each, and the addresses of its free buffers, the one that was freed last first. Each call is an equation with the machine's own
//! `new_pool`, `holder` and `with_free`. Who waits for a buffer is the business of the pool's semaphore, in the crates above. They also
//! write the pool's number into the word before a buffer that is taken.
//!
//! A pool keeps true that its free buffers are distinct ones of its own, which with the held ones are all (`HasBuffers` in
//! `specs/Buffers.antt`). The lists of free buffers are outside of the machine's RAM, so a process that writes into a free buffer harms
//! nothing. `new` takes memory for twenty lists of 2048 addresses, no other call but `clone` takes any. `free` costs time in proportion to the free
//! buffers of the pools, the other calls in proportion to the pools or less. The crate depends on `xinu_base`, on the definitions of
//! `xinu_model`, and on the laws on buffers of `table_laws`.
#![tactic(auto)]

mod pool;
mod pools;

pub use pools::Pools;
