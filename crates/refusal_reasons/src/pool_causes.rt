//! Why the calls on buffer pools are refused (book, chapter 10).

ghost use Rattle.std.specs.Prelude.{◌≡◌, ◌==◌, ◌<◌, ◌≤◌, IfOk, length, slice_index};
ghost use Rattle.refusal_reasons.specs.Causes.{first_reason};
ghost use Rattle.refusal_reasons.specs.Pools as specs;
ghost use Rattle.xinu_model.specs.Heap.Cells.{take_memory};
ghost use Rattle.xinu_model.specs.Pools.Buffers as model;
ghost use Rattle.xinu_model.specs.Sound.State.{IsSound};

use crate::memory_causes::no_block;
use crate::reasons::{Cause, Reason, first_of};
use crate::semaphore_causes::no_free_semaphore;
use buffer_pools::Pools;
use kernel_state::KernelState;
use std::alloc::AllocError;
use xinu_base::PoolId;

/// `mkbufpool`, with a size and a number of buffers.
#[tactic(auto, using(crate::proofs::Chained::first_of_first, crate::proofs::Chained::first_of_second))]
pub(crate) fn mkbufpool(k: &KernelState, size: u32, n: u32) -> Option<Reason>
    requires sound { IsSound k.now.call.state }
    ensures reason { result ≡ first_reason (specs.mkbufpool_causes size n k.now.call.state) }
{
    let bounds = size_reason(size, n);
    if bounds.is_some() {
        return bounds;
    }
    room_reason(k, n * (4 * ((size + 3) / 4) + 4))
}

// The bounds of a pool.
fn size_reason(size: u32, n: u32) -> Option<Reason>
    ensures reason { result ≡ first_reason (specs.size_causes size n) }
{
    first_of(&[
        Cause::new(Reason::BufferTooSmall, !(8 <= size)),
        Cause::new(Reason::BufferTooLarge, !(size <= 8192)),
        Cause::new(Reason::NoBuffers, !(1 <= n)),
        Cause::new(Reason::TooManyBuffers, !(n <= 2048)),
    ])
}

// The room for a pool of so many bytes.
fn room_reason(k: &KernelState, bytes: u32) -> Option<Reason>
    requires sound { IsSound k.now.call.state }
    requires some { 0 < bytes }
    ensures reason { result ≡ first_reason (specs.room_causes bytes k.now.call.state) }
{
    let meets = grant_meets(k, bytes);
    first_of(&[
        Cause::new(Reason::NoFreePool, !(k.pools.count() < 20)),
        no_block(k, bytes),
        no_free_semaphore(k),
        Cause::new(Reason::MeetsPool, meets),
    ])
}

// Whether the memory that the heap would grant is that of a pool.
fn grant_meets(k: &KernelState, bytes: u32) -> bool
    ensures meets { result ≡ specs.grant_meets (take_memory bytes k.now.call.state.parts.heap) bytes k.now.call.state.parts.pools }
{
    match k.heap.place_for(bytes) {
        Some(place) => k.pools.meets(place, bytes),
        None => false,
    }
}

/// `getbuf`.
pub(crate) fn getbuf(k: &KernelState, i: u32) -> Option<Reason>
    ensures reason { result ≡ first_reason (specs.getbuf_causes i k.now.call.state) }
{
    first_of(&[Cause::new(Reason::NoPool, !((i as usize) < k.pools.count()))])
}

/// `freebuf`, with an address.
///
/// # Errors
/// Out of memory, for a copy of the pools.
pub(crate) fn freebuf(k: &KernelState, a: u32) -> Result<Option<Reason>, AllocError>
    ensures reason { IfOk result (λ r. r ≡ first_reason (specs.freebuf_causes a k.now.call.state)) }
{
    let held = is_held(&k.pools, a)?;
    let free = is_free(&k.pools, a);
    Ok(first_of(&[
        Cause::new(Reason::BufferIsFree, !held && free),
        Cause::new(Reason::NotHeld, !held),
    ]))
}

// A copy of the pools.
fn copy_of(pools: &Pools) -> Result<Pools, AllocError>
    ensures copy { IfOk result (λ p. p ≡ pools.now) }
{
    pools.clone()
}

// Whether a buffer at an address is held, so that a copy of the pools takes it back.
#[tactic(auto, using(crate::proofs::Calls::holder_some))]
fn is_held(pools: &Pools, a: u32) -> Result<bool, AllocError>
    ensures held { IfOk result (λ r. r ≡ specs.is_anywhere_held a pools.now) }
{
    let mut copy = copy_of(pools)?;
    Ok(copy.free(a).is_some())
}

// Whether a buffer at an address is free.
fn is_free(pools: &Pools, a: u32) -> bool
    ensures free { result ≡ specs.is_anywhere_free a pools.now }
{
    for number in 0..pools.count() {
        if is_free_in(pools, PoolId::at(number), a) {
            return true;
        }
    }
    false
}

// Whether it is the free buffer at a place of a pool.
fn is_free_at(pools: &Pools, i: PoolId, place: usize, a: u32) -> bool
    requires made { i < length pools.now }
    requires below { place < length (model.pool_at pools.now i).free }
    ensures free { result ≡ (a == slice_index (model.pool_at pools.now i).free place) }
{
    pools.free_at(i, place).unwrap() == a
}

// Whether it is free in a pool.
fn is_free_in(pools: &Pools, i: PoolId, a: u32) -> bool
    requires made { i < length pools.now }
    ensures free { result ≡ model.is_in a (model.pool_at pools.now i).free }
{
    for place in 0..pools.free_count(i) {
        if is_free_at(pools, i, place as usize, a) {
            return true;
        }
    }
    false
}
