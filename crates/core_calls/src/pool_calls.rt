//! The calls on buffer pools, 28 to 30, and what is left of one (book, chapter 10, `mkbufpool.c`, `getbuf.c`, `freebuf.c`).
//!
//! A pool has a semaphore of its own, with a token for each buffer that can be had. Only `mkbufpool` takes memory of the heap, and only
//! a buffer that is taken has its pool's number written before it.

ghost use Rattle.std.specs.Prelude.{◌≡◌, ◌≢◌, ◌<◌, is_some, length};
ghost use Rattle.kernel_state.specs.Results.{came_to, IsStart};
ghost use Rattle.xinu_model.specs.Pools.Buffers.{holder, pool_at};
ghost use Rattle.xinu_model.specs.Pools.Calls as model;
ghost use Rattle.xinu_model.specs.Ports.Calls.{freed_buffers};
ghost use Rattle.xinu_model.specs.Sound.Pools.{ArePools};
ghost use Rattle.xinu_model.specs.Sound.Tables.{IsSoundTables};
ghost use Rattle.xinu_model.specs.Tables.{process_at};

use kernel_state::KernelState;
use xinu_base::{Next, Owner, PoolId, Rest, SYSERR};

/// Call 28: a pool of `n` buffers of this size, rounded up to whole words; its number. Refused if the size isn't 8 to 8192 or `n`
/// isn't 1 to 2048, all pools are made, or no semaphore or no memory that meets no other pool is left.
pub(crate) fn mkbufpool(k: &mut KernelState, size: u32, n: u32) -> Next
    requires start { IsStart k.old.call }
    ensures mkbufpool { came_to k.new.call result ≡ model.mkbufpool size n k.old.call.state }
    ensures image { k.new.image ≡ k.old.image }
{
    if !is_pool_size(size, n) {
        return Next::Returns(SYSERR);
    }
    let Some(i) = k.pools.next_pool() else {
        return Next::Returns(SYSERR);
    };
    let size = 4 * size.div_ceil(4);
    let bytes = n * (size + 4);
    let Some(place) = k.heap.place_for(bytes) else {
        return Next::Returns(SYSERR);
    };
    if k.pools.meets(place, bytes) {
        return Next::Returns(SYSERR);
    }
    let Some(sem) = k.tables.make_semaphore(Owner::Pool(i), n as i32) else {
        return Next::Returns(SYSERR);
    };
    let base = k.heap.getmem(bytes).unwrap();
    k.pools.make(base, size, n, sem);
    Next::Returns(i.index() as i32)
}

/// Call 29: a buffer of the pool that a word names, for which the caller waits; its address. Refused if the pool isn't made.
pub(crate) fn getbuf(k: &mut KernelState, word: u32) -> Next
    requires start { IsStart k.old.call }
    requires sound { IsSoundTables k.old.call.state.tables }
    requires pools { ArePools k.old.call.state.tables k.old.call.state.parts.pools }
    requires not_null { k.old.call.state.tables.current ≢ 0 }
    ensures getbuf { came_to k.new.call result ≡ model.getbuf word k.old.call.state }
    ensures image { k.new.image ≡ k.old.image }
{
    let Some(i) = PoolId::from_word(word) else {
        return Next::Returns(SYSERR);
    };
    let Some(sem) = k.pools.sem_of(i) else {
        return Next::Returns(SYSERR);
    };
    if k.tables.wait(sem, Rest::GetBuf(i)) {
        take_buffer(k, i)
    } else {
        Next::Waits
    }
}

/// What is left of call 29 once the caller was released: its buffer of pool `i`.
pub(crate) fn go_on_getbuf(k: &mut KernelState, i: PoolId) -> Next
    requires start { IsStart k.old.call }
    requires sound { IsSoundTables k.old.call.state.tables }
    requires pools { ArePools k.old.call.state.tables k.old.call.state.parts.pools }
    requires waits { (process_at k.old.call.state.tables k.old.call.state.tables.current).rest ≡ Rest.GetBuf i }
    ensures goes_on { came_to k.new.call result ≡ model.go_on_getbuf i k.old.call.state }
    ensures image { k.new.image ≡ k.old.image }
{
    k.tables.go_on();
    take_buffer(k, i)
}

/// Call 30: the buffer at an address is given back. Refused if none is held there.
pub(crate) fn freebuf(k: &mut KernelState, a: u32) -> Next
    requires start { IsStart k.old.call }
    requires pools { ArePools k.old.call.state.tables k.old.call.state.parts.pools }
    ensures freebuf { came_to k.new.call result ≡ model.freebuf a k.old.call.state }
    ensures image { k.new.image ≡ k.old.image }
{
    if free_buffer(k, a) {
        Next::Returns(0)
    } else {
        Next::Returns(SYSERR)
    }
}

/// Gives back the buffers at these addresses, one after another. An address at which none is held is passed over.
pub(crate) fn free_buffers(k: &mut KernelState, addresses: &[u32])
    requires sound { IsSoundTables k.old.call.state.tables }
    requires pools { ArePools k.old.call.state.tables k.old.call.state.parts.pools }
    ensures freed { k.new.call ≡ freed_buffers addresses.now k.old.call }
    ensures image { k.new.image ≡ k.old.image }
{
    for a in addresses {
        free_buffer(k, *a);
    }
}

// Gives back the buffer at an address. Whether one was held there; if none was nothing changes.
fn free_buffer(k: &mut KernelState, a: u32) -> bool
    requires pools { ArePools k.old.call.state.tables k.old.call.state.parts.pools }
    ensures freed { k.new.call ≡ model.freed_buffer a k.old.call }
    ensures held { result ≡ is_some (holder a k.old.call.state.parts.pools) }
    ensures image { k.new.image ≡ k.old.image }
{
    let Some(i) = k.pools.free(a) else {
        return false;
    };
    let sem = k.pools.sem_of(i).unwrap();
    k.give_token(sem);
    true
}

// Takes the buffer of pool `i` that was freed last, and writes the pool's number before it.
fn take_buffer(k: &mut KernelState, i: PoolId) -> Next
    requires start { IsStart k.old.call }
    requires free { 0 < length (pool_at k.old.call.state.parts.pools i).free }
    ensures taken { came_to k.new.call result ≡ model.take_buffer i k.old.call.state }
    ensures image { k.new.image ≡ k.old.image }
{
    let a = k.pools.get_part(i);
    k.ram.write32(a - 4, i.index() as u32);
    Next::Returns(a as i32)
}

// Whether a pool may have `n` buffers of this size.
fn is_pool_size(size: u32, n: u32) -> bool
    ensures size { result ≡ model.is_pool_size size n }
{
    (8..=8192).contains(&size) && (1..=2048).contains(&n)
}
