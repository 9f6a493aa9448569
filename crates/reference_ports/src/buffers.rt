//! The buffers of a pool: where they are, which are held, and by which pool (book, chapter 10).

ghost use Rattle.std.specs.Prelude.{◌≡◌, ◌≤◌, ◌<◌, ◌+◌, ◌*◌, ◌∷◌, [], IfOk, IfSome, MatchOption, drop, length};
ghost use Rattle.reference_ports.specs.FreeBuffers.{HasOwnFree};
ghost use Rattle.xinu_model.specs.Memory.{ranges_meet};
ghost use Rattle.xinu_model.specs.Pools.Buffers as model;

use reference_state::BufferPool;
use reference_tables::push;
use xinu_base::NoMemory;

// Whether an address is that of a buffer of a pool.
fn is_buffer(a: u32, pool: &BufferPool) -> bool
    ensures buffer { result ≡ model.is_in a (model.buffers pool.now) }
{
    is_address(a, pool.base, pool.size, pool.number)
}

// Whether an address is so many whole steps after the first buffer of a pool, and fewer than there are buffers.
fn is_address(a: u32, base: u32, size: u32, number: u32) -> bool
    ensures address { result ≡ model.is_in a (model.addresses (base + 4) (size + 4) number) }
{
    let first = u64::from(base) + 4;
    let step = u64::from(size) + 4;
    let at = u64::from(a);
    if at < first {
        return false;
    }
    let offset = at - first;
    offset % step == 0 && offset / step < u64::from(number)
}

// Whether an address is that of a buffer that a process holds: it is the pool's, and isn't free.
fn is_held(a: u32, pool: &BufferPool) -> bool
    ensures held { result ≡ model.is_held a pool.now }
{
    is_buffer(a, pool) && !pool.free.contains(&a)
}

/// The pool of which an address is a held buffer. `None` if and only if there is none.
pub(crate) fn holder(a: u32, pools: &[BufferPool]) -> Option<usize>
    ensures holder { result ≡ model.holder a pools.now }
    ensures made { IfSome result (λ i. i < length pools.now) }
    ensures few { IfSome result (λ i. (model.pool_at pools.now i).number ≤ 1048576) }
{
    for i in 0..pools.len() {
        if is_held(a, &pools[i]) {
            let _ = number_of(&pools[i]);
            return Some(i);
        }
    }
    None
}

/// The first free buffer of a pool, which is in RAM as all of the pool's. `None` if and only if none is free.
pub(crate) fn first_buffer(pool: &BufferPool) -> Option<u32>
    requires own { HasOwnFree pool.now }
    ensures first { MatchOption result (pool.now.free ≡ []) (λ a. pool.now.free ≡ a ∷ drop 1 pool.now.free) }
    ensures within { IfSome result (λ a. a ≤ 1048576) }
{
    if pool.free.is_empty() {
        return None;
    }
    Some(pool.free[0])
}

// How many buffers a pool has.
fn number_of(pool: &BufferPool) -> u32
    ensures number { result ≡ pool.now.number }
    ensures few { result ≤ 1048576 }
{
    pool.number
}

/// n addresses, the first one given and each one a step after the one before, go into an empty list.
pub(crate) fn addresses(list: &mut Vec<u32>, first: u32, step: u32, n: u32) -> Result<(), NoMemory>
    requires empty { list.old.items ≡ [] }
    requires fits { first + n * step ≤ 4294967295 }
    ensures addresses { IfOk result (λ _. list.new.items ≡ model.addresses first step n) }
{
    let mut next = first;
    for i in 0..n {
        push(list, next)?;
        next += step;
    }
    Ok(())
}

/// Whether a range of addresses meets that of a pool.
pub(crate) fn meets_pool(base: u32, bytes: u32, pools: &[BufferPool]) -> bool
    ensures meets { result ≡ model.meets_pool base bytes pools.now }
{
    for pool in pools {
        if meets(base, bytes, pool) {
            return true;
        }
    }
    false
}

// Whether a range of addresses meets that of one pool.
fn meets(base: u32, bytes: u32, pool: &BufferPool) -> bool
    ensures meets { result ≡ ranges_meet base bytes pool.now.base (model.pool_bytes pool.now.size pool.now.number) }
{
    let own = bytes_of(pool);
    bytes > 0
        && own > 0
        && base < pool.base + own
        && u64::from(pool.base) < u64::from(base) + u64::from(bytes)
}

// How many bytes a pool takes.
fn bytes_of(pool: &BufferPool) -> u32
    ensures bytes { result ≡ model.pool_bytes pool.now.size pool.now.number }
    ensures within { pool.now.base + result ≤ 1048576 }
{
    if pool.number == 0 {
        return 0;
    }
    pool.number * (pool.size + 4)
}
