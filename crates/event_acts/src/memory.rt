//! Memory that is given, and memory that is given back: a new owner, and a store of each byte.

ghost use Rattle.std.specs.Prelude.{◌<◌, length};

use crate::acts::{Acts, Doer};
use crate::ahead::Ahead;
use crate::changes::{begins, dies};
use kernel_state::KernelState;
use std::alloc::AllocError;
use xinu_base::{Call, Pid, PoolId};

// How many bytes are in the cells of the heap that hold so many.
fn rounded(bytes: u32) -> u32 {
    if bytes > 1_048_576 {
        bytes
    } else {
        (bytes + 7) / 8 * 8
    }
}

// Where a stack begins of which the highest word is at an address.
fn stack_low(top: u32, bytes: u32) -> u32 {
    top.wrapping_add(4).wrapping_sub(rounded(bytes))
}

/// The calls on the heap, by what they answer.
///
/// # Errors
/// Out of memory.
pub(crate) fn push_heap(
    acts: &mut Acts,
    doer: &Doer,
    call: &Call,
    answer: u32,
) -> Result<(), AllocError> {
    let (a, b) = (call.args[0], call.args[1]);
    match (call.number, answer) {
        (10, u32::MAX) | (12, u32::MAX) => Ok(()),
        (10, address) => acts.give(address, rounded(a)),
        (11, 0) => acts.store(doer, a, rounded(b)),
        (12, top) => acts.give(stack_low(top, a), rounded(a)),
        (13, 0) => acts.store(doer, stack_low(a, b), rounded(b)),
        _ => Ok(()),
    }
}

/// The stacks of processes that begin.
///
/// # Errors
/// Out of memory.
pub(crate) fn push_births(
    acts: &mut Acts,
    ahead: &Ahead,
    k: &KernelState,
) -> Result<(), AllocError> {
    for p in 0..64 {
        let p = Pid::at(p);
        if begins(ahead, k, p) {
            let process = k.tables.process(p);
            let size = process.stack_size;
            acts.give(stack_low(process.stack, size), rounded(size))?;
        }
    }
    Ok(())
}

/// The stacks of processes that die, which they store to if the heap takes them back.
///
/// # Errors
/// Out of memory.
pub(crate) fn push_deaths(
    acts: &mut Acts,
    event: u32,
    ahead: &Ahead,
    k: &KernelState,
) -> Result<(), AllocError> {
    if k.heap.free_total() <= ahead.heap {
        return Ok(());
    }
    for p in 0..64 {
        let process = Pid::at(p);
        if dies(ahead, k, process) {
            let doer = Doer {
                event,
                process,
                place: ahead.pcs[p],
            };
            let was = &ahead.processes[p];
            acts.store(
                &doer,
                stack_low(was.stack, was.stack_size),
                rounded(was.stack_size),
            )?;
        }
    }
    Ok(())
}

/// The buffers that are given back and taken, and the memory of a pool that is made.
///
/// # Errors
/// Out of memory.
pub(crate) fn push_buffers(
    acts: &mut Acts,
    doer: &Doer,
    ahead: &Ahead,
    k: &KernelState,
) -> Result<(), AllocError> {
    for i in 0..k.pools.count() {
        if i < ahead.count {
            push_pool(acts, doer, ahead, k, PoolId::at(i))?;
        } else {
            let (base, bytes) = k.pools.memory_of(PoolId::at(i));
            acts.give(base, bytes)?;
        }
    }
    Ok(())
}

// The buffers of a pool.
fn push_pool(
    acts: &mut Acts,
    doer: &Doer,
    ahead: &Ahead,
    k: &KernelState,
    i: PoolId,
) -> Result<(), AllocError>
    requires made { i < length k.now.call.state.parts.pools }
{
    let was = ahead.pools[i.index()];
    let is = k.pools.free_count(i);
    let size = k.pools.size_of(i);
    for j in 0..is.saturating_sub(was.free) as usize {
        if let Some(address) = k.pools.free_at(i, j) {
            acts.store(doer, address, size)?;
        }
    }
    if is < was.free {
        if let Some(address) = was.first {
            acts.give(address.wrapping_sub(4), size.saturating_add(4))?;
            acts.store(doer, address.wrapping_sub(4), 4)?;
        }
    }
    Ok(())
}
