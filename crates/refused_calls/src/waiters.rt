//! Who waits, and is refused by an event: on a semaphore that is deleted, and for a completion of the raw disk that fails.

ghost use Rattle.std.specs.Prelude.{◌≡◌, ◌<◌, ◌++◌, OnOk};
ghost use Rattle.refusal_reasons.specs.declared.reasons.Reason.TheVariants as why;
ghost use Rattle.refused_calls.specs.Refusals as specs;
ghost use Rattle.xinu_model.specs.RawDisk.Calls.{disk_of};
ghost use Rattle.xinu_model.specs.Sound.State.{IsSound};
ghost use Rattle.xinu_model.specs.Tables.{semaphore_at};

use crate::refused::{Refused, refusal};
use kernel_state::KernelState;
use refusal_reasons::Reason;
use std::alloc::AllocError;
use xinu_base::{Call, Pid, Sem};

/// The number of the call that deletes a semaphore.
const SEMDELETE: u32 = 15;

/// Adds the calls of those who wait on a semaphore, if this call deletes it.
///
/// # Errors
/// Out of memory.
pub(crate) fn push_waiters(
    calls: &mut Vec<Refused>,
    k: &KernelState,
    taken: u32,
    call: &Call,
) -> Result<(), AllocError>
    requires sound { IsSound k.now.call.state }
    ensures waiters { OnOk result (calls.new.items ≡ calls.old.items ++ specs.refused_waiters taken k.now.call.state call.now) }
{
    if call.number != SEMDELETE {
        return Ok(());
    }
    let Some(sem) = Sem::from_word(call.args[0]) else {
        return Ok(());
    };
    push_waiters_of(calls, k, taken, sem)
}

// Adds the calls of those who wait on a semaphore.
fn push_waiters_of(
    calls: &mut Vec<Refused>,
    k: &KernelState,
    taken: u32,
    sem: Sem,
) -> Result<(), AllocError>
    requires sound { IsSound k.now.call.state }
    ensures waiters { OnOk result (calls.new.items ≡ calls.old.items ++
        specs.all_refused taken k.now.call.state why.SemaphoreDeleted (semaphore_at k.now.call.state.tables sem).waiters) }
{
    let mut next = k.tables.first_waiter(sem);
    while let Some(p) = next {
        calls.push(refusal(k, taken, p, true, Reason::SemaphoreDeleted))?;
        next = k.tables.waiter_after(sem, p);
    }
    Ok(())
}

/// Adds the call that a failing completion of the raw disk refuses: that of the first request, if its caller lives.
///
/// # Errors
/// Out of memory.
pub(crate) fn push_failed(
    calls: &mut Vec<Refused>,
    k: &KernelState,
    taken: u32,
) -> Result<(), AllocError>
    requires sound { IsSound k.now.call.state }
    ensures failed { OnOk result (calls.new.items ≡ calls.old.items ++ specs.refused_first taken k.now.call.state (disk_of k.now.call.state).requests) }
{
    let Some(p) = first_caller(k) else {
        return Ok(());
    };
    calls.push(refusal(k, taken, p, true, Reason::CompletionFailed))?;
    Ok(())
}

// The caller of the first request of the raw disk, if there is one and it lives.
fn first_caller(k: &KernelState) -> Option<Pid>
    ensures caller { result ≡ specs.first_caller (disk_of k.now.call.state).requests }
{
    let first = k.disk.requests().first()?;
    first.caller
}
