//! Which calls are refused in a step.

ghost use Rattle.std.specs.Prelude.{◌≡◌, ◌<◌, ◌^◌, ◌++◌, OnOk, IfSome, Some, None, if◌then◌else◌};
ghost use Rattle.refusal_reasons.specs.Later.{later_reason};
ghost use Rattle.refused_calls.specs.Refusals as specs;
ghost use Rattle.xinu_model.specs.Events.{call_of};
ghost use Rattle.xinu_model.specs.Machine.{current_hart};
ghost use Rattle.xinu_model.specs.Memory.{may_access, number_at};
ghost use Rattle.xinu_model.specs.Sound.State.{IsSound};
ghost use Rattle.xinu_model.specs.Tables.{process_at};

use crate::reasons::{is_answer, is_hidden};
use crate::refused::{Refused, refusal};
use crate::waiters::push_waiters;
use kernel_state::KernelState;
use refusal_reasons::{Reason, later_reason_of, reason_of};
use rv_hart::Hart;
use std::alloc::AllocError;

/// The word of the instruction that makes a call.
const ECALL: u32 = 0x73;

/// Adds the calls that are refused in the next step.
///
/// # Errors
/// Out of memory.
pub(crate) fn push_step(
    calls: &mut Vec<Refused>,
    k: &KernelState,
    taken: u32,
) -> Result<(), AllocError>
    requires sound { IsSound k.now.call.state }
    ensures step { OnOk result (calls.new.items ≡ calls.old.items ++ specs.refused_in_step taken k.now.call.state) }
{
    if k.tables.current().index() == 0 {
        return Ok(());
    }
    if !k.tables.is_done() {
        return push_later(calls, k, taken, later_reason_of(k));
    }
    if !makes_call(k) {
        return Ok(());
    }
    let reason = reason_of(k, &k.call_of())?;
    push_made(calls, k, taken, reason)
}

// Whether the next instruction of the process that runs is a call.
fn makes_call(k: &KernelState) -> bool
    requires sound { IsSound k.now.call.state }
    ensures makes { result ≡ specs.makes_call k.now.call.state }
{
    let hart = current_hart(k);
    match next_word(k, &hart) {
        Some(word) => word == ECALL,
        None => false,
    }
}

// The word at the pc of the process that runs, if RAM has one there.
fn next_word(k: &KernelState, hart: &Hart) -> Option<u32>
    requires hart { hart.now ≡ current_hart k.now.call.state }
    ensures word { result ≡ (if may_access (current_hart k.now.call.state).pc 4 then Some (number_at k.now.call.state.memory (current_hart k.now.call.state).pc 4) else None) }
    ensures fits { IfSome result (λ word. word < 2 ^ 32) }
{
    k.ram.read32(hart.pc)
}

// The registers of the process that runs.
fn current_hart(k: &KernelState) -> Hart
    requires sound { IsSound k.now.call.state }
    ensures hart { result ≡ current_hart k.now.call.state }
{
    k.harts[k.tables.current().index()]
}

// Adds a call that waited and goes on, if it is refused for this reason.
fn push_later(
    calls: &mut Vec<Refused>,
    k: &KernelState,
    taken: u32,
    reason: Option<Reason>,
) -> Result<(), AllocError>
    requires sound { IsSound k.now.call.state }
    ensures later { OnOk result (calls.new.items ≡ calls.old.items ++ specs.refused_later taken k.now.call.state reason) }
{
    let Some(reason) = reason else {
        return Ok(());
    };
    if is_hidden(reason, &k.call_of()) {
        return Ok(());
    }
    calls.push(refusal(k, taken, k.tables.current(), true, reason))?;
    Ok(())
}

// Adds a call that is made, if it is refused for this reason; else those that it refuses.
fn push_made(
    calls: &mut Vec<Refused>,
    k: &KernelState,
    taken: u32,
    reason: Option<Reason>,
) -> Result<(), AllocError>
    requires sound { IsSound k.now.call.state }
    ensures made { OnOk result (calls.new.items ≡ calls.old.items ++ specs.refused_made taken k.now.call.state reason) }
{
    let Some(reason) = reason else {
        return push_waiters(calls, k, taken, &k.call_of());
    };
    if is_answer(reason) {
        return Ok(());
    }
    calls.push(refusal(k, taken, k.tables.current(), false, reason))?;
    Ok(())
}
