//! Why the calls on processes are refused (book, chapters 4 to 6).

ghost use Rattle.std.specs.Prelude.{◌≡◌, nat_lt};
ghost use Rattle.refusal_reasons.specs.Causes.{first_reason};
ghost use Rattle.refusal_reasons.specs.Processes as specs;
ghost use Rattle.xinu_model.specs.Sound.State.{IsSound};
ghost use Rattle.xinu_model.specs.Sound.Tables.{IsInside};

use crate::looks::{is_ready, is_suspended, priority_of, state_of};
use crate::memory_causes::no_stack;
use crate::numbers::{in_ram, is_minus_one};
use crate::reasons::{Cause, Reason, first_of};
use kernel_state::{KernelState, half};
use kernel_tables::KernelTables;
use xinu_base::State;

/// No process has this number.
pub(crate) fn no_process(k: &KernelState, p: u32) -> Cause
    ensures cause { result ≡ specs.no_process p k.now.call.state }
{
    Cause::new(
        Reason::NoProcess,
        matches!(state_of(&k.tables, p), State::Free),
    )
}

// The priority of `p` is answered, and is -1.
fn priority_told(k: &KernelState, p: u32) -> Cause
    requires sound { IsSound k.now.call.state }
    ensures cause { result ≡ specs.priority_told p k.now.call.state }
{
    Cause::new(
        Reason::PriorityIsMinusOne,
        is_minus_one(priority_of(&k.tables, p) as i32),
    )
}

// Each number has a process.
fn no_free_process(k: &KernelState) -> Cause
    requires sound { IsSound k.now.call.state }
    ensures cause { result ≡ specs.no_free_process k.now.call.state }
{
    Cause::new(Reason::NoFreeProcess, has_no_free(&k.tables))
}

// Whether each number has a process.
#[tactic(auto, using(crate::proofs::Counted::no_process_free))]
fn has_no_free(tables: &KernelTables) -> bool
    requires inside { IsInside tables.now }
    ensures none { result ≡ nat_lt (specs.free_processes tables.now) 1 }
{
    tables.place_free().is_none()
}

/// `create`, with the size of a stack, a priority, and the address of a name.
pub(crate) fn create(k: &KernelState, size: u32, priority: u32, name: u32) -> Option<Reason>
    requires sound { IsSound k.now.call.state }
    ensures reason { result ≡ first_reason (specs.create_causes size priority name k.now.call.state) }
{
    first_of(&[
        Cause::new(Reason::PriorityBelowOne, half(priority) < 1),
        Cause::new(Reason::NameOutsideRam, !in_ram(name, 16)),
        no_free_process(k),
        no_stack(k, size),
    ])
}

/// `resume`.
pub(crate) fn resume(k: &KernelState, p: u32) -> Option<Reason>
    requires sound { IsSound k.now.call.state }
    ensures reason { result ≡ first_reason (specs.resume_causes p k.now.call.state) }
{
    let state = state_of(&k.tables, p);
    first_of(&[
        no_process(k, p),
        Cause::new(Reason::NotSuspended, !is_suspended(state)),
        priority_told(k, p),
    ])
}

/// `suspend`.
pub(crate) fn suspend(k: &KernelState, p: u32) -> Option<Reason>
    requires sound { IsSound k.now.call.state }
    ensures reason { result ≡ first_reason (specs.suspend_causes p k.now.call.state) }
{
    let ready = is_ready(state_of(&k.tables, p));
    let own = p as usize == k.tables.current().index();
    let told = is_minus_one(priority_of(&k.tables, p) as i32);
    first_of(&[
        Cause::new(Reason::NullProcess, p == 0),
        no_process(k, p),
        Cause::new(Reason::NotReady, !ready && !own),
        Cause::new(Reason::PriorityIsMinusOne, ready && told),
    ])
}

/// `kill`.
pub(crate) fn kill(k: &KernelState, p: u32) -> Option<Reason>
    ensures reason { result ≡ first_reason (specs.kill_causes p k.now.call.state) }
{
    first_of(&[Cause::new(Reason::NullProcess, p == 0), no_process(k, p)])
}

/// `chprio` and `getprio`.
pub(crate) fn priority(k: &KernelState, p: u32) -> Option<Reason>
    requires sound { IsSound k.now.call.state }
    ensures reason { result ≡ first_reason (specs.priority_causes p k.now.call.state) }
{
    first_of(&[no_process(k, p), priority_told(k, p)])
}
