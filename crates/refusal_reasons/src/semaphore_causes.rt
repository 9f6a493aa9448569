//! Why the calls on semaphores are refused (book, chapter 7).

ghost use Rattle.std.specs.Prelude.{◌≡◌, ◌+ℤ◌, int_lt, pos};
ghost use Rattle.refusal_reasons.specs.Causes.{first_reason};
ghost use Rattle.refusal_reasons.specs.Semaphores as specs;
ghost use Rattle.xinu_model.specs.Sound.State.{IsSound};

use crate::looks::{count_of, free_semaphores, is_own, owner_of};
use crate::numbers::{is_minus_one, is_negative};
use crate::reasons::{Cause, Reason, first_of};
use kernel_state::{KernelState, signed};

// No semaphore has this number.
fn no_semaphore(k: &KernelState, sem: u32) -> Cause
    requires sound { IsSound k.now.call.state }
    ensures cause { result ≡ specs.no_semaphore sem k.now.call.state }
{
    Cause::new(Reason::NoSemaphore, owner_of(&k.tables, sem).is_none())
}

// It is the kernel's own.
fn kernel_semaphore(k: &KernelState, sem: u32) -> Cause
    requires sound { IsSound k.now.call.state }
    ensures cause { result ≡ specs.kernel_semaphore sem k.now.call.state }
{
    Cause::new(Reason::KernelSemaphore, !is_own(owner_of(&k.tables, sem)))
}

/// No semaphore is free.
pub(crate) fn no_free_semaphore(k: &KernelState) -> Cause
    requires sound { IsSound k.now.call.state }
    ensures cause { result ≡ specs.no_free_semaphore k.now.call.state }
{
    Cause::new(Reason::NoFreeSemaphore, free_semaphores(&k.tables) < 1)
}

/// `semcreate`.
pub(crate) fn semcreate(k: &KernelState, count: u32) -> Option<Reason>
    requires sound { IsSound k.now.call.state }
    ensures reason { result ≡ first_reason (specs.semcreate_causes count k.now.call.state) }
{
    first_of(&[
        Cause::new(Reason::NegativeCount, is_negative(signed(count))),
        no_free_semaphore(k),
    ])
}

/// `semdelete` and `wait`.
pub(crate) fn named(k: &KernelState, sem: u32) -> Option<Reason>
    requires sound { IsSound k.now.call.state }
    ensures reason { result ≡ first_reason (specs.semaphore_named sem k.now.call.state) }
{
    first_of(&[no_semaphore(k, sem), kernel_semaphore(k, sem)])
}

/// `semreset`.
pub(crate) fn semreset(k: &KernelState, sem: u32, count: u32) -> Option<Reason>
    requires sound { IsSound k.now.call.state }
    ensures reason { result ≡ first_reason (specs.semreset_causes sem count k.now.call.state) }
{
    first_of(&[
        no_semaphore(k, sem),
        kernel_semaphore(k, sem),
        Cause::new(Reason::NegativeCount, is_negative(signed(count))),
    ])
}

/// `semcount`.
pub(crate) fn semcount(k: &KernelState, sem: u32) -> Option<Reason>
    requires sound { IsSound k.now.call.state }
    ensures reason { result ≡ first_reason (specs.semcount_causes sem k.now.call.state) }
{
    let told = is_minus_one(count_of(&k.tables, sem));
    first_of(&[
        no_semaphore(k, sem),
        kernel_semaphore(k, sem),
        Cause::new(Reason::CountIsMinusOne, told),
    ])
}

/// `signal`.
pub(crate) fn signal(k: &KernelState, sem: u32) -> Option<Reason>
    requires sound { IsSound k.now.call.state }
    ensures reason { result ≡ first_reason (specs.signal_causes sem k.now.call.state) }
{
    let count = count_of(&k.tables, sem);
    first_of(&[
        no_semaphore(k, sem),
        kernel_semaphore(k, sem),
        Cause::new(Reason::CountTooGreat, !(count < 2_147_483_647)),
    ])
}

/// `signaln`.
pub(crate) fn signaln(k: &KernelState, sem: u32, n: u32) -> Option<Reason>
    requires sound { IsSound k.now.call.state }
    ensures reason { result ≡ first_reason (specs.signaln_causes sem n k.now.call.state) }
{
    let count = count_of(&k.tables, sem);
    let n = signed(n);
    first_of(&[
        no_semaphore(k, sem),
        kernel_semaphore(k, sem),
        Cause::new(Reason::NegativeSignals, is_negative(n)),
        Cause::new(Reason::CountTooGreat, is_above(count, n)),
    ])
}

// Whether a count would pass the greatest with `n` more.
fn is_above(count: i32, n: i32) -> bool
    ensures above { result ≡ int_lt (pos 2147483647) (count +ℤ n) }
{
    2_147_483_647 < count as i64 + n as i64
}
