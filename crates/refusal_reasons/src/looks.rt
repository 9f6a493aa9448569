//! What the causes ask of the state: processes, semaphores, messages and texts.

ghost use Rattle.std.specs.Prelude.{◌≡◌, ◌<◌, ◌≤◌, if◌then◌else◌, MatchOption, None, Some, is_some, nat_lt, not};
ghost use Rattle.refusal_reasons.specs.Semaphores.{free_semaphores};
ghost use Rattle.xinu_model.specs.Devices.Texts as texts;
ghost use Rattle.xinu_model.specs.Process.Calls as model;
ghost use Rattle.xinu_model.specs.Semaphores.Counts as counts;
ghost use Rattle.xinu_model.specs.Sound.Tables.{IsInside};
ghost use Rattle.xinu_model.specs.Tables.{message_at, process_at, semaphore_at, state_at};

use kernel_tables::KernelTables;
use rv_hart::Ram;
use xinu_base::{Owner, Sem, State};

/// The state of the process that a word names; free if there is none.
pub(crate) fn state_of(tables: &KernelTables, p: u32) -> State
    ensures state { result ≡ state_at tables.now p }
{
    match tables.alive(p) {
        Some(p) => tables.process(p).state,
        None => State::Free,
    }
}

/// Whether it is suspended.
pub(crate) fn is_suspended(state: State) -> bool
    ensures suspended { result ≡ model.is_suspended state }
{
    matches!(state, State::Suspended)
}

/// Whether it is ready.
pub(crate) fn is_ready(state: State) -> bool
    ensures ready { result ≡ model.is_ready state }
{
    matches!(state, State::Ready)
}

/// The priority of the process that a word names; 0 if there is none.
pub(crate) fn priority_of(tables: &KernelTables, p: u32) -> i16
    requires inside { IsInside tables.now }
    ensures priority { result ≡ (process_at tables.now p).priority }
{
    match tables.alive(p) {
        Some(p) => tables.process(p).priority,
        None => 0,
    }
}

/// The message of the process that a word names.
pub(crate) fn message_of(tables: &KernelTables, p: u32) -> Option<u32>
    requires inside { IsInside tables.now }
    ensures message { result ≡ message_at tables.now p }
{
    match tables.alive(p) {
        Some(p) => tables.message_of(p),
        None => None,
    }
}

/// Whose the semaphore is that a word names, if it is in use.
pub(crate) fn owner_of(tables: &KernelTables, sem: u32) -> Option<Owner>
    requires inside { IsInside tables.now }
    ensures owner { result ≡ (semaphore_at tables.now sem).owner }
{
    match Sem::from_word(sem) {
        Some(sem) => tables.owner_of(sem),
        None => None,
    }
}

/// Whether it is a process's own.
pub(crate) fn is_own(owner: Option<Owner>) -> bool
    ensures own { result ≡ counts.is_images owner }
{
    matches!(owner, Some(Owner::Image))
}

/// The count of the semaphore that a word names; 0 if there is none.
pub(crate) fn count_of(tables: &KernelTables, sem: u32) -> i32
    requires inside { IsInside tables.now }
    ensures count { result ≡ counts.count_of (semaphore_at tables.now sem) }
{
    match Sem::from_word(sem) {
        Some(sem) => tables.count_of(sem),
        None => 0,
    }
}

/// How many semaphores aren't in use.
pub(crate) fn free_semaphores(tables: &KernelTables) -> usize
    requires inside { IsInside tables.now }
    ensures free { result ≡ free_semaphores tables.now }
{
    let mut free = 0;
    for number in 0..128 {
        free += free_at(tables, number);
    }
    free
}

// 1 if the semaphore of a number isn't in use, and else 0.
fn free_at(tables: &KernelTables, number: usize) -> usize
    requires below { number < 128 }
    ensures free { result ≡ (if not (is_some (semaphore_at tables.now number).owner) then 1 else 0) }
    ensures few { result ≤ 1 }
{
    match tables.owner_of(Sem::at(number)) {
        Some(_) => 0,
        None => 1,
    }
}

/// The text at an address. `None` if and only if no zero byte is among the 128 bytes there that are in RAM.
pub(crate) fn text_at(ram: &Ram, a: u32) -> Option<&[u8]>
    ensures text { MatchOption result (texts.text_at a ram.now ≡ None) (λ t. texts.text_at a ram.now ≡ Some t.now) }
{
    let bytes = ram.bytes_from(a);
    if bytes.len() > 128 {
        text_in(&bytes[..128])
    } else {
        text_in(bytes)
    }
}

// The bytes before the first zero byte, if there is one.
fn text_in(bytes: &[u8]) -> Option<&[u8]>
    ensures text { MatchOption result (texts.text_in bytes.now ≡ None) (λ t. texts.text_in bytes.now ≡ Some t.now) }
{
    for i in 0..bytes.len() {
        if bytes[i] == 0 {
            return Some(&bytes[..i]);
        }
    }
    None
}

/// Whether a semaphore has a token.
#[tactic(auto, using(crate::proofs::Signs::some_tokens, crate::proofs::Signs::no_tokens))]
pub(crate) fn has_token(tables: &KernelTables, sem: Sem) -> bool
    requires inside { IsInside tables.now }
    ensures token { result ≡ nat_lt 0 (semaphore_at tables.now sem).tokens }
{
    if tables.count_of(sem) > 0 {
        true
    } else {
        false
    }
}

/// How many tokens a semaphore has.
#[tactic(auto, using(crate::proofs::Signs::all_tokens, crate::proofs::Signs::zero_tokens))]
pub(crate) fn tokens_of(tables: &KernelTables, sem: Sem) -> u32
    requires inside { IsInside tables.now }
    ensures tokens { result ≡ (semaphore_at tables.now sem).tokens }
{
    let count = tables.count_of(sem);
    if count > 0 { count as u32 } else { 0 }
}
