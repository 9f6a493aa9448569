//! The deeds of an event, in their order: some are told by the state ahead of it, the others once it was taken.

use crate::acts::{Acts, Doer};
use crate::ahead::{Ahead, call_in, place_in};
use crate::changes::begins;
use crate::consoles::{push_console, push_continued};
use crate::disks::{push_completion, push_effects, push_issue, push_raw};
use crate::instructions::{is_plain, next_word, transfer_of};
use crate::memory::{push_births, push_buffers, push_deaths, push_heap};
use crate::texts::push_texts;
use kernel_state::KernelState;
use std::alloc::AllocError;
use xinu_base::{Call, Event, Pid, Rest};

/// Ahead of an event of this number: its deeds that the state ahead of it tells take the place of those of the event before.
///
/// The answer is whether more is to be told once the event was taken, by what is kept of the state ([`Ahead::of`]). That is so for a
/// completion of the disk with files, and for a step in which a process does more than execute an instruction.
///
/// # Errors
/// Out of memory.
pub fn begin_event(
    acts: &mut Acts,
    number: u32,
    event: Event,
    k: &KernelState,
) -> Result<bool, AllocError> {
    acts.clear();
    match event {
        Event::Step => begin_step(acts, number, k),
        Event::Disk0 => {
            push_completion(acts, number, k)?;
            Ok(false)
        }
        Event::Disk1 => Ok(true),
        _ => Ok(false),
    }
}

// Ahead of a step.
fn begin_step(acts: &mut Acts, event: u32, k: &KernelState) -> Result<bool, AllocError> {
    let process = k.tables.current();
    if process.index() == 0 {
        return Ok(false);
    }
    if k.tables.is_done() {
        let hart = &k.harts[process.index()];
        if let Some(word) = next_word(hart, &k.ram) {
            if is_plain(word, hart) {
                push_transfer(acts, event, process, k, word)?;
                return Ok(false);
            }
        }
    }
    if let Some(call) = &call_in(k) {
        let doer = Doer {
            event,
            process,
            place: place_in(k),
        };
        push_texts(acts, &doer, call, &k.ram)?;
        push_raw(acts, &doer, call, k)?;
    }
    Ok(true)
}

// The bytes that an instruction loads or stores.
fn push_transfer(
    acts: &mut Acts,
    event: u32,
    process: Pid,
    k: &KernelState,
    word: u32,
) -> Result<(), AllocError> {
    let hart = &k.harts[process.index()];
    if let Some(transfer) = transfer_of(word, hart) {
        let doer = Doer {
            event,
            process,
            place: hart.pc,
        };
        acts.touch_all(&doer, transfer.stores, transfer.address, transfer.count)?;
    }
    Ok(())
}

// Who steps, and where.
fn doer_in(event: u32, ahead: &Ahead) -> Doer {
    Doer {
        event,
        process: ahead.current,
        place: ahead.place,
    }
}

/// The event of this number was taken: its other deeds come after those that were told ahead of it. They are told by what was kept of the
/// state ahead of it, and by the state after it.
///
/// # Errors
/// Out of memory.
pub fn end_event(
    acts: &mut Acts,
    number: u32,
    event: Event,
    ahead: &Ahead,
    k: &KernelState,
) -> Result<(), AllocError> {
    match event {
        Event::Step => end_step(acts, number, ahead, k),
        Event::Disk1 => push_effects(acts, number, ahead, k),
        _ => Ok(()),
    }
}

// The step was taken.
fn end_step(
    acts: &mut Acts,
    number: u32,
    ahead: &Ahead,
    k: &KernelState,
) -> Result<(), AllocError> {
    let doer = &doer_in(number, ahead);
    let left = k.tables.process(ahead.current).rest;
    let answer = k.harts[ahead.current.index()].regs[10];
    match &ahead.call {
        Some(call) => push_call(acts, doer, call, ahead, k)?,
        None => push_continued(acts, doer, ahead.rest, left, answer)?,
    }
    push_buffers(acts, doer, ahead, k)?;
    push_births(acts, ahead, k)?;
    push_deaths(acts, number, ahead, k)
}

// What a call does, once it was made.
fn push_call(
    acts: &mut Acts,
    doer: &Doer,
    call: &Call,
    ahead: &Ahead,
    k: &KernelState,
) -> Result<(), AllocError> {
    let left: Rest = k.tables.process(ahead.current).rest;
    let answer = k.harts[ahead.current.index()].regs[10];
    if call.number == 2 {
        push_names(acts, doer, call.args[3], ahead, k)?;
    }
    push_heap(acts, doer, call, answer)?;
    push_console(acts, doer, call, left, answer)?;
    push_issue(acts, doer, call, ahead, k)
}

// The name of a process that begins is loaded.
fn push_names(
    acts: &mut Acts,
    doer: &Doer,
    address: u32,
    ahead: &Ahead,
    k: &KernelState,
) -> Result<(), AllocError> {
    for p in 0..64 {
        if begins(ahead, k, Pid::at(p)) {
            acts.load(doer, address, ahead.name_length)?;
        }
    }
    Ok(())
}
