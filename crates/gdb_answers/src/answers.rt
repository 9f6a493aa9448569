//! What each packet that looks is answered.

ghost use Rattle.std.specs.Prelude.{◌≡◌, ◌≤◌, IfOk, MatchOption, None, Some};
ghost use Rattle.gdb_answers.specs.Answers as spec;
ghost use Rattle.gdb_answers.specs.Descriptions as descriptions;
ghost use Rattle.gdb_answers.specs.Registers as registers;
ghost use Rattle.xinu_model.specs.Sound.State.{IsSound};

use crate::checksums::checksum_text;
use crate::descriptions::{features, part};
use crate::fixed::fixed;
use crate::registers::{memory_text, register_text, registers_text};
use crate::threads::{alive_text, thread_list};
use gdb_packets::{Command, Object};
use kernel_state::KernelState;
use rv_hart::Hart;
use std::alloc::{AllocError, Global};
use xinu_base::Pid;

/// The answer to a packet in this state, if this process is looked at. `None` if and only if the packet moves the run or the session. The
/// state is a sound one between two events, and at most 1000000000 ticks came.
///
/// # Errors
/// Out of memory.
pub fn answer(
    alloc: Global,
    k: &KernelState,
    p: Pid,
    command: Command,
) -> Result<Option<Vec<u8>>, AllocError>
    requires sound { IsSound k.now.call.state }
    requires few { k.now.call.state.tables.ticks ≤ 1000000000 }
    ensures answered { IfOk result (λ found. MatchOption found (spec.answer k.now.call.state p command ≡ None) (λ text. spec.answer k.now.call.state p command ≡ Some text.items)) }
{
    match fixed(command) {
        Some(text) => Ok(Some(Vec::from_slice(alloc, text)?)),
        None => state_answer(alloc, k, p, command),
    }
}

// The answer that depends on the state.
fn state_answer(
    alloc: Global,
    k: &KernelState,
    p: Pid,
    command: Command,
) -> Result<Option<Vec<u8>>, AllocError>
    requires sound { IsSound k.now.call.state }
    requires few { k.now.call.state.tables.ticks ≤ 1000000000 }
    ensures answered { IfOk result (λ found. MatchOption found (spec.state_answer k.now.call.state p command ≡ None) (λ text. spec.state_answer k.now.call.state p command ≡ Some text.items)) }
{
    match command {
        Command::Registers => Ok(Some(registers_text(alloc, hart_of(k, p))?)),
        Command::Register(number) => Ok(Some(register_text(alloc, hart_of(k, p), number)?)),
        Command::Memory(address, count) => Ok(Some(memory_text(alloc, &k.ram, address, count)?)),
        Command::Checksum(address, count) => Ok(Some(checksum_text(
            alloc, &k.ram, address, count,
        )?)),
        Command::IsAlive(thread) => Ok(Some(alive_text(alloc, &k.tables, thread)?)),
        Command::Read(object, at, count) => Ok(Some(part_of(alloc, k, object, at, count)?)),
        Command::Why
        | Command::Look(_)
        | Command::Go(_)
        | Command::Change
        | Command::Set(_)
        | Command::Clear(_)
        | Command::Step(_)
        | Command::Continue
        | Command::ContinueOne(_)
        | Command::StepBack
        | Command::ContinueBack
        | Command::Resumptions
        | Command::Kill
        | Command::Detach
        | Command::Supported
        | Command::NoAcks
        | Command::Attached
        | Command::CurrentThread
        | Command::Monitor
        | Command::Malformed
        | Command::Unknown => Ok(None),
    }
}

// The registers of a process.
fn hart_of(k: &KernelState, p: Pid) -> &Hart
    requires { IsSound k.now.call.state }
    ensures hart { result.now ≡ registers.hart_of k.now.call.state p }
{
    &k.harts[p.index()]
}

// A part of the text of an object.
fn part_of(
    alloc: Global,
    k: &KernelState,
    object: Object,
    at: u32,
    count: u32,
) -> Result<Vec<u8>, AllocError>
    requires few { k.now.call.state.tables.ticks ≤ 1000000000 }
    ensures part { IfOk result (λ text. text.items ≡ descriptions.part (spec.object_text k.now.call.state object) at count) }
{
    match object {
        Object::Features => {
            let text = features(alloc)?;
            part(alloc, text.as_slice(), at, count)
        }
        Object::Threads => {
            let text = thread_list(alloc, &k.tables)?;
            part(alloc, text.as_slice(), at, count)
        }
    }
}
