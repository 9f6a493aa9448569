//! The first of the calls under way: who becomes it, with the bytes of its write, and what happens as it takes effect.

ghost use Rattle.std.specs.Prelude.{◌≡◌, ◌≤◌, ◌+◌, IfOk};
ghost use Rattle.reference_files.specs.Steps.{IsPut, step_of};
ghost use Rattle.reference_state.specs.FileCalls.{file_call_of};
ghost use Rattle.std.specs.List.{AllByRecursion};
ghost use Rattle.xinu_model.specs.Files.Sound.{InRam, IsFileRequest, IsSoundWork};
ghost use Rattle.xinu_model.specs.Files.Work as model;
ghost use Rattle.xinu_model.specs.Memory.{bytes_from, ram_size};

use crate::calls::file_effect;
use reference_state::{FileCall, FileRequest, FileWork};
use reference_tables::{append, push};
use rv_hart::Ram;
use std::marker::Model;
use xinu_base::{FileMoment, NoMemory, Pid};

/// What happened to a call: who made it, if that lives; whether it had a turn or took effect; and its reply, if it took effect.
#[derive(Drop)]
pub struct FileNote {
    /// Who made it.
    pub caller: Option<Pid>,
    /// What happened.
    pub moment: FileMoment,
    /// Its reply.
    pub reply: Option<i32>,
}

impl Model for FileNote {
    ghost use Rattle.xinu_model.specs.Files.Work as model;

    ghost Value = { model.FileNote };

    ghost view = { λ n. record { caller = n.caller; moment = n.moment; reply = n.reply } };
}

// The bytes of a write in RAM.
fn bytes_written(w: &FileWork, call: &FileCall, at: u32, memory: &Ram) -> Result<Vec<u8>, NoMemory>
    requires range { InRam (file_call_of call.now) at }
    ensures written { IfOk result (λ bytes. bytes.items ≡ model.bytes_written (file_call_of call.now) at memory.now) }
{
    match call {
        FileCall::Write(_, n) => bytes_in(w, at, *n, memory),
        _ => Ok(Vec::new(*w.bytes.allocator())),
    }
}

// A list of the bytes in RAM from an address on.
#[tactic(auto, using(crate::proofs::Ranges::range_read))]
fn bytes_in(w: &FileWork, at: u32, n: u32, memory: &Ram) -> Result<Vec<u8>, NoMemory>
    requires range { at + n ≤ ram_size }
    ensures bytes { IfOk result (λ bytes. bytes.items ≡ bytes_from memory.now at n) }
{
    let mut bytes = Vec::new(*w.bytes.allocator());
    match memory.copy_out(at, n as usize) {
        Ok(range) => {
            append(&mut bytes, range)?;
            Ok(bytes)
        }
        Err(_) => Ok(bytes),
    }
}

/// The first of the calls becomes the first, with its bytes.
pub(crate) fn with_first(w: &mut FileWork, memory: &Ram) -> Result<(), NoMemory>
    requires calls { AllByRecursion IsFileRequest w.old.calls }
    ensures first { IfOk result (λ _. w.new ≡ model.with_first w.old.calls memory.now w.old.system) }
{
    let bytes = match w.calls.first() {
        None => Vec::new(*w.bytes.allocator()),
        Some(a) => bytes_written(w, &a.call, a.at, memory)?,
    };
    w.turns = 0;
    w.bytes = bytes;
    Ok(())
}

// The bytes of a read go to RAM, if its caller lives.
fn copied(memory: &mut Ram, caller: Option<Pid>, at: u32, bytes: &[u8])
    requires range { IsPut at bytes.now }
    ensures copied { memory.new ≡ model.copied caller at bytes.now memory.old }
{
    if caller.is_some() && !bytes.is_empty() {
        let _ = memory.copy_in(at, bytes);
    }
}

/// The first of the calls takes effect, and the next one becomes the first.
pub(crate) fn first_effect(
    w: &mut FileWork,
    memory: &mut Ram,
    notes: &mut Vec<FileNote>,
    moment: FileMoment,
) -> Result<(), NoMemory>
    requires sound { IsSoundWork w.old }
    requires disk { w.old.system.blocks ≤ 65542 }
    ensures effect { IfOk result (λ _. step_of w.new memory.new notes.new.items ≡ model.first_effect w.old.calls moment (step_of w.old memory.old notes.old.items)) }
{
    if w.calls.is_empty() {
        return Ok(());
    }
    let a = w.calls.remove(0);
    let answer = file_effect(&mut w.system, &a.call, &w.bytes)?;
    copied(memory, a.caller, a.at, &answer.bytes);
    with_first(w, memory)?;
    let note = FileNote {
        caller: a.caller,
        moment,
        reply: Some(answer.reply),
    };
    push(notes, note)
}
