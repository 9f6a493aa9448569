//! Calls on files under way, one at a time in the order in which they were made: how one is made, and what a completion of the disk does.

ghost use Rattle.std.specs.Prelude.{◌≡◌, ◌≤◌, [], IfOk, IsSome, List, ℕ};
ghost use Rattle.reference_files.specs.Steps.{step_of};
ghost use Rattle.xinu_model.specs.Files.Sound.{IsFileRequest, IsSoundWork};
ghost use Rattle.xinu_model.specs.Files.Work as model;

use crate::first::{FileNote, first_effect, with_first};
use reference_state::{FileRequest, FileWork};
use reference_tables::push;
use rv_hart::Ram;
use xinu_base::{FileMoment, NoMemory, Pid};

/// A good completion of the disk, at which this many calls take effect; if none does, the first has a turn.
pub fn calls_completed(
    w: &mut FileWork,
    memory: &mut Ram,
    notes: &mut Vec<FileNote>,
    effects: usize,
) -> Result<(), NoMemory>
    requires sound { IsSoundWork w.old }
    requires disk { w.old.system.blocks ≤ 65542 }
    ensures completed { IfOk result (λ _. step_of w.new memory.new notes.new.items ≡ model.calls_completed effects (step_of w.old memory.old notes.old.items)) }
{
    if effects == 0 {
        return turned(w, notes);
    }
    first_effect(w, memory, notes, FileMoment::Finished)?;
    next_effects(w, memory, notes, effects - 1)
}

// This many further calls take effect, each as it becomes the first.
fn next_effects(
    w: &mut FileWork,
    memory: &mut Ram,
    notes: &mut Vec<FileNote>,
    effects: usize,
) -> Result<(), NoMemory>
    requires sound { IsSoundWork w.old }
    requires disk { w.old.system.blocks ≤ 65542 }
    ensures effects { IfOk result (λ _. step_of w.new memory.new notes.new.items ≡ model.next_effects effects (step_of w.old memory.old notes.old.items)) }
{
    for _ in 0..effects {
        first_effect(w, memory, notes, FileMoment::Next)?;
    }
    Ok(())
}

// The first call has a turn.
fn turned(w: &mut FileWork, notes: &mut Vec<FileNote>) -> Result<(), NoMemory>
    requires sound { IsSoundWork w.old }
    requires disk { w.old.system.blocks ≤ 65542 }
    ensures turned { IfOk result (λ _. (memory : List ℕ) → step_of w.new memory notes.new.items ≡ model.turned w.old.calls (step_of w.old memory notes.old.items)) }
{
    let Some(a) = w.calls.first() else {
        return Ok(());
    };
    let note = FileNote {
        caller: a.caller,
        moment: FileMoment::Turn,
        reply: None,
    };
    w.turns += 1;
    push(notes, note)
}

/// A call is made: it waits, or takes effect at once, which only one that becomes the first may do. `choice` is how many take effect at
/// once: 0 if others are under way, else 0 or 1. The call is sound and has a caller, its bytes are in RAM, and there are no notes before.
pub fn issued(
    w: &mut FileWork,
    memory: &mut Ram,
    notes: &mut Vec<FileNote>,
    a: FileRequest,
    choice: usize,
) -> Result<(), NoMemory>
    requires sound { IsSoundWork w.old }
    requires disk { w.old.system.blocks ≤ 65542 }
    requires right { IsFileRequest a }
    requires caller { IsSome a.caller }
    requires may { choice ≤ model.most_at_issue w.old.calls }
    requires fresh { notes.old.items ≡ [] }
    ensures issued { IfOk result (λ _. step_of w.new memory.new notes.new.items ≡ model.issued choice a memory.old w.old) }
{
    enqueued(w, memory, a)?;
    if choice > 0 {
        first_effect(w, memory, notes, FileMoment::Finished)?;
    }
    Ok(())
}

// A call goes after the others; if there is none it becomes the first.
fn enqueued(w: &mut FileWork, memory: &Ram, a: FileRequest) -> Result<(), NoMemory>
    requires right { IsFileRequest a }
    ensures enqueued { IfOk result (λ _. w.new ≡ model.enqueued a memory.now w.old) }
{
    let is_first = w.calls.is_empty();
    push(&mut w.calls, a)?;
    if is_first {
        with_first(w, memory)?;
    }
    Ok(())
}
