//! What happened to calls on files in an event, told to their callers and printed; and the event in which their disk completes well.

ghost use Rattle.std.specs.Prelude.{◌≡◌, ◌≤◌, ◌+◌, ◌++◌, ◌∷◌, [], IfOk, map};
ghost use Rattle.reference_state.specs.Answers.{IsStart};
ghost use Rattle.reference_state.specs.Happened.{happened};
ghost use Rattle.xinu_model.specs.Files.Rest.{are_calls};
ghost use Rattle.xinu_model.specs.Files.Sound.{IsSoundWork};
ghost use Rattle.xinu_model.specs.Files.Syscalls as model;
ghost use Rattle.xinu_model.specs.Files.Work as work;
ghost use Rattle.xinu_model.specs.Machine.{nothing_happens};

use reference_devices::disk::keep_reply;
use reference_files::{FileNote, calls_completed, least_effects};
use reference_state::{Answer, Happened, Machine};
use reference_tables::push;
use xinu_base::{NoMemory, Pid, TranscriptLine};

/// The event in which the disk with files completes well, and so many calls more take effect than have to.
pub(crate) fn files_complete(m: &mut Machine, choice: usize) -> Result<Happened, NoMemory>
    requires start { IsStart m.old }
    requires sound { IsSoundWork (model.files_of m.old.state) }
    requires disk { (model.files_of m.old.state).system.blocks ≤ 65542 }
    requires few { choice ≤ 65 }
    ensures completes { IfOk result (λ h. happened h m.new.state ≡ model.files_complete choice m.old.state) }
    ensures start { IfOk result (λ _. IsStart m.new) }
{
    if !has_calls(m) {
        return Ok(nothing(m));
    }
    let was = m.current();
    let effects = least_effects(&m.files) + choice;
    let notes = complete(m, effects)?;
    let mut first = m.no_lines();
    push_notes(&mut first, &notes)?;
    tell_all(m, &notes)?;
    m.end_of_event(was, first, Answer::Silent)
}

/// Whether a call on files is under way.
pub(crate) fn has_calls(m: &Machine) -> bool
    ensures has { result ≡ are_calls (model.files_of m.now.state).calls }
{
    !m.files.calls.is_empty()
}

/// Nothing is printed and nothing changes.
pub(crate) fn nothing(m: &Machine) -> Happened
    ensures nothing { happened result m.now.state ≡ nothing_happens m.now.state }
{
    Happened {
        lines: m.no_lines(),
        panics: false,
    }
}

// A good completion of the disk, at which so many calls take effect; what happened to them.
fn complete(m: &mut Machine, effects: usize) -> Result<Vec<FileNote>, NoMemory>
    requires sound { IsSoundWork (model.files_of m.old.state) }
    requires disk { (model.files_of m.old.state).system.blocks ≤ 65542 }
    ensures completed { IfOk result (λ _. m.new ≡
        record m.old { state = model.with_step (work.calls_completed effects (model.file_step m.old.state)) m.old.state }) }
    ensures notes { IfOk result (λ notes. notes.items ≡ (work.calls_completed effects (model.file_step m.old.state)).notes) }
{
    let mut notes = Vec::new(*m.released.allocator());
    calls_completed(&mut m.files, &mut m.memory, &mut notes, effects)?;
    Ok(notes)
}

/// The lines of what happened to calls.
pub(crate) fn push_notes(
    lines: &mut Vec<TranscriptLine>,
    notes: &[FileNote],
) -> Result<(), NoMemory>
    ensures pushed { IfOk result (λ _. lines.new.items ≡ lines.old.items ++ map model.file_line notes.now) }
{
    for note in notes {
        push_note(lines, note)?;
    }
    Ok(())
}

// The line of what happened to a call; of one whose caller was killed it names process 0.
fn push_note(lines: &mut Vec<TranscriptLine>, note: &FileNote) -> Result<(), NoMemory>
    ensures pushed { IfOk result (λ _. lines.new.items ≡ lines.old.items ++ model.file_line note.now ∷ []) }
{
    let caller = note.caller.unwrap_or(Pid::default());
    push(lines, TranscriptLine::File(caller, note.moment))
}

// The callers of the calls that took effect become ready, and their replies are kept for them.
fn tell_all(m: &mut Machine, notes: &[FileNote]) -> Result<(), NoMemory>
    ensures told { IfOk result (λ _. m.new ≡ model.all_told notes.now m.old) }
{
    for note in notes {
        tell(m, note)?;
    }
    Ok(())
}

// The same of one call.
fn tell(m: &mut Machine, note: &FileNote) -> Result<(), NoMemory>
    ensures told { IfOk result (λ _. m.new ≡ model.told note.now.reply note.now.caller m.old) }
{
    if let Some(reply) = note.reply {
        if let Some(p) = note.caller {
            keep_reply(m, p, reply)?;
        }
    }
    Ok(())
}
