//! Calls on files inside an event: one is made, and waits or takes effect (book, chapter 19).

ghost use Rattle.std.specs.Prelude.{◌≡◌, ◌≤◌, [], IfOk, IsSome};
ghost use Rattle.reference_check.specs.Making.{MayMake};
ghost use Rattle.reference_check.specs.Steps.{asked_with, done_told, ends_at_once};
ghost use Rattle.reference_state.specs.Answers.{IsStart, answer_of, came_to};
ghost use Rattle.reference_state.specs.FileCalls.{file_call_of};
ghost use Rattle.reference_state.specs.Happened.{happened};
ghost use Rattle.xinu_model.specs.Files.Syscalls as model;
ghost use Rattle.xinu_model.specs.Files.Work as work;
ghost use Rattle.xinu_model.specs.Machine.{end_of_event};

use crate::choices::says_done;
use crate::file_notes::{has_calls, push_notes};
use reference_files::{FileNote, issued};
use reference_state::{Answer, FileCall, FileRequest, Happened, Machine};
use reference_tables::Place;
use xinu_base::{NoMemory, Rest, State, TranscriptLine};

// The semaphore on which the callers of files wait.
const LF_SEM: u32 = 3;

/// A call on files is made, with the address of its bytes, and the event ends with it, after the first lines. It takes effect if no call is
/// before it and the text tells so, else its caller waits.
pub(crate) fn make_call(
    m: &mut Machine,
    first: Vec<TranscriptLine>,
    call: FileCall,
    at: u32,
    text: &[u8],
) -> Result<Happened, NoMemory>
    requires start { IsStart m.old }
    requires right { MayMake (model.request_for (file_call_of call) at m.old.state) (model.files_of m.old.state) }
    ensures happens { IfOk result (λ h. happened h m.new.state ≡ asked_with (done_told text.now) (model.files_of m.old.state).calls
        (model.request_for (file_call_of call) at m.old.state) first.items m.old.state) }
    ensures start { IfOk result (λ _. IsStart m.new) }
{
    if has_calls(m) {
        return call_waits(m, first, call, at);
    }
    if !says_done(text) {
        return call_waits(m, first, call, at);
    }
    call_at_once(m, first, call, at)
}

// The event of a call on files that waits.
fn call_waits(
    m: &mut Machine,
    first: Vec<TranscriptLine>,
    call: FileCall,
    at: u32,
) -> Result<Happened, NoMemory>
    requires start { IsStart m.old }
    requires right { MayMake (model.request_for (file_call_of call) at m.old.state) (model.files_of m.old.state) }
    ensures waits { IfOk result (λ h. happened h m.new.state ≡
        end_of_event m.old.state.tables.current first.items (model.awaits_files (file_call_of call) at m.old.state)) }
    ensures start { IfOk result (λ _. IsStart m.new) }
{
    let caller = m.current();
    let answer = await_files(m, call, at)?;
    m.end_of_event(caller, first, answer)
}

// The caller makes a call, and waits until it takes effect.
fn await_files(m: &mut Machine, call: FileCall, at: u32) -> Result<Answer, NoMemory>
    requires start { IsStart m.old }
    requires right { MayMake (model.request_for (file_call_of call) at m.old.state) (model.files_of m.old.state) }
    ensures awaits { IfOk result (λ a. came_to m.new a ≡ model.awaits_files (file_call_of call) at m.old.state) }
{
    let request = request_for(m, call, at);
    issue(m, request, 0)?;
    m.blocked(State::Waiting, Rest::Disk(None), Place::InSemaphore(LF_SEM))
}

// The event of a call on files that takes effect as it is made.
fn call_at_once(
    m: &mut Machine,
    first: Vec<TranscriptLine>,
    call: FileCall,
    at: u32,
) -> Result<Happened, NoMemory>
    requires start { IsStart m.old }
    requires right { MayMake (model.request_for (file_call_of call) at m.old.state) (model.files_of m.old.state) }
    requires alone { (model.files_of m.old.state).calls ≡ [] }
    ensures happens { IfOk result (λ h. happened h m.new.state ≡
        ends_at_once (model.request_for (file_call_of call) at m.old.state) first.items m.old.state) }
    ensures start { IfOk result (λ _. IsStart m.new) }
{
    let caller = m.current();
    let request = request_for(m, call, at);
    let notes = issue(m, request, 1)?;
    let mut lines = first;
    push_notes(&mut lines, &notes)?;
    let answer = answer_told(&notes);
    m.end_of_event(caller, lines, answer)
}

// The current process's call, with the address of its bytes.
fn request_for(m: &Machine, call: FileCall, at: u32) -> FileRequest
    ensures request { result ≡ model.request_for (file_call_of call) at m.now.state }
{
    FileRequest {
        caller: Some(m.current()),
        call,
        at,
    }
}

// A call is made, of which so many take effect; what happened to it.
fn issue(m: &mut Machine, a: FileRequest, choice: usize) -> Result<Vec<FileNote>, NoMemory>
    requires right { MayMake a (model.files_of m.old.state) }
    requires caller { IsSome a.caller }
    requires may { choice ≤ work.most_at_issue (model.files_of m.old.state).calls }
    ensures issued { IfOk result (λ _. m.new ≡ record m.old {
      state = model.with_step (work.issued choice a m.old.state.memory (model.files_of m.old.state)) m.old.state;
    }) }
    ensures notes { IfOk result (λ notes.
        notes.items ≡ (work.issued choice a m.old.state.memory (model.files_of m.old.state)).notes) }
{
    let mut notes = Vec::new(*m.released.allocator());
    issued(&mut m.files, &mut m.memory, &mut notes, a, choice)?;
    Ok(notes)
}

// The answer to the one call that took effect as it was made.
fn answer_told(notes: &[FileNote]) -> Answer
    ensures told { answer_of result ≡ model.answer_told notes.now }
{
    match notes.first() {
        None => Answer::Silent,
        Some(note) => match note.reply {
            None => Answer::Silent,
            Some(reply) => Answer::Returns(reply),
        },
    }
}
