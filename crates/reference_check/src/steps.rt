//! A machine step: an instruction of the current process, or what is left of the call in which it waited (book, chapters 4 and 5).

ghost use Rattle.std.specs.Prelude.{◌≡◌, ◌≢◌, [], IfOk};
ghost use Rattle.reference_check.specs.Steps.{call_made, called_with, done_told, reacted_with};
ghost use Rattle.reference_state.specs.Answers.{IsStart};
ghost use Rattle.reference_state.specs.Happened.{happened};
ghost use Rattle.reference_check.specs.Bounds.{IsWithin};
ghost use Rattle.xinu_base.specs.declared.processes.Rest.TheVariants.{Nothing};
ghost use Rattle.xinu_model.specs.Calls as calls;
ghost use Rattle.xinu_model.specs.Events as model;
ghost use Rattle.xinu_model.specs.Isa.Exec.{exec};
ghost use Rattle.xinu_model.specs.Machine.{current_hart, end_of_event};
ghost use Rattle.xinu_model.specs.Tables.{process_at};

use crate::calls::{called, continued};
use crate::file_calls::make_call;
use crate::file_notes::nothing;
use reference_calls::steps::{call_of, instruction, returned, trapped};
use reference_state::{Happened, Machine};
use reference_switch::DeviceOutcome;
use rv_hart::Outcome;
use xinu_base::{NoMemory, Rest, TranscriptLine};

/// A machine step, in which a call on files takes effect as it is made, if there is one that may and the text tells it. Nothing happens if
/// the null process is current.
pub(crate) fn step(m: &mut Machine, text: &[u8]) -> Result<Happened, NoMemory>
    requires start { IsStart m.old }
    requires within { IsWithin 1000000000 m.old.state }
    ensures steps { IfOk result (λ h. happened h m.new.state ≡
        model.step_with (done_told text.now) (model.next_file_call m.old.state) m.old.state) }
    ensures start { IfOk result (λ _. IsStart m.new) }
{
    if m.current().index() == 0 {
        return Ok(nothing(m));
    }
    match m.process_at(m.current()).rest {
        Rest::Nothing => instruction_step(m, text),
        _ => continuing_step(m),
    }
}

// The step of a process that waited in a call.
fn continuing_step(m: &mut Machine) -> Result<Happened, NoMemory>
    requires start { IsStart m.old }
    requires within { IsWithin 1000000000 m.old.state }
    ensures steps { IfOk result (λ h. happened h m.new.state ≡ end_of_event m.old.state.tables.current []
        (calls.continued (process_at m.old.state.tables m.old.state.tables.current).rest m.old.state)) }
    ensures start { IfOk result (λ _. IsStart m.new) }
{
    let was = m.current();
    let answer = continued(m)?;
    let first = m.no_lines();
    m.end_of_event(was, first, answer)
}

// The step of a process whose call is complete.
fn instruction_step(m: &mut Machine, text: &[u8]) -> Result<Happened, NoMemory>
    requires start { IsStart m.old }
    requires within { IsWithin 1000000000 m.old.state }
    requires process { m.old.state.tables.current ≢ 0 }
    ensures reacted { IfOk result (λ h. happened h m.new.state ≡
        reacted_with (done_told text.now) (exec (current_hart m.old.state) m.old.state.memory).outcome
        (model.with_executed (exec (current_hart m.old.state) m.old.state.memory) m.old.state)) }
    ensures start { IfOk result (λ _. IsStart m.new) }
{
    match instruction(m) {
        Outcome::Went => Ok(nothing(m)),
        Outcome::Call => call_step(m, text),
        Outcome::Exit => returned(m),
        Outcome::Trap(cause) => trapped(m, cause),
    }
}

// The step in which the current process makes a call.
fn call_step(m: &mut Machine, text: &[u8]) -> Result<Happened, NoMemory>
    requires start { IsStart m.old }
    requires within { IsWithin 1000000000 m.old.state }
    requires process { m.old.state.tables.current ≢ 0 }
    ensures called { IfOk result (λ h. happened h m.new.state ≡ called_with (done_told text.now) (call_made m.old.state) m.old.state) }
    ensures start { IfOk result (λ _. IsStart m.new) }
{
    let caller = m.current();
    let call = call_of(m);
    let first = m.one_line(TranscriptLine::Call(caller, call))?;
    match called(m, call)? {
        DeviceOutcome::Done(answer) => m.end_of_event(caller, first, answer),
        DeviceOutcome::Asks(call, at) => make_call(m, first, call, at, text),
    }
}
