//! One instruction of the current process, the call that its registers ask for, and the two ways in which an instruction ends a process
//! (book, chapters 4 and 5).

ghost use Rattle.std.specs.Prelude.{◌≡◌, IfOk};
ghost use Rattle.reference_state.specs.Answers.{IsStart};
ghost use Rattle.reference_state.specs.Happened.{happened};
ghost use Rattle.xinu_base.specs.declared.registers.Outcome.TheVariants as outcome;
ghost use Rattle.xinu_model.specs.Events as model;
ghost use Rattle.xinu_model.specs.Isa.Exec.{exec};
ghost use Rattle.xinu_model.specs.Machine.{current_hart};

use crate::death::exit;
use reference_state::{Happened, Machine};
use rv_hart::{Cause, Outcome, step};
use xinu_base::{Call, NoMemory, TranscriptLine};

/// Carries out one instruction of the current process.
pub fn instruction(m: &mut Machine) -> Outcome
    ensures outcome { result ≡ (exec (current_hart m.old.state) m.old.state.memory).outcome }
    ensures state { m.new ≡ record m.old {
      state = model.with_executed (exec (current_hart m.old.state) m.old.state.memory) m.old.state;
    } }
{
    let current = m.current();
    step(&mut m.harts[current.index()], &mut m.memory)
}

/// The call that the current process's registers ask for.
pub fn call_of(m: &Machine) -> Call
    ensures call { result ≡ model.call_of (current_hart m.now.state) }
{
    let current = m.current();
    let regs = &m.harts[current.index()].regs;
    Call {
        number: regs[17],
        args: [regs[10], regs[11], regs[12], regs[13], regs[14], regs[15]],
    }
}

/// The current process returned from its first function: it exits, as if it had made that call.
pub fn returned(m: &mut Machine) -> Result<Happened, NoMemory>
    requires start { IsStart m.old }
    ensures returned { IfOk result (λ h. happened h m.new.state ≡ model.reacted outcome.Exit m.old.state) }
    ensures start { IfOk result (λ _. IsStart m.new) }
{
    let caller = m.current();
    let call = Call {
        number: 9,
        ..call_of(m)
    };
    let first = m.one_line(TranscriptLine::Call(caller, call))?;
    let answer = exit(m)?;
    m.end_of_event(caller, first, answer)
}

/// The current process was trapped: it dies.
pub fn trapped(m: &mut Machine, cause: Cause) -> Result<Happened, NoMemory>
    requires start { IsStart m.old }
    ensures trapped { IfOk result (λ h. happened h m.new.state ≡ model.reacted (outcome.Trap cause) m.old.state) }
    ensures start { IfOk result (λ _. IsStart m.new) }
{
    let caller = m.current();
    let first = m.one_line(TranscriptLine::Trap(caller, cause))?;
    let answer = exit(m)?;
    m.end_of_event(caller, first, answer)
}
