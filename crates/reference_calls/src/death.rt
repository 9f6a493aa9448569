//! How a process dies: what is left of its stack, its number, its registers, and of what it asked of disks (book, chapter 5). The calls are
//! `kill` and `exit`.

ghost use Rattle.std.specs.Prelude.{◌≡◌, IfOk};
ghost use Rattle.reference_state.specs.Answers.{came_to, IsStart};
ghost use Rattle.xinu_model.specs.Devices.State as devices;
ghost use Rattle.xinu_model.specs.Process.Calls as calls;
ghost use Rattle.xinu_model.specs.Process.Death as model;

use crate::harts::set_hart;
use crate::memory_calls::stack_freed;
use crate::requests::{give_up_calls, give_up_requests};
use reference_state::{Answer, Machine};
use reference_tables::{Place, no_process};
use rv_hart::Hart;
use xinu_base::{NoMemory, Pid, Process, SYSERR};

/// Call 5: the process of a word dies. Refused if it is the null process or there is no such process.
pub fn kill(m: &mut Machine, word: u32) -> Result<Answer, NoMemory>
    requires start { IsStart m.old }
    ensures kill { IfOk result (λ a. came_to m.new a ≡ calls.kill word m.old.state) }
{
    let Some(p) = m.living(word) else {
        return Ok(Answer::Returns(SYSERR));
    };
    if word == 0 {
        return Ok(Answer::Returns(SYSERR));
    }
    if p == m.current() {
        return exit(m);
    }
    killed(m, p)?;
    Ok(Answer::Returns(0))
}

/// Call 9, and the end of a process that is trapped or returns from its first function: the caller dies.
pub fn exit(m: &mut Machine) -> Result<Answer, NoMemory>
    requires start { IsStart m.old }
    ensures exit { IfOk result (λ a. came_to m.new a ≡ model.exit m.old.state) }
{
    let p = m.current();
    killed(m, p)?;
    Ok(Answer::Gone)
}

// `p` dies: its parent is sent its number, and it is reaped.
fn killed(m: &mut Machine, p: Pid) -> Result<(), NoMemory>
    ensures killed { IfOk result (λ _. m.new ≡ model.killed p m.old) }
{
    let x = m.process_at(p);
    m.sent(x.parent, p.index() as u32)?;
    reap(m, p, x)?;
    Ok(())
}

// `p` is dead: its stack is free, unless the heap refuses it, so is its number, and what it asked of disks is given up.
fn reap(m: &mut Machine, p: Pid, x: Process) -> Result<(), NoMemory>
    ensures reaped { IfOk result (λ _. m.new ≡ model.reap p x m.old) }
{
    m.move_to(p, no_process(), None, Place::Nowhere)?;
    set_hart(m, p, Hart::ZERO);
    stack_freed(m, x.stack, x.stack_size);
    give_up(m, p);
    Ok(())
}

// What `p` asked of disks is given up.
fn give_up(m: &mut Machine, p: Pid)
    ensures given { m.new ≡ record m.old {
      state = record m.old.state {
        parts = record m.old.state.parts {
          devices = devices.given_up p m.old.state.parts.devices;
        };
      };
    } }
{
    give_up_requests(&mut m.disk, p);
    give_up_calls(&mut m.files, p);
}
