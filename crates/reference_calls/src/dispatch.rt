//! The calls on processes, memory, semaphores, messages and the clock by their numbers, and what is left of those that wait.

ghost use Rattle.std.specs.Prelude.{◌≡◌, ◌≤◌, ℕ, IfOk, length, true};
ghost use Rattle.reference_calls.specs.Rests.{is_core};
ghost use Rattle.reference_state.specs.Answers.{came_to, IsStart};
ghost use Rattle.xinu_base.specs.Syscalls.{is_of};
ghost use Rattle.xinu_base.specs.declared.syscalls.Family.TheVariants.{Processes};
ghost use Rattle.xinu_model.specs.Calls as model;
ghost use Rattle.xinu_model.specs.Tables.{process_at, semaphore_at};

use crate::clock::{clktime, sleep, sleepms, yield_now};
use crate::creation::{Creation, create};
use crate::death::{exit, kill};
use crate::memory_calls::{freemem, freestk, getmem, getstk};
use crate::messages::{go_on_receive, receive, recvclr, recvtime, send};
use crate::processes::{chprio, getpid, getprio, go_on_suspend, resume, suspend};
use crate::semaphores::{semcount, semcreate, semdelete, semreset, signal, signaln, wait};
use crate::words::{half, signed};
use reference_state::{Answer, Machine};
use xinu_base::{Call, NoMemory, Rest, SYSERR, each_call};

/// What the call of this number does with its arguments, for the calls on processes, memory, semaphores, messages and the clock.
#[tactic(auto, unfolding(xinu_model::specs::Calls::calls))]
pub fn core_call(m: &mut Machine, call: Call) -> Result<Answer, NoMemory>
    requires start { IsStart m.old }
    requires core { is_of Processes call.number ≡ true }
    requires few_ticks { m.old.state.tables.ticks ≤ 2147483647 }
    requires few_waiters { (sem : ℕ) → length (semaphore_at m.old.state.tables sem).waiters ≤ 64 }
    ensures call { IfOk result (λ a. came_to m.new a ≡ model.called call.number call.args m.old.state) }
{
    let args = call.args;
    macro_rules! calls {
        (
            Processes { $($number:literal $name:literal $count:literal $call:expr;)* }
            Ports { $($port_calls:tt)* }
            Devices { $($device_calls:tt)* }
        ) => {
            match call.number {
                $($number => $call,)*
                _ => Ok(Answer::Returns(SYSERR)),
            }
        };
    }
    each_call!(calls, m, args)
}

/// What the first step of a process does that waited in a call for a message, or suspended itself, once it is current again.
pub fn core_continued(m: &mut Machine) -> Result<Answer, NoMemory>
    requires start { IsStart m.old }
    requires core { is_core (process_at m.old.state.tables m.old.state.tables.current).rest ≡ true }
    ensures continued { IfOk result (λ a. came_to m.new a ≡
        model.continued (process_at m.old.state.tables m.old.state.tables.current).rest m.old.state) }
{
    match m.process_at(m.current()).rest {
        Rest::SelfSuspend => go_on_suspend(m),
        _ => go_on_receive(m),
    }
}
