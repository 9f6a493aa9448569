//! The calls on processes, 1 and 3 to 9, and what is left of one (book, chapters 5 and 6, `resume.c`, `suspend.c`, `kill.c`, `chprio.c`).
//!
//! Each is the row of its number in the abstract machine's table. A word that names no process is refused.

ghost use Rattle.std.specs.Prelude.{◌≡◌, ◌≢◌};
ghost use Rattle.kernel_state.specs.Results.{came_to, IsStart};
ghost use Rattle.xinu_model.specs.Clock as clock;
ghost use Rattle.xinu_model.specs.Process.Calls as model;
ghost use Rattle.xinu_model.specs.Process.Death.{exit};
ghost use Rattle.xinu_model.specs.Sound.Tables.{IsSoundTables};
ghost use Rattle.xinu_model.specs.Tables.{state_at};

use kernel_state::KernelState;
use rv_hart::Hart;
use xinu_base::{Next, Pid, SYSERR, State};

/// Call 1: the number of the caller.
pub(crate) fn getpid(k: &KernelState) -> Next
    requires start { IsStart k.now.call }
    ensures getpid { came_to k.now.call result ≡ model.getpid k.now.call.state }
{
    Next::Returns(k.tables.current().index() as i32)
}

/// Call 3: the process of this number becomes ready; its priority. Refused if it isn't suspended.
pub(crate) fn resume(k: &mut KernelState, word: u32) -> Next
    requires start { IsStart k.old.call }
    ensures resume { came_to k.new.call result ≡ model.resume word k.old.call.state }
    ensures image { k.new.image ≡ k.old.image }
{
    let Some(p) = k.tables.alive(word) else {
        return Next::Returns(SYSERR);
    };
    let process = k.tables.process(p);
    if !matches!(process.state, State::Suspended) {
        return Next::Returns(SYSERR);
    }
    let priority = process.priority;
    k.tables.ready(p);
    k.owes_resched = true;
    Next::Returns(i32::from(priority))
}

/// Call 4: the process of this number is suspended; its priority. The caller itself answers it once it goes on. Refused if it is
/// the null process, or neither ready nor current.
pub(crate) fn suspend(k: &mut KernelState, word: u32) -> Next
    requires start { IsStart k.old.call }
    requires sound { IsSoundTables k.old.call.state.tables }
    ensures suspend { came_to k.new.call result ≡ model.suspend word k.old.call.state }
    ensures image { k.new.image ≡ k.old.image }
{
    let Some(p) = k.tables.alive(word) else {
        return Next::Returns(SYSERR);
    };
    if p == Pid::default() {
        return Next::Returns(SYSERR);
    }
    let process = k.tables.process(p);
    if matches!(process.state, State::Ready) {
        let priority = process.priority;
        k.tables.suspend_ready(p);
        return Next::Returns(i32::from(priority));
    }
    if p == k.tables.current() {
        k.tables.suspend_self();
        return Next::Waits;
    }
    Next::Returns(SYSERR)
}

/// Call 5: the process of this number dies, be it the caller. Refused if it is the null process, or there is none.
pub(crate) fn kill(k: &mut KernelState, word: u32) -> Next
    requires start { IsStart k.old.call }
    ensures kill { came_to k.new.call result ≡ model.kill word k.old.call.state }
    ensures image { k.new.image ≡ k.old.image }
{
    let Some(p) = k.tables.alive(word) else {
        return Next::Returns(SYSERR);
    };
    if p == Pid::default() {
        return Next::Returns(SYSERR);
    }
    let is_caller = p == k.tables.current();
    k.end(p);
    if is_caller {
        Next::Gone
    } else {
        Next::Returns(0)
    }
}

/// Call 6: the caller lets the others run.
pub(crate) fn yield_now(k: &mut KernelState) -> Next
    requires start { IsStart k.old.call }
    ensures yields { came_to k.new.call result ≡ clock.yield k.old.call.state }
    ensures image { k.new.image ≡ k.old.image }
{
    k.owes_resched = true;
    Next::Returns(0)
}

/// Call 7: the process of this number gets a priority; the one before. Refused if there is none.
pub(crate) fn chprio(k: &mut KernelState, word: u32, priority: i16) -> Next
    requires start { IsStart k.old.call }
    ensures chprio { came_to k.new.call result ≡ model.chprio word priority k.old.call.state }
    ensures image { k.new.image ≡ k.old.image }
{
    let Some(p) = k.tables.alive(word) else {
        return Next::Returns(SYSERR);
    };
    let process = k.tables.process(p);
    let before = process.priority;
    k.owes_resched = matches!(process.state, State::Ready | State::Current);
    k.tables.set_priority(p, priority);
    Next::Returns(i32::from(before))
}

/// Call 8: the priority of the process of this number. Refused if there is none.
pub(crate) fn getprio(k: &KernelState, word: u32) -> Next
    requires start { IsStart k.now.call }
    ensures getprio { came_to k.now.call result ≡ model.getprio word k.now.call.state }
{
    match k.tables.alive(word) {
        Some(p) => Next::Returns(i32::from(k.tables.process(p).priority)),
        None => Next::Returns(SYSERR),
    }
}

/// Call 9, and the end of a process that was trapped or returned from its first function: the caller dies. It isn't the null process, and
/// nothing was done yet in this event.
pub fn exit(k: &mut KernelState) -> Next
    requires start { IsStart k.old.call }
    requires not_null { k.old.call.state.tables.current ≢ 0 }
    ensures exit { came_to k.new.call result ≡ exit k.old.call.state }
    ensures image { k.new.image ≡ k.old.image }
{
    let current = k.tables.current();
    k.end(current);
    Next::Gone
}

/// What is left of the call by which the caller suspended itself: to answer its priority.
pub(crate) fn go_on_suspend(k: &mut KernelState) -> Next
    requires start { IsStart k.old.call }
    requires runs { state_at k.old.call.state.tables k.old.call.state.tables.current ≡ State.Current }
    ensures suspended { came_to k.new.call result ≡ model.go_on_suspend k.old.call.state }
    ensures image { k.new.image ≡ k.old.image }
{
    let current = k.tables.current();
    let priority = k.tables.process(current).priority;
    k.tables.go_on();
    Next::Returns(i32::from(priority))
}
