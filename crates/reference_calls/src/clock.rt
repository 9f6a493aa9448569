//! The clock: who sleeps, and what a tick does (book, chapter 13). The calls are `yield`, `sleep`, `sleepms` and `clktime`.

ghost use Rattle.std.specs.Prelude.{◌≡◌, ◌≤◌, ◌<◌, IfOk, is_ok, true};
ghost use Rattle.reference_state.specs.Answers.{came_to, IsStart};
ghost use Rattle.reference_state.specs.Happened.{happened};
ghost use Rattle.xinu_model.specs.Clock as model;
ghost use Rattle.xinu_model.specs.Machine as machine;

use reference_state::{Answer, Happened, Machine};
use reference_tables::Place;
use xinu_base::{NoMemory, Rest, SYSERR, State};

// The greatest number of seconds that can be slept.
const MOST_SECONDS: i32 = 2147483;

/// Call 6: the caller lets the others run.
pub fn yield_now(m: &mut Machine) -> Result<Answer, NoMemory>
    requires start { IsStart m.old }
    ensures yields { IfOk result (λ a. came_to m.new a ≡ model.yield m.old.state) }
    ensures answers { is_ok result ≡ true }
{
    m.owe_resched();
    Ok(Answer::Returns(0))
}

/// Call 26: the caller sleeps n ticks, for 0 it yields. Refused if n is negative.
pub fn sleepms(m: &mut Machine, n: i32) -> Result<Answer, NoMemory>
    requires start { IsStart m.old }
    requires few { m.old.state.tables.ticks ≤ 2147483647 }
    ensures sleepms { IfOk result (λ a. came_to m.new a ≡ model.sleepms n m.old.state) }
{
    if n < 0 {
        return Ok(Answer::Returns(SYSERR));
    }
    if n == 0 {
        return yield_now(m);
    }
    let wake = m.ticks() + n as u32;
    m.blocked(State::Sleeping, Rest::Nothing, Place::InSleepers(wake))
}

/// Call 25: the caller sleeps n seconds. Refused if n is negative or above 2147483.
pub fn sleep(m: &mut Machine, n: i32) -> Result<Answer, NoMemory>
    requires start { IsStart m.old }
    requires few { m.old.state.tables.ticks ≤ 2147483647 }
    ensures sleep { IfOk result (λ a. came_to m.new a ≡ model.sleep n m.old.state) }
{
    if n < 0 || n > MOST_SECONDS {
        return Ok(Answer::Returns(SYSERR));
    }
    sleepms(m, 1000 * n)
}

/// Call 27: the seconds since the start.
pub fn clktime(m: &Machine) -> Result<Answer, NoMemory>
    requires start { IsStart m.now }
    ensures clktime { IfOk result (λ a. came_to m.now a ≡ model.clktime m.now.state) }
    ensures answers { is_ok result ≡ true }
{
    Ok(Answer::Returns((m.ticks() / 1000) as i32))
}

/// A tick of the clock: those whose tick has come are released, with a resched if there were any; then the quantum falls.
pub fn ticked(m: &mut Machine) -> Result<Happened, NoMemory>
    requires start { IsStart m.old }
    requires few { m.old.state.tables.ticks < 4294967295 }
    ensures ticked { IfOk result (λ h. happened h m.new.state ≡ model.ticked m.old.state) }
    ensures start { IfOk result (λ _. IsStart m.new) }
{
    let was = m.current();
    wakeup(m)?;
    tick_tables(m)?;
    m.event_result(was)
}

// Those whose tick has come are released.
fn wakeup(m: &mut Machine) -> Result<(), NoMemory>
    requires start { IsStart m.old }
    requires few { m.old.state.tables.ticks < 4294967295 }
    ensures wakeup { IfOk result (λ _. m.new ≡ model.wakeup m.old.state) }
    ensures ticks { IfOk result (λ _. m.new.state.tables.ticks ≡ m.old.state.tables.ticks) }
{
    let due = m.due(m.ticks() + 1)?;
    m.unblock_all_with(0, &due)?;
    Ok(())
}

// The tables' part of a tick.
fn tick_tables(m: &mut Machine) -> Result<(), NoMemory>
    requires few { m.old.state.tables.ticks < 4294967295 }
    ensures ticked { IfOk result (λ _. m.new ≡
        machine.with_tables (model.quantum_falls (model.a_tick_later m.old.owes_resched m.old.state.tables)) m.old) }
{
    m.tables.tick(m.owes_resched)
}
