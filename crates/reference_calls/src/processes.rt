//! Processes: how they are resumed, suspended and given priorities, and what is left of a `suspend` of the caller itself (book, chapters 5
//! and 6). The calls are `getpid`, `resume`, `suspend`, `chprio` and `getprio`.

ghost use Rattle.std.specs.Prelude.{◌≡◌, IfOk, is_ok, true};
ghost use Rattle.reference_state.specs.Answers.{came_to, IsStart};
ghost use Rattle.xinu_model.specs.Machine as machine;
ghost use Rattle.xinu_model.specs.Process.Calls as model;

use reference_state::{Answer, Machine};
use reference_tables::{Place, Tables, in_state};
use xinu_base::{NoMemory, Pid, Process, Rest, SYSERR, State};

/// Call 1: the number of the caller.
pub fn getpid(m: &Machine) -> Result<Answer, NoMemory>
    requires start { IsStart m.now }
    ensures getpid { IfOk result (λ a. came_to m.now a ≡ model.getpid m.now.state) }
    ensures answers { is_ok result ≡ true }
{
    Ok(Answer::Returns(m.current().index() as i32))
}

/// Call 3: the process of a word becomes ready; its priority. Refused if it isn't suspended.
pub fn resume(m: &mut Machine, word: u32) -> Result<Answer, NoMemory>
    requires start { IsStart m.old }
    ensures resume { IfOk result (λ a. came_to m.new a ≡ model.resume word m.old.state) }
{
    let Some(p) = m.named(word) else {
        return Ok(Answer::Returns(SYSERR));
    };
    let x = m.process_at(p);
    if !matches!(x.state, State::Suspended) {
        return Ok(Answer::Returns(SYSERR));
    }
    m.ready_later(p)?;
    Ok(Answer::Returns(i32::from(x.priority)))
}

/// Call 4: the process of a word is suspended, or the caller itself; its priority. Refused if it is the null process, or neither ready nor
/// current.
pub fn suspend(m: &mut Machine, word: u32) -> Result<Answer, NoMemory>
    requires start { IsStart m.old }
    ensures suspend { IfOk result (λ a. came_to m.new a ≡ model.suspend word m.old.state) }
{
    let caller = m.current();
    let Some(p) = m.named(word) else {
        return Ok(Answer::Returns(SYSERR));
    };
    if word == 0 {
        return Ok(Answer::Returns(SYSERR));
    }
    let x = m.process_at(p);
    let priority = x.priority;
    if matches!(x.state, State::Ready) {
        let message = m.message_at(p);
        m.move_to(p, in_state(State::Suspended, x), message, Place::Nowhere)?;
        return Ok(Answer::Returns(i32::from(priority)));
    }
    if p == caller {
        return m.blocked(State::Suspended, Rest::SelfSuspend, Place::Nowhere);
    }
    Ok(Answer::Returns(SYSERR))
}

/// Call 7: the process of a word gets this priority, and a resched is owed if it is ready or current; the answer is the priority before.
/// Refused if there is no such process.
pub fn chprio(m: &mut Machine, word: u32, priority: i16) -> Result<Answer, NoMemory>
    requires start { IsStart m.old }
    ensures chprio { IfOk result (λ a. came_to m.new a ≡ model.chprio word priority m.old.state) }
{
    let Some(p) = m.living(word) else {
        return Ok(Answer::Returns(SYSERR));
    };
    let x = m.process_at(p);
    set_priority(m, p, priority)?;
    if matches!(x.state, State::Ready | State::Current) {
        m.owe_resched();
    }
    Ok(Answer::Returns(i32::from(x.priority)))
}

/// Call 8: the priority of the process of a word. Refused if there is no such process.
pub fn getprio(m: &Machine, word: u32) -> Result<Answer, NoMemory>
    requires start { IsStart m.now }
    ensures getprio { IfOk result (λ a. came_to m.now a ≡ model.getprio word m.now.state) }
    ensures answers { is_ok result ≡ true }
{
    match m.living(word) {
        None => Ok(Answer::Returns(SYSERR)),
        Some(p) => Ok(Answer::Returns(i32::from(m.process_at(p).priority))),
    }
}

/// The caller goes on after it suspended itself: it answers its priority.
pub fn go_on_suspend(m: &mut Machine) -> Result<Answer, NoMemory>
    requires start { IsStart m.old }
    ensures goes_on { IfOk result (λ a. came_to m.new a ≡ model.go_on_suspend m.old.state) }
{
    let priority = m.process_at(m.current()).priority;
    let message = m.held();
    m.goes_on(message)?;
    Ok(Answer::Returns(i32::from(priority)))
}

// `p` has another priority.
fn set_priority(m: &mut Machine, p: Pid, priority: i16) -> Result<(), NoMemory>
    ensures priority { IfOk result (λ _. m.new ≡ machine.with_tables (model.with_priority p priority m.old.state.tables) m.old) }
{
    set_table_priority(&mut m.tables, p, priority)
}

// The same of the tables: if `p` is ready it leaves the ready list and enters it again by this key.
fn set_table_priority(t: &mut Tables, p: Pid, priority: i16) -> Result<(), NoMemory>
    ensures priority { IfOk result (λ _. t.new ≡ model.with_priority p priority t.old) }
{
    let x = Process {
        priority,
        ..t.process_at(p)
    };
    if matches!(x.state, State::Ready) {
        let message = t.message_at(p);
        return t.move_to(p, x, message, Place::InReady);
    }
    t.set_process(p, x);
    Ok(())
}
