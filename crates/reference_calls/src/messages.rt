//! Messages: each process has a slot for one word (book, chapter 8). The calls are `send`, `receive`, `recvclr` and `recvtime`; what is
//! left of those that wait is here too.

ghost use Rattle.std.specs.Prelude.{◌≡◌, ◌≤◌, IfOk, None};
ghost use Rattle.reference_state.specs.Answers.{came_to, IsStart};
ghost use Rattle.xinu_model.specs.Machine as machine;
ghost use Rattle.xinu_model.specs.Messages as model;
ghost use Rattle.xinu_model.specs.Words.{signed};

use reference_state::{Answer, Machine};
use reference_tables::Place;
use xinu_base::{NoMemory, Rest, SYSERR, State, TIMEOUT};

/// Call 21: the process of a word is sent a message. Refused if there is no such process or it holds one.
pub fn send(m: &mut Machine, word: u32, message: u32) -> Result<Answer, NoMemory>
    requires start { IsStart m.old }
    ensures send { IfOk result (λ a. came_to m.new a ≡ model.send word message m.old.state) }
{
    let Some(p) = m.living(word) else {
        return Ok(Answer::Returns(SYSERR));
    };
    if !m.can_get(p) {
        return Ok(Answer::Returns(SYSERR));
    }
    m.delivered(p, message)?;
    Ok(Answer::Returns(0))
}

/// Call 22: the caller's message, for which it waits.
pub fn receive(m: &mut Machine) -> Result<Answer, NoMemory>
    requires start { IsStart m.old }
    ensures receive { IfOk result (λ a. came_to m.new a ≡ model.receive m.old.state) }
{
    match m.held() {
        Some(message) => taken(m, message),
        None => m.blocked(State::Receiving, Rest::Receive, Place::Nowhere),
    }
}

/// Call 23: the caller's message, or 0.
pub fn recvclr(m: &mut Machine) -> Result<Answer, NoMemory>
    requires start { IsStart m.old }
    ensures recvclr { IfOk result (λ a. came_to m.new a ≡ model.recvclr m.old.state) }
{
    match m.held() {
        Some(message) => taken(m, message),
        None => Ok(Answer::Returns(0)),
    }
}

/// Call 24: the caller's message, for which it waits n ticks, at least one. Refused if n is negative.
pub fn recvtime(m: &mut Machine, n: i32) -> Result<Answer, NoMemory>
    requires start { IsStart m.old }
    requires few { m.old.state.tables.ticks ≤ 2147483647 }
    ensures recvtime { IfOk result (λ a. came_to m.new a ≡ model.recvtime n m.old.state) }
{
    if n < 0 {
        return Ok(Answer::Returns(SYSERR));
    }
    match m.held() {
        Some(message) => taken(m, message),
        None => {
            let wake = m.ticks() + (n as u32).max(1);
            m.blocked(State::Timed, Rest::Timed, Place::InSleepers(wake))
        }
    }
}

/// The caller goes on: it answers the message that came, or that its time ran out.
pub fn go_on_receive(m: &mut Machine) -> Result<Answer, NoMemory>
    requires start { IsStart m.old }
    ensures goes_on { IfOk result (λ a. came_to m.new a ≡ model.go_on_receive m.old.state) }
{
    match m.held() {
        Some(message) => taken(m, message),
        None => {
            m.goes_on(None)?;
            Ok(Answer::Returns(TIMEOUT))
        }
    }
}

// The caller goes on without a message, which is answered.
fn taken(m: &mut Machine, message: u32) -> Result<Answer, NoMemory>
    requires start { IsStart m.old }
    ensures taken { IfOk result (λ a. came_to m.new a ≡
        machine.returns (machine.start (machine.goes_on None m.old.state)) (signed message)) }
{
    m.goes_on(None)?;
    Ok(Answer::Returns(message.cast_signed()))
}
