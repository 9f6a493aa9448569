//! Ports: queues of messages with a bound on how many wait in each (book, chapter 11). The calls are `ptcreate`, `ptdelete`, `ptreset`,
//! `ptsend` and `ptrecv`, and what is left of the last two when their callers waited.

ghost use Rattle.std.specs.Prelude.{ℕ, ◌≡◌, ◌<◌, ◌≤◌, ◌+◌, IfOk, Some, is_ok, length, true};
ghost use Rattle.reference_ports.specs.Heads.{queue_with};
ghost use Rattle.reference_ports.specs.PortRoom.{HaveRoom};
ghost use Rattle.reference_state.specs.Answers.{came_to, IsStart};
ghost use Rattle.xinu_model.specs.Ports.Calls as model;
ghost use Rattle.xinu_model.specs.Ports.Queues.{port_at, queued};
ghost use Rattle.xinu_model.specs.Semaphores.Counts.{free_semaphore};
ghost use Rattle.xinu_model.specs.Sound.Pools.{ArePools};
ghost use Rattle.xinu_model.specs.Sound.Ports.{ArePorts};
ghost use Rattle.xinu_model.specs.Sound.Tables.{IsSoundTables};
ghost use Rattle.xinu_model.specs.Tables.{semaphore_at};

use crate::port_changes::{
    add_message, are_all_full, clear, delete, empty, free_port, head_at, is_changed,
    last_semaphore, messages_of, own_semaphore, set_messages, start_port, take_back, ticket_of,
};
use crate::queues::{Head, take_first};
use reference_state::{Answer, Machine};
use xinu_base::{NoMemory, Port, PortTicket, Rest, SYSERR};

/// Call 31: a port that holds n messages; its number. Refused if n is negative, or no port or no two semaphores are free.
pub fn ptcreate(m: &mut Machine, n: i32) -> Result<Answer, NoMemory>
    requires start { IsStart m.old }
    requires sound { IsSoundTables m.old.state.tables }
    requires numbers { (q : ℕ) → (port_at m.old.state.parts.ports q).seq < 4294967295 }
    ensures ptcreate { IfOk result (λ a. came_to m.new a ≡ model.ptcreate n m.old.state) }
    ensures answers { is_ok result ≡ true }
{
    if n < 0 {
        return Ok(Answer::Returns(SYSERR));
    }
    Ok(create_port(m, n as u32))
}

// A port that holds n messages, if a number and two semaphores are found; the second is sought after the first, which is taken back if
// there is no second.
fn create_port(m: &mut Machine, n: u32) -> Answer
    requires start { IsStart m.old }
    requires sound { IsSoundTables m.old.state.tables }
    requires numbers { (q : ℕ) → (port_at m.old.state.parts.ports q).seq < 4294967295 }
    requires most { n ≤ 2147483647 }
    ensures created { came_to m.new result ≡
        model.started_port (model.free_port m.old.state) (free_semaphore m.old.state.tables) n m.old.state }
{
    let Some(q) = free_port(m) else {
        return Answer::Returns(SYSERR);
    };
    let Some(send) = m.free_semaphore() else {
        return Answer::Returns(SYSERR);
    };
    let last = last_semaphore(m);
    own_semaphore(m, send, q, n);
    let Some(receive) = m.free_semaphore() else {
        take_back(m, send, last);
        return Answer::Returns(SYSERR);
    };
    own_semaphore(m, receive, q, 0);
    start_port(m, q, n, send, receive);
    Answer::Returns(q.index() as i32)
}

/// Call 32: the port of a word is deleted, its messages dropped (0) or given back as buffers (1), and all who wait on it go on. Refused if
/// it isn't in use, or `how` is neither.
pub fn ptdelete(m: &mut Machine, word: u32, how: u32) -> Result<Answer, NoMemory>
    requires start { IsStart m.old }
    requires sound { IsSoundTables m.old.state.tables }
    requires pools { ArePools m.old.state.tables m.old.state.parts.pools }
    requires numbers { (q : ℕ) → (port_at m.old.state.parts.ports q).seq < 4294967295 }
    ensures ptdelete { IfOk result (λ a. came_to m.new a ≡ model.ptdelete word how m.old.state) }
{
    let Some(head) = head_at(m, word) else {
        return Ok(Answer::Returns(SYSERR));
    };
    if how > 1 {
        return Ok(Answer::Returns(SYSERR));
    }
    let messages = messages_of(m, word)?;
    clear(m, how, &head, &messages)?;
    delete(m, word, &head);
    Ok(Answer::Returns(0))
}

/// Call 33: the port of a word is as it was made, its messages dropped (0) or given back as buffers (1), and all who wait on it go on.
/// Refused as call 32.
pub fn ptreset(m: &mut Machine, word: u32, how: u32) -> Result<Answer, NoMemory>
    requires start { IsStart m.old }
    requires sound { IsSoundTables m.old.state.tables }
    requires pools { ArePools m.old.state.tables m.old.state.parts.pools }
    requires numbers { (q : ℕ) → (port_at m.old.state.parts.ports q).seq < 4294967295 }
    ensures ptreset { IfOk result (λ a. came_to m.new a ≡ model.ptreset word how m.old.state) }
{
    let Some(head) = head_at(m, word) else {
        return Ok(Answer::Returns(SYSERR));
    };
    if how > 1 {
        return Ok(Answer::Returns(SYSERR));
    }
    let messages = messages_of(m, word)?;
    clear(m, how, &head, &messages)?;
    empty(m, word, &head);
    Ok(Answer::Returns(0))
}

/// Call 34: a message for the port of a word; the caller waits for room. Refused if the port isn't in use. If all ports together are full
/// the kernel panics.
pub fn ptsend(m: &mut Machine, word: u32, message: u32) -> Result<Answer, NoMemory>
    requires start { IsStart m.old }
    requires ports { ArePorts m.old.state.tables m.old.state.parts.ports }
    ensures ptsend { IfOk result (λ a. came_to m.new a ≡ model.ptsend word message m.old.state) }
{
    let Some(q) = Port::from_word(word) else {
        return Ok(Answer::Returns(SYSERR));
    };
    let Some(head) = head_at(m, word) else {
        return Ok(Answer::Returns(SYSERR));
    };
    let sem = head.send;
    let ticket = ticket_of(m, q, sem);
    if m.await_token(sem.index() as u32, left_of_send(&ticket, message))? {
        finish_send(m, &ticket, message)
    } else {
        Ok(Answer::Waits)
    }
}

/// The caller goes on with the token that it waited for: its message goes into the port, unless that changed.
pub fn go_on_ptsend(m: &mut Machine, ticket: PortTicket, message: u32) -> Result<Answer, NoMemory>
    requires start { IsStart m.old }
    requires ports { ArePorts m.old.state.tables m.old.state.parts.ports }
    ensures goes_on { IfOk result (λ a. came_to m.new a ≡ model.go_on_ptsend ticket message m.old.state) }
{
    let slot = m.held();
    m.goes_on(slot)?;
    finish_send(m, &ticket, message)
}

/// Call 35: the first message of the port of a word, for which the caller waits. Refused if the port isn't in use.
pub fn ptrecv(m: &mut Machine, word: u32) -> Result<Answer, NoMemory>
    requires start { IsStart m.old }
    requires ports { ArePorts m.old.state.tables m.old.state.parts.ports }
    ensures ptrecv { IfOk result (λ a. came_to m.new a ≡ model.ptrecv word m.old.state) }
{
    let Some(q) = Port::from_word(word) else {
        return Ok(Answer::Returns(SYSERR));
    };
    let Some(head) = head_at(m, word) else {
        return Ok(Answer::Returns(SYSERR));
    };
    let sem = head.receive;
    let ticket = ticket_of(m, q, sem);
    if m.await_token(sem.index() as u32, left_of_receive(&ticket))? {
        finish_receive(m, &ticket)
    } else {
        Ok(Answer::Waits)
    }
}

/// The caller goes on with the token that it waited for: it takes the first message of the port, unless that changed.
pub fn go_on_ptrecv(m: &mut Machine, ticket: PortTicket) -> Result<Answer, NoMemory>
    requires start { IsStart m.old }
    requires ports { ArePorts m.old.state.tables m.old.state.parts.ports }
    ensures goes_on { IfOk result (λ a. came_to m.new a ≡ model.go_on_ptrecv ticket m.old.state) }
{
    let slot = m.held();
    m.goes_on(slot)?;
    finish_receive(m, &ticket)
}

// A sender goes on with its token, unless the port changed since its call began.
fn finish_send(m: &mut Machine, ticket: &PortTicket, message: u32) -> Result<Answer, NoMemory>
    requires start { IsStart m.old }
    requires room { HaveRoom m.old.state.tables m.old.state.parts.ports }
    ensures finished { IfOk result (λ a. came_to m.new a ≡ model.finish_send ticket.now message m.old.state) }
{
    if is_changed(m, ticket) {
        return Ok(Answer::Returns(SYSERR));
    }
    let q = ticket.port.index() as u32;
    match head_at(m, q) {
        None => Ok(Answer::Returns(SYSERR)),
        Some(head) => put_message(m, q, &head, message),
    }
}

// A message goes after those of port `q`, and its receivers are signalled; if all ports together are full the kernel panics.
fn put_message(m: &mut Machine, q: u32, head: &Head, message: u32) -> Result<Answer, NoMemory>
    requires start { IsStart m.old }
    requires used { (port_at m.old.state.parts.ports q).queue ≡
        Some (queue_with head.now (queued (port_at m.old.state.parts.ports q).queue)) }
    requires most { head.now.first_count ≤ 2147483647 }
    requires room { (semaphore_at m.old.state.tables head.now.receive).tokens ≤
        length (queued (port_at m.old.state.parts.ports q).queue) }
    ensures put { IfOk result (λ a. came_to m.new a ≡ model.put_message (port_at m.old.state.parts.ports q).queue q message m.old.state) }
{
    if are_all_full(m) {
        return Ok(Answer::Panics);
    }
    add_message(m, q, head, message)?;
    m.signalled(head.receive.index() as u32)?;
    Ok(Answer::Returns(0))
}

// A receiver goes on with its token, unless the port changed since its call began.
fn finish_receive(m: &mut Machine, ticket: &PortTicket) -> Result<Answer, NoMemory>
    requires start { IsStart m.old }
    requires room { HaveRoom m.old.state.tables m.old.state.parts.ports }
    ensures finished { IfOk result (λ a. came_to m.new a ≡ model.finish_receive ticket.now m.old.state) }
{
    if is_changed(m, ticket) {
        return Ok(Answer::Returns(SYSERR));
    }
    let q = ticket.port.index() as u32;
    match head_at(m, q) {
        None => Ok(Answer::Returns(SYSERR)),
        Some(head) => take_message(m, q, &head),
    }
}

// The first message of port `q` is taken, and the senders are signalled.
fn take_message(m: &mut Machine, q: u32, head: &Head) -> Result<Answer, NoMemory>
    requires start { IsStart m.old }
    requires used { (port_at m.old.state.parts.ports q).queue ≡
        Some (queue_with head.now (queued (port_at m.old.state.parts.ports q).queue)) }
    requires most { head.now.first_count ≤ 2147483647 }
    requires room { (semaphore_at m.old.state.tables head.now.send).tokens +
        length (queued (port_at m.old.state.parts.ports q).queue) ≤ head.now.first_count }
    ensures taken { IfOk result (λ a. came_to m.new a ≡ model.take_from (port_at m.old.state.parts.ports q).queue q m.old.state) }
{
    let mut messages = messages_of(m, q)?;
    let Some(message) = take_first(&mut messages) else {
        return Ok(Answer::Returns(SYSERR));
    };
    set_messages(m, q, head, messages);
    m.signalled(head.send.index() as u32)?;
    Ok(Answer::Returns(message.cast_signed()))
}

// What is left of the call of a sender that waits.
fn left_of_send(ticket: &PortTicket, message: u32) -> Rest
    ensures left { result ≡ Rest.PtSend ticket.now message }
{
    Rest::PtSend(*ticket, message)
}

// What is left of the call of a receiver that waits.
fn left_of_receive(ticket: &PortTicket) -> Rest
    ensures left { result ≡ Rest.PtRecv ticket.now }
{
    Rest::PtRecv(*ticket)
}
