//! The calls on ports, 31 to 35, and what is left of two of them (book, chapter 11, `ptcreate.c`, `ptdelete.c`, `ptreset.c`, `ptsend.c`,
//! `ptrecv.c`).
//!
//! A port has two semaphores: one has a token for each message for which there is room, the other one for each message. A call that waited
//! looks first whether its port is as it was when it began.

ghost use Rattle.std.specs.Prelude.{ℕ, ◌≡◌, ◌≢◌, ◌<◌, IfSome, option_map, Some};
ghost use Rattle.core_calls.specs.ClearedPorts.{CanClear, cleared_queue};
ghost use Rattle.core_calls.specs.PortRoom.{HaveRoom};
ghost use Rattle.kernel_state.specs.Results.{came_to, IsStart};
ghost use Rattle.ports.specs.Table.{head_of};
ghost use Rattle.xinu_model.specs.Ports.Calls as model;
ghost use Rattle.xinu_model.specs.Ports.Queues.{port_at, PortQueue, queued};
ghost use Rattle.xinu_model.specs.Semaphores.Waiting.{emptied};
ghost use Rattle.xinu_model.specs.Sound.Pools.{ArePools};
ghost use Rattle.xinu_model.specs.Sound.Ports.{ArePorts};
ghost use Rattle.xinu_model.specs.Sound.Tables.{IsSoundTables};

use crate::pool_calls::free_buffers;
use kernel_state::{KernelState, owes_after};
use ports::{PortHead, Sent};
use xinu_base::{Next, Owner, Port, PortTicket, Rest, SYSERR};

/// Call 31: a port that can hold `count` messages; its number. Refused if the count is negative, or no port or no two semaphores are
/// free.
pub(crate) fn ptcreate(k: &mut KernelState, count: i32) -> Next
    requires start { IsStart k.old.call }
    requires numbers { (q : ℕ) → (port_at k.old.call.state.parts.ports q).seq < 4294967295 }
    ensures ptcreate { came_to k.new.call result ≡ model.ptcreate count k.old.call.state }
    ensures image { k.new.image ≡ k.old.image }
{
    let Some(q) = k.ports.place_free() else {
        return Next::Returns(SYSERR);
    };
    let Some((send, receive)) = k.tables.make_two_semaphores(&Owner::Port(q), count) else {
        return Next::Returns(SYSERR);
    };
    k.ports.make(q, count, send, receive);
    Next::Returns(q.index() as i32)
}

/// Call 32: the port that a word names is deleted, its messages dropped (0) or given back as buffers (1). All who wait on it go on, the
/// senders first. Refused if the port isn't in use, or `how` is neither.
pub(crate) fn ptdelete(k: &mut KernelState, word: u32, how: u32) -> Next
    requires start { IsStart k.old.call }
    requires sound { IsSoundTables k.old.call.state.tables }
    requires pools { ArePools k.old.call.state.tables k.old.call.state.parts.pools }
    requires ports { ArePorts k.old.call.state.tables k.old.call.state.parts.ports }
    requires numbers { (q : ℕ) → (port_at k.old.call.state.parts.ports q).seq < 4294967295 }
    ensures ptdelete { came_to k.new.call result ≡ model.ptdelete word how k.old.call.state }
    ensures image { k.new.image ≡ k.old.image }
{
    let Some(port) = used_port(k, word, how) else {
        return Next::Returns(SYSERR);
    };
    dispose(k, port.0, how);
    delete_port(k, port.0, &port.1);
    Next::Returns(0)
}

/// Call 33: the port that a word names is as it was made, its messages dropped (0) or given back as buffers (1). All who wait on it go
/// on, the senders first. Refused if the port isn't in use, or `how` is neither.
pub(crate) fn ptreset(k: &mut KernelState, word: u32, how: u32) -> Next
    requires start { IsStart k.old.call }
    requires sound { IsSoundTables k.old.call.state.tables }
    requires pools { ArePools k.old.call.state.tables k.old.call.state.parts.pools }
    requires ports { ArePorts k.old.call.state.tables k.old.call.state.parts.ports }
    requires numbers { (q : ℕ) → (port_at k.old.call.state.parts.ports q).seq < 4294967295 }
    ensures ptreset { came_to k.new.call result ≡ model.ptreset word how k.old.call.state }
    ensures image { k.new.image ≡ k.old.image }
{
    let Some(port) = used_port(k, word, how) else {
        return Next::Returns(SYSERR);
    };
    dispose(k, port.0, how);
    reset_port(k, port.0, &port.1);
    Next::Returns(0)
}

/// Call 34: a message for the port that a word names; the caller waits for room. Refused if the port isn't in use. The kernel panics if
/// all ports together are full.
pub(crate) fn ptsend(k: &mut KernelState, word: u32, message: u32) -> Next
    requires start { IsStart k.old.call }
    requires sound { IsSoundTables k.old.call.state.tables }
    requires ports { ArePorts k.old.call.state.tables k.old.call.state.parts.ports }
    requires not_null { k.old.call.state.tables.current ≢ 0 }
    ensures ptsend { came_to k.new.call result ≡ model.ptsend word message k.old.call.state }
    ensures image { k.new.image ≡ k.old.image }
{
    let Some(q) = Port::from_word(word) else {
        return Next::Returns(SYSERR);
    };
    let Some(ticket) = k.ports.send_ticket(q) else {
        return Next::Returns(SYSERR);
    };
    if k.tables.wait(ticket.sem, left_of_send(&ticket, message)) {
        finish_send(k, ticket, message)
    } else {
        Next::Waits
    }
}

/// What is left of call 34 once the caller was released: its message goes into the port, unless the port changed.
pub(crate) fn go_on_ptsend(k: &mut KernelState, ticket: PortTicket, message: u32) -> Next
    requires start { IsStart k.old.call }
    requires sound { IsSoundTables k.old.call.state.tables }
    requires ports { ArePorts k.old.call.state.tables k.old.call.state.parts.ports }
    ensures goes_on { came_to k.new.call result ≡ model.go_on_ptsend ticket message k.old.call.state }
    ensures image { k.new.image ≡ k.old.image }
{
    k.tables.go_on();
    finish_send(k, ticket, message)
}

/// Call 35: the first message of the port that a word names, for which the caller waits. Refused if the port isn't in use.
pub(crate) fn ptrecv(k: &mut KernelState, word: u32) -> Next
    requires start { IsStart k.old.call }
    requires sound { IsSoundTables k.old.call.state.tables }
    requires ports { ArePorts k.old.call.state.tables k.old.call.state.parts.ports }
    requires not_null { k.old.call.state.tables.current ≢ 0 }
    ensures ptrecv { came_to k.new.call result ≡ model.ptrecv word k.old.call.state }
    ensures image { k.new.image ≡ k.old.image }
{
    let Some(q) = Port::from_word(word) else {
        return Next::Returns(SYSERR);
    };
    let Some(ticket) = k.ports.receive_ticket(q) else {
        return Next::Returns(SYSERR);
    };
    if k.tables.wait(ticket.sem, left_of_receive(&ticket)) {
        finish_receive(k, ticket)
    } else {
        Next::Waits
    }
}

/// What is left of call 35 once the caller was released: it takes the first message of the port, unless the port changed.
pub(crate) fn go_on_ptrecv(k: &mut KernelState, ticket: PortTicket) -> Next
    requires start { IsStart k.old.call }
    requires sound { IsSoundTables k.old.call.state.tables }
    requires ports { ArePorts k.old.call.state.tables k.old.call.state.parts.ports }
    ensures goes_on { came_to k.new.call result ≡ model.go_on_ptrecv ticket k.old.call.state }
    ensures image { k.new.image ≡ k.old.image }
{
    k.tables.go_on();
    finish_receive(k, ticket)
}

// The port that a word names, with its head. `None` if it isn't in use, or `how` says neither that its messages are dropped (0) nor that they
// are given back as buffers (1).
fn used_port(k: &KernelState, word: u32, how: u32) -> Option<(Port, PortHead)>
    requires ports { ArePorts k.now.call.state.tables k.now.call.state.parts.ports }
    ensures head { option_map (λ x. x.1) result ≡ option_map head_of (cleared_queue word how k.now.call.state) }
    ensures named { IfSome result (λ x. x.0 ≡ word) }
{
    let q = Port::from_word(word)?;
    if how > 1 {
        return None;
    }
    let head = k.ports.head_of(q)?;
    Some((q, head))
}

// The messages of port `q` are dropped, or given back as buffers if `how` is 1.
fn dispose(k: &mut KernelState, q: Port, how: u32)
    requires sound { IsSoundTables k.old.call.state.tables }
    requires pools { ArePools k.old.call.state.tables k.old.call.state.parts.pools }
    ensures disposed { k.new.call ≡ model.disposed how (queued (port_at k.old.call.state.parts.ports q).queue) k.old.call }
    ensures image { k.new.image ≡ k.old.image }
{
    if how == 1 {
        let messages = k.ports.messages_of(q);
        free_buffers(k, messages.as_slice());
    }
}

// All who wait on port `q`, which has this head, go on, the senders first, and its semaphores and its number are free.
fn delete_port(k: &mut KernelState, q: Port, head: &PortHead)
    requires clears { CanClear q head.now k.old.call }
    ensures deleted { (queue : PortQueue) → (port_at k.old.call.state.parts.ports q).queue ≡ Some queue →
        k.new.call ≡ model.deleted q queue (emptied queue.receive (emptied queue.send k.old.call)) }
    ensures image { k.new.image ≡ k.old.image }
{
    let senders = k.tables.delete_semaphore(head.send);
    k.owes_resched = owes_after(k.owes_resched, senders.as_slice());
    let receivers = k.tables.delete_semaphore(head.receive);
    k.owes_resched = owes_after(k.owes_resched, receivers.as_slice());
    k.ports.delete(q);
}

// All who wait on port `q`, which has this head, go on, the senders first, and it is as it was made.
fn reset_port(k: &mut KernelState, q: Port, head: &PortHead)
    requires clears { CanClear q head.now k.old.call }
    ensures reset { (queue : PortQueue) → (port_at k.old.call.state.parts.ports q).queue ≡ Some queue →
        k.new.call ≡ model.emptied_port q queue (emptied queue.receive (emptied queue.send k.old.call)) }
    ensures image { k.new.image ≡ k.old.image }
{
    let senders = k.tables.reset_semaphore(head.send, head.first_count);
    k.owes_resched = owes_after(k.owes_resched, senders.as_slice());
    let receivers = k.tables.reset_semaphore(head.receive, 0);
    k.owes_resched = owes_after(k.owes_resched, receivers.as_slice());
    k.ports.reset(q);
}

// Puts a message into the port of a ticket, for a caller that has a token, and signals the receivers.
fn finish_send(k: &mut KernelState, ticket: PortTicket, message: u32) -> Next
    requires start { IsStart k.old.call }
    requires room { HaveRoom k.old.call.state.tables k.old.call.state.parts.ports }
    ensures finished { came_to k.new.call result ≡ model.finish_send ticket message k.old.call.state }
    ensures image { k.new.image ≡ k.old.image }
{
    match k.ports.send(ticket, message) {
        Sent::Stale => Next::Returns(SYSERR),
        Sent::Full => Next::Panics,
        Sent::Put(sem) => {
            k.give_token(sem);
            Next::Returns(0)
        }
    }
}

// Takes the first message of the port of a ticket, for a caller that has a token, and signals the senders.
fn finish_receive(k: &mut KernelState, ticket: PortTicket) -> Next
    requires start { IsStart k.old.call }
    requires room { HaveRoom k.old.call.state.tables k.old.call.state.parts.ports }
    ensures finished { came_to k.new.call result ≡ model.finish_receive ticket k.old.call.state }
    ensures image { k.new.image ≡ k.old.image }
{
    let Some(received) = k.ports.receive(ticket) else {
        return Next::Returns(SYSERR);
    };
    k.give_token(received.send);
    Next::Returns(received.message.cast_signed())
}

// What is left of the call of a sender that waits.
fn left_of_send(ticket: &PortTicket, message: u32) -> Rest
    ensures left { result ≡ Rest.PtSend ticket.now message }
{
    Rest::PtSend(*ticket, message)
}

// What is left of the call of a receiver that waits.
fn left_of_receive(ticket: &PortTicket) -> Rest
    ensures left { result ≡ Rest.PtRecv ticket.now }
{
    Rest::PtRecv(*ticket)
}
