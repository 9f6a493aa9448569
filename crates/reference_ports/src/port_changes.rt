//! What changes the ports: one is made, deleted, emptied, or has other messages (book, chapter 11).

ghost use Rattle.std.specs.Prelude.{◌≡◌, ◌≤◌, ◌<◌, ◌+◌, ◌-◌, ◌%◌, ◌++◌, ◌∷◌, [], IfOk, IfSome, MatchOption, Some, None, not, nat_le, slice_set};
ghost use Rattle.std.specs.List.{find};
ghost use Rattle.reference_ports.specs.Heads.{queue_with};
ghost use Rattle.xinu_base.specs.declared.semaphores.Owner.TheVariants as owner;
ghost use Rattle.xinu_model.specs.Machine.{with_tables};
ghost use Rattle.xinu_model.specs.Ports.Calls as model;
ghost use Rattle.xinu_model.specs.Ports.Queues.{is_used, most_nodes, nodes, port_at, queued};
ghost use Rattle.xinu_model.specs.Ports.Queues as queues;
ghost use Rattle.xinu_model.specs.Searches.{numbers_from};
ghost use Rattle.xinu_model.specs.Semaphores.Counts.{make_semaphore, with_semaphore};
ghost use Rattle.xinu_model.specs.Sound.Pools.{ArePools};
ghost use Rattle.xinu_model.specs.Sound.Tables.{IsSoundTables};
ghost use Rattle.xinu_model.specs.Tables.{no_semaphore};

use crate::pools::free_buffers;
use crate::queues::{Head, add_messages, are_full, head_of, is_stale};
use reference_state::{Machine, MessagePort, PortQueue};
use reference_tables::{push, set};
use xinu_base::{NoMemory, Owner, Port, PortTicket, Sem};

/// What port `q` has beside its messages. `None` if and only if it isn't in use.
pub(crate) fn head_at(m: &Machine, q: u32) -> Option<Head>
    ensures head { MatchOption result ((port_at m.now.state.parts.ports q).queue ≡ None)
        (λ h. (port_at m.now.state.parts.ports q).queue ≡ Some (queue_with h (queued (port_at m.now.state.parts.ports q).queue))) }
    ensures most { IfSome result (λ h. h.first_count ≤ 2147483647) }
{
    match m.ports.get(q as usize) {
        None => None,
        Some(port) => head_of(port),
    }
}

/// The messages of port `q`, in order.
pub(crate) fn messages_of(m: &Machine, q: u32) -> Result<Vec<u32>, NoMemory>
    ensures messages { IfOk result (λ l. l.items ≡ queued (port_at m.now.state.parts.ports q).queue) }
{
    let mut messages = Vec::new(*m.ports.allocator());
    if let Some(port) = m.ports.get(q as usize) {
        add_messages(&mut messages, port)?;
    }
    Ok(messages)
}

/// Whether all ports together are full.
pub(crate) fn are_all_full(m: &Machine) -> bool
    ensures full { result ≡ nat_le most_nodes (nodes m.now.state.parts.ports) }
{
    are_full(&m.ports)
}

/// Whether the port of a call was reset, deleted or made anew since the call began.
pub(crate) fn is_changed(m: &Machine, ticket: &PortTicket) -> bool
    ensures changed { result ≡ queues.is_stale ticket.now m.now.state.parts.ports }
{
    is_stale(ticket, &m.ports)
}

/// What a call keeps of port `q`, on whose semaphore it waits.
pub(crate) fn ticket_of(m: &Machine, q: Port, sem: Sem) -> PortTicket
    ensures ticket { result ≡ model.ticket_of q sem m.now.state }
{
    PortTicket {
        port: q,
        seq: seq_of(m, q.index() as u32),
        sem,
    }
}

/// The free port that the next `ptcreate` gets.
pub(crate) fn free_port(m: &Machine) -> Option<Port>
    ensures found { result ≡ model.free_port m.now.state }
{
    let first = m.next_port as usize;
    match port_from(m, first, 30) {
        Some(q) => Some(q),
        None => port_from(m, 0, first.min(30)),
    }
}

// The first port that isn't in use from a number on, below an end.
fn port_from(m: &Machine, from: usize, end: usize) -> Option<Port>
    requires within { end ≤ 30 }
    ensures first { result ≡ find (λ q. not (is_used (port_at m.now.state.parts.ports q))) (numbers_from from (end - from)) }
{
    for number in from..end {
        if is_unused(m, number as u32) {
            return Port::from_word(number as u32);
        }
    }
    None
}

// Whether port `q` isn't in use.
fn is_unused(m: &Machine, q: u32) -> bool
    ensures unused { result ≡ not (is_used (port_at m.now.state.parts.ports q)) }
{
    head_at(m, q).is_none()
}

/// The semaphore number that was given last.
pub(crate) fn last_semaphore(m: &Machine) -> Sem
    ensures last { result ≡ m.now.state.tables.last_semaphore }
{
    m.tables.last_semaphore
}

/// Port `q` has a semaphore, with n tokens.
pub(crate) fn own_semaphore(m: &mut Machine, sem: Sem, q: Port, n: u32)
    requires most { n ≤ 2147483647 }
    ensures made { m.new ≡ with_tables (make_semaphore sem (owner.Port q) n m.old.state.tables) m.old }
{
    m.tables.make_semaphore(sem, Owner::Port(q), n);
}

/// A semaphore isn't made after all: it is free, and the number given last is as before.
pub(crate) fn take_back(m: &mut Machine, sem: Sem, last: Sem)
    ensures back { m.new ≡
        with_tables (record (with_semaphore sem no_semaphore m.old.state.tables) { last_semaphore = last }) m.old }
{
    m.tables.free_semaphore_at(sem.index() as u32);
    m.tables.last_semaphore = last;
}

/// Port `q` is in use, with these semaphores, and the next search begins after it.
pub(crate) fn start_port(m: &mut Machine, q: Port, n: u32, send: Sem, receive: Sem)
    requires numbers { (port_at m.old.state.parts.ports q).seq < 4294967295 }
    requires most { n ≤ 2147483647 }
    ensures started { m.new ≡ record m.old {
      state = record m.old.state {
        parts = record m.old.state.parts {
          ports = model.renewed q (Some (record { first_count = n; send = send; receive = receive; messages = [] })) m.old.state.parts.ports;
          next_port = (q + 1) % 30;
        };
      };
    } }
{
    let head = Head {
        first_count: n,
        send,
        receive,
    };
    let queue = empty_queue(m, &head);
    renew(m, q.index() as u32, Some(queue));
    set_next(m, (q.index() as u32 + 1) % 30);
}

/// The messages of a port are dropped, or given back as buffers, and all who wait on it go on, the senders first.
pub(crate) fn clear(
    m: &mut Machine,
    how: u32,
    head: &Head,
    messages: &[u32],
) -> Result<(), NoMemory>
    requires sound { IsSoundTables m.old.state.tables }
    requires pools { ArePools m.old.state.tables m.old.state.parts.pools }
    ensures cleared { IfOk result (λ _. m.new ≡ model.cleared how (queue_with head.now messages.now) m.old) }
    ensures ports { IfOk result (λ _. m.new.state.parts.ports ≡ m.old.state.parts.ports) }
{
    dispose(m, how, messages)?;
    m.emptied_with(0, head.send.index() as u32)?;
    m.emptied_with(0, head.receive.index() as u32)?;
    Ok(())
}

// The messages of a port are dropped, or given back as buffers.
fn dispose(m: &mut Machine, how: u32, messages: &[u32]) -> Result<(), NoMemory>
    requires sound { IsSoundTables m.old.state.tables }
    requires pools { ArePools m.old.state.tables m.old.state.parts.pools }
    ensures disposed { IfOk result (λ _. m.new ≡ model.disposed how messages.now m.old) }
{
    if how == 1 {
        free_buffers(m, messages)?;
    }
    Ok(())
}

/// Port `q` is deleted: its semaphores and its number are free.
pub(crate) fn delete(m: &mut Machine, q: u32, head: &Head)
    requires numbers { (port_at m.old.state.parts.ports q).seq < 4294967295 }
    ensures deleted { m.new ≡ model.deleted q (queue_with head.now []) m.old }
{
    free_semaphore(m, head.send);
    free_semaphore(m, head.receive);
    renew(m, q, None);
    set_next(m, q);
}

/// Port `q` is as it was made: its room is whole, and it holds no messages.
pub(crate) fn empty(m: &mut Machine, q: u32, head: &Head)
    requires numbers { (port_at m.old.state.parts.ports q).seq < 4294967295 }
    requires most { head.now.first_count ≤ 2147483647 }
    ensures emptied { m.new ≡ model.emptied_port q (queue_with head.now []) m.old }
{
    m.set_tokens(head.send.index() as u32, head.first_count);
    m.set_tokens(head.receive.index() as u32, 0);
    let queue = empty_queue(m, head);
    renew(m, q, Some(queue));
}

/// A message goes after those of port `q`, which has this head.
pub(crate) fn add_message(
    m: &mut Machine,
    q: u32,
    head: &Head,
    message: u32,
) -> Result<(), NoMemory>
    requires most { head.now.first_count ≤ 2147483647 }
    ensures added { IfOk result (λ _. m.new ≡
        model.with_messages q (queue_with head.now []) (queued (port_at m.old.state.parts.ports q).queue ++ message ∷ []) m.old) }
{
    let mut messages = messages_of(m, q)?;
    push(&mut messages, message)?;
    set_messages(m, q, head, messages);
    Ok(())
}

/// Port `q`, which has this head, has these messages.
pub(crate) fn set_messages(m: &mut Machine, q: u32, head: &Head, messages: Vec<u32>)
    requires most { head.now.first_count ≤ 2147483647 }
    ensures messages { m.new ≡ model.with_messages q (queue_with head.now []) messages.items m.old }
{
    let seq = seq_of(m, q);
    let queue = queue_of(head, messages);
    put_port(m, q, seq, Some(queue));
}

// A semaphore is given up.
fn free_semaphore(m: &mut Machine, sem: Sem)
    ensures freed { m.new ≡ with_tables (with_semaphore sem no_semaphore m.old.state.tables) m.old }
{
    m.tables.free_semaphore_at(sem.index() as u32);
}

// A queue with this head, and no messages.
fn empty_queue(m: &Machine, head: &Head) -> PortQueue
    requires most { head.now.first_count ≤ 2147483647 }
    ensures queue { result ≡ queue_with head.now [] }
{
    queue_of(head, Vec::new(*m.ports.allocator()))
}

// A queue with this head and these messages.
fn queue_of(head: &Head, messages: Vec<u32>) -> PortQueue
    requires most { head.now.first_count ≤ 2147483647 }
    ensures queue { result ≡ queue_with head.now messages.items }
{
    PortQueue {
        first_count: head.first_count,
        send: head.send,
        receive: head.receive,
        messages,
    }
}

// The number of port `q`.
fn seq_of(m: &Machine, q: u32) -> u32
    ensures seq { result ≡ (port_at m.now.state.parts.ports q).seq }
{
    match m.ports.get(q as usize) {
        None => 0,
        Some(port) => port.seq,
    }
}

// Port `q` has this queue, or none, from now on, and the next number.
fn renew(m: &mut Machine, q: u32, queue: Option<PortQueue>)
    requires numbers { (port_at m.old.state.parts.ports q).seq < 4294967295 }
    ensures renewed { m.new ≡ record m.old {
      state = record m.old.state {
        parts = record m.old.state.parts {
          ports = model.renewed q queue m.old.state.parts.ports;
        };
      };
    } }
{
    let seq = seq_of(m, q) + 1;
    put_port(m, q, seq, queue);
}

// Port `q` has this number, and this queue or none.
fn put_port(m: &mut Machine, q: u32, seq: u32, queue: Option<PortQueue>)
    ensures port { m.new ≡ record m.old {
      state = record m.old.state {
        parts = record m.old.state.parts {
          ports = slice_set m.old.state.parts.ports q (record { seq = seq; queue = queue });
        };
      };
    } }
{
    set(&mut m.ports, q as usize, MessagePort { seq, queue });
}

// The next search begins at a port.
fn set_next(m: &mut Machine, q: u32)
    ensures next { m.new ≡ record m.old { state = record m.old.state { parts = record m.old.state.parts { next_port = q } } } }
{
    m.next_port = q;
}
