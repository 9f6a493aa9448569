//! What changes the ports: they are made, reset and deleted, and messages are sent and received (book, chapter 11, `ptcreate.c`,
//! `ptreset.c`, `ptdelete.c`, `ptsend.c`, `ptrecv.c`).
//!
//! It depends on the table. Semaphores and processes are the business of the crates above.

ghost use Rattle.std.specs.Prelude.{◌≡◌, ◌<◌, ◌≤◌, ◌≤ℤ◌, nat_le, option_map, pos, [], IfSome, IsSome};
ghost use Rattle.ports.specs.Nodes.{first_of};
ghost use Rattle.xinu_model.specs.Ports.Calls.{renewed};
ghost use Rattle.xinu_model.specs.Ports.Queues.{most_nodes, nodes, port_at, PortQueue, queued};
ghost use Rattle.xinu_model.specs.Ports.Queues as model;

use crate::table::{PortEntry, PortHead, Ports};
use arrayvec::ArrayVec;
use xinu_base::{Port, PortTicket, Sem};

/// What comes of a message that is sent.
#[derive(Clone, Copy, PartialEq, Eq)]
pub enum Sent {
    /// It is the last of the port; the semaphore is that of the receivers.
    Put(Sem),
    /// All nodes are in use: all ports together have a hundred messages.
    Full,
    /// The port was reset, deleted or made anew since the ticket was taken.
    Stale,
}

/// A message that is received.
#[derive(Clone, Copy, PartialEq, Eq)]
pub struct Received {
    /// The word that was sent.
    pub message: u32,
    /// The semaphore of the senders.
    pub send: Sem,
}

impl Ports {
    ghost use Rattle.ports.specs.Calls.{queue_at_seq, received, sent, ticket_from, ticket_to, with_deleted, with_last, with_made, with_reset, with_rest};
    ghost use Rattle.ports.specs.Table.{head_of, queue_of};

    /// Makes `q`, with room for so many messages and with the next sequence number. The next search begins after it. The count must not be
    /// negative, and the sequence number must be below 4294967295 before.
    pub fn make(&mut self, q: Port, count: i32, send: Sem, receive: Sem)
        requires counted { pos 0 ≤ℤ count }
        requires room { (port_at self.old.ports q).seq < 4294967295 }
        ensures made { self.new ≡ with_made q (record { first_count = count; send = send; receive = receive }) self.old }
    {
        let head = PortHead {
            first_count: count,
            send,
            receive,
        };
        self.renew(q, Some(head));
        self.set_next(Port::at((q.index() + 1) % 30));
    }

    /// Makes `q` as it was made, with no messages and with the next sequence number. The messages that it had are the answer, in order.
    /// What is left of calls that began before is stale. The sequence number must be below 4294967295 before.
    pub fn reset(&mut self, q: Port) -> ArrayVec<u32, 100>
        requires room { (port_at self.old.ports q).seq < 4294967295 }
        ensures messages { result.items ≡ queued (port_at self.old.ports q).queue }
        ensures reset { self.new ≡ with_reset q self.old }
    {
        let head = self.head_of(q);
        self.renew(q, head)
    }

    /// Deletes `q`, which gets the next sequence number. The messages that it had are the answer, in order. The next search begins at `q`.
    /// The sequence number must be below 4294967295 before.
    pub fn delete(&mut self, q: Port) -> ArrayVec<u32, 100>
        requires room { (port_at self.old.ports q).seq < 4294967295 }
        ensures messages { result.items ≡ queued (port_at self.old.ports q).queue }
        ensures deleted { self.new ≡ with_deleted q self.old }
    {
        let messages = self.renew(q, None);
        self.set_next(q);
        messages
    }

    /// What a sender to `q` keeps while it waits for room: the port, its sequence number and the semaphore of the senders. `None` if and
    /// only if `q` isn't in use.
    pub fn send_ticket(&self, q: Port) -> Option<PortTicket>
        ensures ticket { result ≡ ticket_to q (port_at self.now.ports q).seq (port_at self.now.ports q).queue }
    {
        let head = self.head_of(q)?;
        Some(PortTicket {
            port: q,
            seq: self.seq_of(q),
            sem: head.send,
        })
    }

    /// What a receiver from `q` keeps while it waits for a message: the port, its sequence number and the semaphore of the receivers.
    /// `None` if and only if `q` isn't in use.
    pub fn receive_ticket(&self, q: Port) -> Option<PortTicket>
        ensures ticket { result ≡ ticket_from q (port_at self.now.ports q).seq (port_at self.now.ports q).queue }
    {
        let head = self.head_of(q)?;
        Some(PortTicket {
            port: q,
            seq: self.seq_of(q),
            sem: head.receive,
        })
    }

    /// Whether the port of a ticket was reset, deleted or made anew since the ticket was taken: it isn't in use, or has another sequence
    /// number.
    pub fn is_stale(&self, ticket: PortTicket) -> bool
        ensures stale { result ≡ model.is_stale ticket self.now.ports }
    {
        let PortTicket { port, seq, .. } = ticket;
        self.head_at(port, seq).is_none()
    }

    /// Puts a message after those of the port of a ticket. Nothing changes if the ticket is stale, or else if all ports together have a
    /// hundred messages.
    pub fn send(&mut self, ticket: PortTicket, message: u32) -> Sent
        ensures answer { result ≡ (sent ticket message self.old).0 }
        ensures ports { self.new ≡ (sent ticket message self.old).1 }
    {
        let PortTicket { port, seq, .. } = ticket;
        let Some(head) = self.head_at(port, seq) else {
            return Sent::Stale;
        };
        if self.is_full() {
            return Sent::Full;
        }
        self.put(port, message);
        Sent::Put(head.receive)
    }

    /// Takes the first message of the port of a ticket. `None`, and nothing changes, if and only if the ticket is stale or the port
    /// has no messages.
    pub fn receive(&mut self, ticket: PortTicket) -> Option<Received>
        ensures answer { result ≡ (received ticket self.old).0 }
        ensures ports { self.new ≡ (received ticket self.old).1 }
        ensures signed { IfSome result (λ _. (queue : PortQueue) → (port_at self.old.ports ticket.port).queue ≡ Some queue → queue.first_count ≤ 2147483647) }
    {
        let PortTicket { port, seq, .. } = ticket;
        let head = self.head_at(port, seq)?;
        let message = self.take(port)?;
        Some(Received {
            message,
            send: head.send,
        })
    }

    // `q` has this head, the next sequence number and no messages. Those that it had are the answer, in order.
    fn renew(&mut self, q: Port, head: Option<PortHead>) -> ArrayVec<u32, 100>
        requires counted { IfSome head (λ h. pos 0 ≤ℤ h.first_count) }
        requires room { (port_at self.old.ports q).seq < 4294967295 }
        ensures messages { result.items ≡ queued (port_at self.old.ports q).queue }
        ensures renewed { self.new ≡ record self.old { ports = renewed q (option_map (queue_of []) head) self.old.ports } }
    {
        let seq = self.entries[q.index()].seq + 1;
        self.entries[q.index()] = PortEntry { seq, head };
        self.nodes.clear(q)
    }

    // The next search begins at `q`.
    fn set_next(&mut self, q: Port)
        ensures next { self.new ≡ record self.old { next_port = q } }
    {
        self.next = q;
    }

    // What `q` has beside its messages, if it is in use and has this sequence number.
    fn head_at(&self, q: Port, seq: u32) -> Option<PortHead>
        ensures head { result ≡ option_map head_of (queue_at_seq q seq self.now.ports) }
    {
        if self.seq_of(q) == seq {
            self.head_of(q)
        } else {
            None
        }
    }

    // Whether all nodes are in use.
    fn is_full(&self) -> bool
        ensures full { result ≡ nat_le most_nodes (nodes self.now.ports) }
    {
        self.nodes() >= 100
    }

    // Puts a message after those of `q`, which is in use.
    fn put(&mut self, q: Port, message: u32)
        requires room { nodes self.old.ports < 100 }
        requires used { IsSome (port_at self.old.ports q).queue }
        ensures put { self.new ≡ with_last (port_at self.old.ports q).queue q message self.old }
    {
        self.nodes.put(q, message);
    }

    // Takes the first message of `q`.
    fn take(&mut self, q: Port) -> Option<u32>
        ensures first { result ≡ first_of (queued (port_at self.old.ports q).queue) }
        ensures rest { self.new ≡ with_rest (port_at self.old.ports q).queue q self.old }
    {
        self.nodes.take(q)
    }
}
