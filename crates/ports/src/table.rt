//! The table of ports: whether each is in use, its semaphores and its messages (book, chapter 11, `ptinit.c`, `ptcreate.c`).
//!
//! It depends on the nodes, in which the messages are.

ghost use Rattle.std.specs.Prelude.{◌≡◌, ◌<◌, ◌≤◌, ◌-◌, ◌≤ℤ◌, ◌↔◌, not, pos, option_map, None, IfOk, IfSome, IsTrue};
ghost use Rattle.std.specs.List.{find};
ghost use Rattle.xinu_model.specs.Ports.Queues.{is_used, nodes, port_at, queued};
ghost use Rattle.xinu_model.specs.Searches.{numbers_from};

use crate::nodes::MessageNodes;
use arrayvec::ArrayVec;
use std::alloc::Global;
use std::marker::Model;
use xinu_base::{NoMemory, Port, Sem};

/// What a port in use has beside its messages.
#[derive(Clone, Copy, PartialEq, Eq)]
pub struct PortHead {
    /// How many messages it can hold; not negative.
    pub first_count: i32,
    /// The semaphore on which senders wait for room.
    pub send: Sem,
    /// The semaphore on which receivers wait for messages.
    pub receive: Sem,
}

/// What is kept of a port beside its messages.
#[derive(Clone, Copy, PartialEq, Eq)]
pub struct PortEntry {
    /// The sequence number, which rises each time the port is made, reset or deleted.
    pub seq: u32,
    /// Its head, if it is in use.
    pub head: Option<PortHead>,
}

/// The ports by number, and the messages that wait in them.
#[derive(Clone)]
pub struct Ports {
    // The entries, by number.
    pub(crate) entries: [PortEntry; 30],
    // The messages of each port.
    pub(crate) nodes: MessageNodes,
    // The port at which the next search begins.
    pub(crate) next: Port,
}

impl Drop for Ports {
    fn drop(self) {
        let Ports {
            entries: _entries,
            nodes: _nodes,
            next: _next,
        } = self;
    }
}

impl Model for Ports {
    ghost use Rattle.ports.specs.Table.{PortTable, IsTable, ports_of};

    ghost Value = { PortTable };

    ghost view = { λ p. record { ports = ports_of p.entries p.nodes; next_port = p.next } };

    ghost invariant = { λ p. IsTable p.entries p.nodes };
}

impl Ports {
    ghost use Rattle.ports.specs.Calls.{free_place};
    ghost use Rattle.ports.specs.Table.{first_table, head_of};

    /// Ports of which none is in use.
    ///
    /// # Errors
    ///
    /// `NoMemory` if there is no memory for the nodes.
    pub fn new(alloc: Global) -> Result<Self, NoMemory>
        ensures starts { IfOk result (λ p. p ≡ first_table) }
    {
        let nodes = MessageNodes::new(alloc)?;
        Ok(Ports {
            entries: [free_entry(); 30],
            nodes,
            next: Port::default(),
        })
    }

    /// Whether another table is equal: its ports have the same heads, sequence numbers and messages, whichever nodes these are in, and the
    /// next search begins at the same number.
    pub fn equals(&self, other: &Self) -> bool
        ensures equal { IsTrue result ↔ (self.now ≡ other.now) }
    {
        self.next == other.next && self.nodes.equals(&other.nodes) && self.entries == other.entries
    }

    /// The number of the port that is made next: the first that isn't in use, from the one after the last that was made, or from
    /// the last that was deleted, and then from 0 on. `None` if and only if all are in use.
    pub fn place_free(&self) -> Option<Port>
        ensures found { result ≡ free_place self.now }
        ensures free { IfSome result (λ q. (port_at self.now.ports q).queue ≡ None) }
    {
        let first = self.first_looked_at();
        match self.free_within(first, 30) {
            Some(q) => Some(q),
            None => self.free_within(0, first),
        }
    }

    /// What `q` has beside its messages. `None` if and only if it isn't in use.
    pub fn head_of(&self, q: Port) -> Option<PortHead>
        ensures head { result ≡ option_map head_of (port_at self.now.ports q).queue }
        ensures counted { IfSome result (λ h. pos 0 ≤ℤ h.first_count) }
    {
        self.entry(q).head
    }

    /// The sequence number of `q`.
    pub fn seq_of(&self, q: Port) -> u32
        ensures seq { result ≡ (port_at self.now.ports q).seq }
    {
        self.entry(q).seq
    }

    /// The messages of `q`, in order; none if it isn't in use.
    pub fn messages_of(&self, q: Port) -> ArrayVec<u32, 100>
        ensures messages { result.items ≡ queued (port_at self.now.ports q).queue }
    {
        self.nodes.messages(q)
    }

    /// How many messages all ports hold.
    pub fn nodes(&self) -> usize
        ensures nodes { result ≡ nodes self.now.ports }
    {
        self.nodes.used()
    }

    // The entry of `q`.
    fn entry(&self, q: Port) -> PortEntry
        ensures seq { result.seq ≡ (port_at self.now.ports q).seq }
        ensures head { result.head ≡ option_map head_of (port_at self.now.ports q).queue }
        ensures counted { IfSome result.head (λ h. pos 0 ≤ℤ h.first_count) }
    {
        self.entries[q.index()]
    }

    // The number at which the search begins.
    fn first_looked_at(&self) -> usize
        ensures first { result ≡ self.now.next_port }
        ensures below { result < 30 }
    {
        self.next.index()
    }

    // The first port that isn't in use from one on, below an end.
    fn free_within(&self, from: usize, end: usize) -> Option<Port>
        requires end_in { end ≤ 30 }
        ensures first { result ≡ find (λ q. not (is_used (port_at self.now.ports q))) (numbers_from from (end - from)) }
    {
        for number in from..end {
            let q = Port::at(number);
            if self.is_free(q) {
                return Some(q);
            }
        }
        None
    }

    // Whether `q` isn't in use.
    fn is_free(&self, q: Port) -> bool
        ensures free { result ≡ not (is_used (port_at self.now.ports q)) }
    {
        self.head_of(q).is_none()
    }
}

// The entry of a port that was never made.
fn free_entry() -> PortEntry
    ensures entry { result ≡ record { seq = 0; head = None } }
{
    PortEntry { seq: 0, head: None }
}
