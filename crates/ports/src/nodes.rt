//! The nodes in which the messages of all ports lie: a hundred, each in the list of a port or in that of the free ones.
//!
//! It depends on nothing else of the crate. The lists are those of a table of queues, whose processes are the nodes here.

ghost use Rattle.std.specs.Prelude.{◌≡◌, ◌<◌, ◌≤◌, ◌++◌, ◌∷◌, ◌↔◌, [], drop, replicate, length, IfOk, IsTrue};
ghost use Rattle.ports.specs.Nodes.{contents, first_of, queue_at, total, with_queue};
ghost use Rattle.queue_table.specs.Lists.{list_at};
ghost use Rattle.queue_table.specs.Table.{lists};

use arrayvec::ArrayVec;
use queue_table::QueueTable;
use std::alloc::Global;
use std::marker::Model;
use xinu_base::{NoMemory, Port};

// The queue of the free nodes. The messages of port q are in queue q + 1.
const FREE: usize = 0;

/// The messages of each port.
#[derive(Clone, Drop)]
pub struct MessageNodes {
    // The lists of the nodes.
    links: QueueTable<100, 31>,
    // The message of each node.
    words: [u32; 100],
    // How many nodes have a message.
    used: usize,
}

impl Model for MessageNodes {
    ghost use Rattle.std.specs.Prelude.{ℕ, List};
    ghost use Rattle.ports.specs.Nodes.{AreNodes, queues};
    ghost use Rattle.queue_table.specs.Table.{lists};

    ghost Value = { List (List ℕ) };

    ghost view = { λ n. queues n.words (lists n.links) };

    ghost invariant = { λ n. AreNodes n.words (lists n.links) n.used };
}

impl MessageNodes {
    /// A hundred nodes, all free.
    ///
    /// # Errors
    ///
    /// `NoMemory` if there is no memory for the lists.
    pub fn new(alloc: Global) -> Result<Self, NoMemory>
        ensures starts { IfOk result (λ n. n ≡ replicate 30 []) }
    {
        let mut links = QueueTable::<100, 31>::new(alloc)?;
        free_all(&mut links);
        Ok(MessageNodes {
            links,
            words: [0; 100],
            used: 0,
        })
    }

    /// Whether each port has the same messages in other nodes, whichever nodes they are in.
    pub fn equals(&self, other: &Self) -> bool
        ensures equal { IsTrue result ↔ (self.now ≡ other.now) }
    {
        if self.used != other.used {
            return false;
        }
        for q in 0..30 {
            if !self.has_same_messages(other, Port::at(q)) {
                return false;
            }
        }
        true
    }

    // Whether a port has the same messages in other nodes.
    fn has_same_messages(&self, other: &Self, port: Port) -> bool
        ensures same { IsTrue result ↔ (queue_at self.now port ≡ queue_at other.now port) }
    {
        self.messages(port).as_slice() == other.messages(port).as_slice()
    }

    /// How many nodes have a message.
    pub fn used(&self) -> usize
        ensures used { result ≡ total self.now }
    {
        self.used
    }

    /// Puts a message after those of `port`. A node is free.
    pub fn put(&mut self, port: Port, message: u32)
        requires room { total self.old < 100 }
        ensures put { self.new ≡ with_queue port (queue_at self.old port ++ message ∷ []) self.old }
    {
        if let Some(node) = self.links.dequeue(FREE) {
            self.words[node] = message;
            self.links.enqueue(node, port.index() + 1);
            self.used += 1;
        }
    }

    /// Takes the first message of `port`. `None` if and only if it has none.
    pub fn take(&mut self, port: Port) -> Option<u32>
        ensures first { result ≡ first_of (queue_at self.old port) }
        ensures rest { self.new ≡ with_queue port (drop 1 (queue_at self.old port)) self.old }
    {
        let node = self.links.dequeue(port.index() + 1)?;
        self.links.enqueue(node, FREE);
        self.used -= 1;
        Some(self.words[node])
    }

    /// Takes out all messages of `port`, which are the answer, in order.
    pub fn clear(&mut self, port: Port) -> ArrayVec<u32, 100>
        ensures all { result.items ≡ queue_at self.old port }
        ensures empty { self.new ≡ with_queue port [] self.old }
    {
        let messages = self.messages(port);
        while self.take(port).is_some() {}
        messages
    }

    /// The messages of `port`, in order.
    pub fn messages(&self, port: Port) -> ArrayVec<u32, 100>
        ensures all { result.items ≡ queue_at self.now port }
    {
        words_of(&self.links, &self.words, port.index() + 1)
    }
}

// The words of the nodes of a queue, in order.
fn words_of(links: &QueueTable<100, 31>, words: &[u32; 100], queue: usize) -> ArrayVec<u32, 100>
    requires queue { queue < 31 }
    requires few { length (list_at (lists links.now) queue) ≤ 100 }
    ensures all { result.items ≡ contents words.now (list_at (lists links.now) queue) }
{
    let mut found = ArrayVec::new();
    let mut next = links.first(queue);
    while let Some(node) = next {
        found.push(words[node]);
        next = links.next_after(node);
    }
    found
}

// Puts all nodes into the list of the free ones.
fn free_all(links: &mut QueueTable<100, 31>)
    requires empty { lists links.old ≡ replicate 31 [] }
    ensures free { length (list_at (lists links.new) 0) ≡ 100 }
    ensures ports { drop 1 (lists links.new) ≡ replicate 30 [] }
{
    for node in 0..100 {
        links.enqueue(node, FREE);
    }
}
