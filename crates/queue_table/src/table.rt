//! The table, a new one, and what is read of it.
//!
//! It depends on the entries of `links`. It keeps true, as a ghost fact, that the entries are linked.

ghost use Rattle.std.specs.Prelude.{◌≡◌, ◌<◌, ◌+◌, ◌*◌, ◌≤◌, ◌++◌, ◌∷◌, [], IfOk, OnOk, IfSome, IsSome, IsTrue, ◌↔◌, replicate, slice_index_or};
ghost use Rattle.queue_table.specs.Entries.{lists_of, Chained, Linked, blank};

use crate::links::Links;
use std::alloc::{AllocError, Global};
use xinu_base::NoMemory;

/// Q lists of processes below P, in one array of P + 2Q entries.
///
/// A process is the entry of its own number. The entries from P on bound the lists: P + 2q is the head of queue q, with
/// key 2147483647 and nothing ahead of it, and P + 2q + 1 its tail, with key -2147483648 and nothing after it. If
/// there is nothing, an entry names itself; so does a process that is in no list, both ways.
///
/// A clone has the same lists.
#[derive(Drop)]
pub struct QueueTable<const P: usize, const Q: usize> {
    /// The entries.
    pub entries: Vec<Links>,
    ghost linked: { ∥ Chained P Q entries.items (lists_of P Q entries.items) ∥₁ },
}

impl<const P: usize, const Q: usize> QueueTable<P, Q> {
    ghost use Rattle.queue_table.specs.Table.{lists};
    ghost use Rattle.queue_table.specs.Lists.{list_at, list_of, place, first_process, first_key_of, after_in, key_in};

    /// A table of empty lists, for P and Q with P + 2Q at most 65535. This call and `clone` alone take memory.
    ///
    /// # Errors
    ///
    /// `NoMemory` if there is no memory for the entries.
    pub fn new(alloc: Global) -> Result<Self, NoMemory>
        requires size { P + 2 * Q ≤ 65535 }
        ensures empty { IfOk result (λ t. lists t ≡ replicate Q []) }
        ensures linked { IfOk result (λ t. Linked P Q t.entries.items (lists t)) }
    {
        let mut entries = Vec::new(alloc);
        for p in 0..P {
            push(&mut entries, p, p, 0)?;
        }
        for q in 0..Q {
            let head = P + 2 * q;
            let tail = head + 1;
            push(&mut entries, tail, head, i32::MAX)?;
            push(&mut entries, tail, head, i32::MIN)?;
        }
        Ok(QueueTable { entries })
    }

    /// Entry `i` of the array, which has P + 2Q entries.
    pub fn links(&self, i: usize) -> Links
        requires i_in { i < P + 2 * Q }
        ensures entry { result ≡ slice_index_or self.now.entries.items i blank }
    {
        self.entries[i]
    }

    /// The first process of queue `q`. `None` if and only if its list is empty.
    pub fn first(&self, q: usize) -> Option<usize>
        requires q_in { q < Q }
        ensures first { result ≡ first_process (list_at (lists self.now) q) }
        ensures below { IfSome result (λ p. p < P) }
    {
        let first = self.links(P + 2 * q).next;
        if first < P { Some(first) } else { None }
    }

    /// The key of the first process of queue `q`. `None` if and only if its list is empty.
    pub fn first_key(&self, q: usize) -> Option<i32>
        requires q_in { q < Q }
        ensures key { result ≡ first_key_of (list_at (lists self.now) q) }
    {
        let first = self.links(P + 2 * q).next;
        if first < P {
            Some(self.links(first).key)
        } else {
            None
        }
    }

    /// Whether the list of queue `q` is empty.
    pub fn is_empty(&self, q: usize) -> bool
        requires q_in { q < Q }
        ensures empty { IsTrue result ↔ (list_at (lists self.now) q ≡ []) }
    {
        self.links(P + 2 * q).next >= P
    }

    /// The queue in whose list `p` is. `None` if and only if it is in none.
    ///
    /// An entry doesn't hold its queue: the walk goes on to the tail, which does.
    pub fn place_of(&self, p: usize) -> Option<usize>
        requires p_in { p < P }
        ensures place { result ≡ place (lists self.now) p }
        ensures below { IfSome result (λ q. q < Q) }
    {
        if self.links(p).next == p {
            return None;
        }
        let mut at = p;
        while at < P {
            at = self.links(at).next;
        }
        Some((at - P) / 2)
    }

    /// The process after `p`, which is in a list, in that list. `None` if and only if `p` is the last.
    pub fn next_after(&self, p: usize) -> Option<usize>
        requires p_in { p < P }
        requires present { IsSome (place (lists self.now) p) }
        ensures next { result ≡ after_in p (list_of (lists self.now) p) }
        ensures below { IfSome result (λ n. n < P) }
    {
        let next = self.links(p).next;
        if next < P { Some(next) } else { None }
    }

    /// The key of `p`, which is in a list, in that list.
    pub fn key_of(&self, p: usize) -> i32
        requires p_in { p < P }
        requires present { IsSome (place (lists self.now) p) }
        ensures key { result ≡ key_in p (list_of (lists self.now) p) }
    {
        self.links(p).key
    }
}

impl<const P: usize, const Q: usize> Clone for QueueTable<P, Q> {
    ghost use Rattle.queue_table.specs.Table.{lists};

    ghost is_clone = { λ v w. lists w ≡ lists v };

    #[tactic(auto, unfolding(crate::specs::Table::lists))]
    fn clone(&self) -> Result<Self, AllocError> {
        let entries = Vec::from_slice(*self.entries.allocator(), &self.entries)?;
        Ok(Self { entries })
    }
}

// Adds an entry to the array.
fn push(entries: &mut Vec<Links>, next: usize, prev: usize, key: i32) -> Result<(), NoMemory>
    ensures pushed { OnOk result (entries.new.items ≡ entries.old.items ++ (record { next = next; prev = prev; key = key }) ∷ []) }
{
    match entries.push(Links { next, prev, key }) {
        Ok(()) => Ok(()),
        Err(_) => Err(NoMemory),
    }
}
