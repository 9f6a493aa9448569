//! The calls that put a process into a list and take it out, and keep every other key.
//!
//! They depend on the table and on the writes of `links`. Each leaves the entries linked.

ghost use Rattle.std.specs.Prelude.{◌≡◌, ◌<◌, ◌++◌, ◌∷◌, [], pos, IfSome, IsSome, None};
ghost use Rattle.xinu_base.specs.Insert.{ready_insert};
ghost use Rattle.queue_table.specs.Entries.{Linked, tail_of};
ghost use Rattle.queue_table.specs.Writes.{taken_out};
ghost use Rattle.queue_table.specs.Walks.{GoesBefore};

use crate::QueueTable;
use crate::links::{link_between, unlink};

impl<const P: usize, const Q: usize> QueueTable<P, Q> {
    ghost use Rattle.queue_table.specs.Table.{lists};
    ghost use Rattle.queue_table.specs.Lists.{list_at, with_list, place, first_process, rest_of, all_without, IsByKey};

    /// Puts `p`, which is in no list, last into queue `q`, with key 0.
    pub fn enqueue(&mut self, p: usize, q: usize)
        requires p_in { p < P }
        requires q_in { q < Q }
        requires absent { place (lists self.old) p ≡ None }
        ensures lists { lists self.new ≡ with_list (lists self.old) q (list_at (lists self.old) q ++ (p, pos 0) ∷ []) }
        ensures linked { Linked P Q self.new.entries.items (lists self.new) }
    {
        let tail = P + 2 * q + 1;
        let last = self.links(tail).prev;
        link_between(&mut self.entries, p, last, tail, 0);
    }

    /// Puts `p`, which is in no list, into queue `q`, which is kept by key, after all keys that are not less.
    pub fn insert(&mut self, p: usize, q: usize, key: i32)
        requires p_in { p < P }
        requires q_in { q < Q }
        requires absent { place (lists self.old) p ≡ None }
        requires by_key { IsByKey (list_at (lists self.old) q) }
        ensures lists { lists self.new ≡ with_list (lists self.old) q (ready_insert p key (list_at (lists self.old) q)) }
        ensures linked { Linked P Q self.new.entries.items (lists self.new) }
    {
        let after = self.first_below(q, key);
        let before = self.links(after).prev;
        link_between(&mut self.entries, p, before, after, key);
    }

    /// Takes the first process out of queue `q`. `None` if and only if the list is empty.
    pub fn dequeue(&mut self, q: usize) -> Option<usize>
        requires q_in { q < Q }
        ensures first { result ≡ first_process (list_at (lists self.old) q) }
        ensures below { IfSome result (λ p. p < P) }
        ensures lists { lists self.new ≡ with_list (lists self.old) q (rest_of (list_at (lists self.old) q)) }
        ensures linked { Linked P Q self.new.entries.items (lists self.new) }
    {
        let first = self.links(P + 2 * q).next;
        if first < P {
            unlink(&mut self.entries, first);
            Some(first)
        } else {
            None
        }
    }

    /// Takes `p`, which is in a list, out of it, without a search: its entry and its two neighbours' change, and no other.
    pub fn remove(&mut self, p: usize)
        requires p_in { p < P }
        requires present { IsSome (place (lists self.old) p) }
        ensures lists { lists self.new ≡ all_without p (lists self.old) }
        ensures neighbours { self.new.entries.items ≡ taken_out self.old.entries.items p }
        ensures linked { Linked P Q self.new.entries.items (lists self.new) }
    {
        unlink(&mut self.entries, p);
    }

    // The first entry of queue q whose key is less, or its tail, which is no process: its key is not less than the least.
    fn first_below(&self, q: usize, key: i32) -> usize
        requires q_in { q < Q }
        requires by_key { IsByKey (list_at (lists self.now) q) }
        ensures place { GoesBefore (list_at (lists self.now) q) key (tail_of P q) result }
    {
        let mut at = self.links(P + 2 * q).next;
        while at < P && self.links(at).key >= key {
            at = self.links(at).next;
        }
        at
    }
}
