//! The calls on a delta list, in which a key is the difference of a delay to the delay ahead of it (book, chapter 13).
//!
//! They depend on the table and on the writes of `links`. Each leaves the entries linked.

ghost use Rattle.std.specs.Prelude.{◌≡◌, ◌<◌, ◌≤ℤ◌, pos, IsSome, IsSomeAnd, None};
ghost use Rattle.queue_table.specs.Entries.{Linked, next_at, key_at, tail_of};
ghost use Rattle.queue_table.specs.Writes.{taken_out, shifted};
ghost use Rattle.queue_table.specs.Walks.{GoesAtDelay};

use crate::QueueTable;
use crate::links::{Links, link_between, shift_key, unlink};

impl<const P: usize, const Q: usize> QueueTable<P, Q> {
    ghost use Rattle.queue_table.specs.Table.{lists};
    ghost use Rattle.queue_table.specs.Lists.{list_at, list_of, with_list, place, first_key_of, IsDelta, delta_insert, delta_sooner, all_delta_without};

    /// Puts `p`, which is in no list, into the list of queue `q`, a delta list, after all whose delay is not greater; the other
    /// delays stay. The delay is at least 1, in ticks from now.
    pub fn insert_delta(&mut self, p: usize, q: usize, delay: i32)
        requires p_in { p < P }
        requires q_in { q < Q }
        requires absent { place (lists self.old) p ≡ None }
        requires delta { IsDelta (list_at (lists self.old) q) }
        requires later { pos 1 ≤ℤ delay }
        ensures lists { lists self.new ≡ with_list (lists self.old) q (delta_insert p delay (list_at (lists self.old) q)) }
        ensures linked { Linked P Q self.new.entries.items (lists self.new) }
    {
        let (after, left) = self.first_later(q, delay);
        let before = self.links(after).prev;
        shift_key(&mut self.entries, after, -left, P);
        link_between(&mut self.entries, p, before, after, left);
    }

    /// Takes `p` out of its list, a delta list, without a search; the other delays stay. Its entry and its two neighbours'
    /// change, the one after it by the key of `p` too, and no other.
    pub fn remove_delta(&mut self, p: usize)
        requires p_in { p < P }
        requires present { IsSome (place (lists self.old) p) }
        requires delta { IsDelta (list_of (lists self.old) p) }
        ensures lists { lists self.new ≡ all_delta_without p (lists self.old) }
        ensures neighbours { self.new.entries.items ≡ taken_out (shifted self.old.entries.items (next_at self.old.entries.items p) (key_at self.old.entries.items p) P) p }
        ensures linked { Linked P Q self.new.entries.items (lists self.new) }
    {
        let Links { next, key, .. } = self.links(p);
        shift_key(&mut self.entries, next, key, P);
        unlink(&mut self.entries, p);
    }

    /// Lowers all delays of queue `q` by 1. The list isn't empty, and its first key is at least 1.
    pub fn lower_first(&mut self, q: usize)
        requires q_in { q < Q }
        requires due { IsSomeAnd (first_key_of (list_at (lists self.old) q)) (λ k. pos 1 ≤ℤ k) }
        ensures lists { lists self.new ≡ with_list (lists self.old) q (delta_sooner (list_at (lists self.old) q)) }
        ensures linked { Linked P Q self.new.entries.items (lists self.new) }
    {
        let first = self.links(P + 2 * q).next;
        shift_key(&mut self.entries, first, -1, P);
    }

    // The first entry of queue q whose delay is greater, or its tail, and what is left of the delay there.
    fn first_later(&self, q: usize, delay: i32) -> (usize, i32)
        requires q_in { q < Q }
        requires delta { IsDelta (list_at (lists self.now) q) }
        requires later { pos 0 ≤ℤ delay }
        ensures place { GoesAtDelay (list_at (lists self.now) q) delay (tail_of P q) result.0 result.1 }
    {
        let mut at = self.links(P + 2 * q).next;
        let mut left = delay;
        while at < P && self.links(at).key <= left {
            left -= self.links(at).key;
            at = self.links(at).next;
        }
        (at, left)
    }
}
