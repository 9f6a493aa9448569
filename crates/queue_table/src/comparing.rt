//! Whether the list of a queue is the same in two tables.
//!
//! It depends on the table. Only what is in a list is compared: an entry in no list keeps the key that it had in its last one.

ghost use Rattle.std.specs.Prelude.{◌≡◌, ◌<◌, ◌↔◌, IsTrue};

use crate::QueueTable;

impl<const P: usize, const Q: usize> QueueTable<P, Q> {
    ghost use Rattle.queue_table.specs.Table.{lists};
    ghost use Rattle.queue_table.specs.Lists.{compared, list_at, numbers};

    /// Whether the list of queue `q` has the same processes with the same keys in another table.
    pub fn has_same_list(&self, other: &Self, q: usize) -> bool
        requires q_in { q < Q }
        ensures same { IsTrue result ↔ (list_at (lists self.now) q ≡ list_at (lists other.now) q) }
    {
        self.agrees(other, q, true)
    }

    /// Whether the list of queue `q` has the same processes in another table, whatever their keys are.
    pub fn has_same_processes(&self, other: &Self, q: usize) -> bool
        requires q_in { q < Q }
        ensures same { IsTrue result ↔ (numbers (list_at (lists self.now) q) ≡ numbers (list_at (lists other.now) q)) }
    {
        self.agrees(other, q, false)
    }

    // Whether both lists of queue q have the same processes, with the same keys if these are compared. Both are walked at once, up to the
    // first difference.
    fn agrees(&self, other: &Self, q: usize, with_keys: bool) -> bool
        requires q_in { q < Q }
        ensures same { IsTrue result ↔
            (compared with_keys (list_at (lists self.now) q) ≡ compared with_keys (list_at (lists other.now) q)) }
    {
        let mut at = self.links(P + 2 * q).next;
        if other.links(P + 2 * q).next != at {
            return false;
        }
        while at < P {
            let (here, there) = (self.links(at), other.links(at));
            if with_keys && here.key != there.key {
                return false;
            }
            if here.next != there.next {
                return false;
            }
            at = here.next;
        }
        true
    }
}
