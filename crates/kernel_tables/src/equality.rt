//! Whether tables are equal.
//!
//! It depends on the tables. Keys of waiters aren't compared: the abstract machine has none.

ghost use Rattle.std.specs.Prelude.{◌≡◌, ◌↔◌, IsTrue};
ghost use Rattle.kernel_tables.specs.Queues.{AreSameQueues};
ghost use Rattle.queue_table.specs.Table as table;

use crate::KernelTables;
use process_core::{READY, SLEEPERS};
use queue_table::Lists;

impl KernelTables {
    /// Whether other tables are equal, in all that a clause sees.
    pub fn equals(&self, other: &Self) -> bool
        ensures equal { IsTrue result ↔ (self.now ≡ other.now) }
    {
        if !self.clock.equals(&other.clock) {
            return false;
        }
        if !self.procs.equals(&other.procs) {
            return false;
        }
        if !self.slots.equals(&other.slots) {
            return false;
        }
        if !self.sems.equals(&other.sems) {
            return false;
        }
        are_same_queues(&self.lists, &other.lists)
    }
}

// Whether the waiters of each semaphore, the ready list and the sleepers are the same in other lists.
fn are_same_queues(lists: &Lists, others: &Lists) -> bool
    ensures same { IsTrue result ↔ AreSameQueues (table.lists lists.now) (table.lists others.now) }
{
    for sem in 0..128 {
        if !lists.has_same_processes(others, sem) {
            return false;
        }
    }
    lists.has_same_list(others, READY) && lists.has_same_list(others, SLEEPERS)
}
