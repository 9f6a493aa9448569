//! The lists: a table of them, seen as three lists.

ghost use Rattle.std.specs.Prelude.{◌≡◌, ◌<◌, pos, ◌≤ℤ◌, false, true, IfOk, IfSome};
ghost use Rattle.queue_table.specs.Lists.{first_key_of, first_process};
ghost use Rattle.lists_c.specs.Held.{is_due, is_held, no_lists, ready_taken, sleeper_taken, ticked, waiter_taken, with_ready, with_sleeper, with_waiter, without_process};

use queue_table::QueueTable;
use std::alloc::Global;
use std::marker::Model;
use xinu_base::NoMemory;

/// The ready list, the waiters and the sleepers.
pub(crate) struct HeldLists {
    // Of 1000 processes: queue 0 has those that are ready, 1 those that wait, 2 those that sleep.
    table: QueueTable<1000, 3>,
}

impl Drop for HeldLists {
    fn drop(self) {
        let HeldLists { table: _table } = self;
    }
}

impl Model for HeldLists {
    ghost use Rattle.lists_c.specs.Held.{Lists};
    ghost use Rattle.lists_c.specs.Views.{IsKept, lists_of};

    ghost Value = { Lists };

    ghost view = { lists_of };

    ghost invariant = { IsKept };
}

impl HeldLists {
    /// No process is in a list.
    ///
    /// # Errors
    ///
    /// Out of memory.
    pub(crate) fn new(alloc: Global) -> Result<HeldLists, NoMemory>
        ensures empty { IfOk result (λ l. l ≡ no_lists) }
    {
        let table = QueueTable::new(alloc)?;
        Ok(HeldLists { table })
    }

    /// Whether a process is in one of the lists.
    pub(crate) fn is_held(&self, p: usize) -> bool
        requires p_in { p < 1000 }
        ensures held { result ≡ is_held p self.now }
    {
        self.table.place_of(p).is_some()
    }

    /// A process becomes ready.
    pub(crate) fn insert(&mut self, p: usize, key: i32)
        requires p_in { p < 1000 }
        requires absent { is_held p self.old ≡ false }
        ensures lists { self.new ≡ with_ready p key self.old }
    {
        self.table.insert(p, 0, key);
    }

    /// A process waits.
    pub(crate) fn enqueue(&mut self, p: usize)
        requires p_in { p < 1000 }
        requires absent { is_held p self.old ≡ false }
        ensures lists { self.new ≡ with_waiter p self.old }
    {
        self.table.enqueue(p, 1);
    }

    /// A process sleeps.
    pub(crate) fn insert_delay(&mut self, p: usize, ticks: i32)
        requires p_in { p < 1000 }
        requires absent { is_held p self.old ≡ false }
        requires later { pos 1 ≤ℤ ticks }
        ensures lists { self.new ≡ with_sleeper p ticks self.old }
    {
        self.table.insert_delta(p, 2, ticks);
    }

    /// The first that is ready leaves its list.
    pub(crate) fn next_ready(&mut self) -> Option<usize>
        ensures first { result ≡ first_process self.old.ready }
        ensures below { IfSome result (λ p. p < 1000) }
        ensures lists { self.new ≡ ready_taken self.old }
    {
        self.table.dequeue(0)
    }

    /// The first that waits leaves its list.
    pub(crate) fn next_waiter(&mut self) -> Option<usize>
        ensures first { result ≡ first_process self.old.waiters }
        ensures below { IfSome result (λ p. p < 1000) }
        ensures lists { self.new ≡ waiter_taken self.old }
    {
        self.table.dequeue(1)
    }

    /// The first sleeper, which is due, leaves its list.
    pub(crate) fn next_sleeper(&mut self) -> Option<usize>
        requires due { is_due self.old ≡ true }
        ensures first { result ≡ first_process self.old.sleepers }
        ensures below { IfSome result (λ p. p < 1000) }
        ensures lists { self.new ≡ sleeper_taken self.old }
    {
        self.table.dequeue(2)
    }

    /// A process leaves its list.
    pub(crate) fn remove(&mut self, p: usize)
        requires p_in { p < 1000 }
        requires held { is_held p self.old ≡ true }
        ensures lists { self.new ≡ without_process p self.old }
    {
        let Some(q) = self.table.place_of(p) else {
            unreachable!()
        };
        if q == 2 {
            self.table.remove_delta(p);
        } else {
            self.table.remove(p);
        }
    }

    /// The priority of the first that is ready.
    pub(crate) fn first_priority(&self) -> Option<i32>
        ensures key { result ≡ first_key_of self.now.ready }
    {
        self.table.first_key(0)
    }

    /// The ticks that are left to the first sleeper.
    pub(crate) fn first_delay(&self) -> Option<i32>
        ensures key { result ≡ first_key_of self.now.sleepers }
    {
        self.table.first_key(2)
    }

    /// Whether the first sleeper is due.
    pub(crate) fn is_due(&self) -> bool
        ensures due { result ≡ is_due self.now }
    {
        match self.first_delay() {
            Some(ticks) => ticks <= 0,
            None => false,
        }
    }

    /// A tick passes. No sleeper is due.
    pub(crate) fn tick(&mut self)
        requires later { is_due self.old ≡ false }
        ensures lists { self.new ≡ ticked self.old }
    {
        if self.table.first_key(2).is_some() {
            self.table.lower_first(2);
        }
    }
}
