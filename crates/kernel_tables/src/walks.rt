//! The ready list, the waiters of a semaphore and the sleepers: the table of linked entries that holds them, and each of them from one
//! process to the next, as the tables are printed.
//!
//! It depends on the tables.

ghost use Rattle.std.specs.Prelude.{ℕ, ◌≡◌, ◌∷◌, ◌<◌, ◌≤◌, Some, IfSome, nat_abs, option_map};
ghost use Rattle.kernel_tables.specs.Walks.{entries_from, numbers_from, StandsAt};
ghost use Rattle.process_core.specs.Tables.{numbers, sleepers_of};
ghost use Rattle.queue_table.specs.Entries.{Linked};
ghost use Rattle.queue_table.specs.Lists.{after_in, first_process, key_in, list_at, place};
ghost use Rattle.queue_table.specs.Table as table;
ghost use Rattle.xinu_model.specs.Sound.Tables.{count_in};
ghost use Rattle.xinu_model.specs.Tables.{process_at, semaphore_at, state_at};

use crate::tables::KernelTables;
use process_core::{READY, SLEEPERS};
use queue_table::Lists;
use xinu_base::{Pid, Sem, State};

impl KernelTables {
    /// The one table of linked entries that holds all lists of processes: queue 128 is the ready list, queue 129 the sleepers, and the
    /// queue of a semaphore's number its waiters.
    #[tactic(auto, unfolding(process_core::specs::Tables::tables_of))]
    pub fn lists(&self) -> &Lists
        ensures linked { Linked 64 130 result.now.entries.items (table.lists result.now) }
        ensures ready { self.now.ready ≡ list_at (table.lists result.now) 128 }
        ensures sleepers { self.now.sleepers ≡ sleepers_of self.now.ticks (list_at (table.lists result.now) 129) }
        ensures waiters { (sem : ℕ) → sem < 128 → (semaphore_at self.now sem).waiters ≡ numbers (list_at (table.lists result.now) sem) }
    {
        &self.lists
    }

    /// The first process of the ready list. `None` if and only if the list is empty.
    pub fn first_ready(&self) -> Option<Pid>
        ensures all { entries_from result self.now.ready ≡ self.now.ready }
        ensures ready { IfSome result (λ p. state_at self.now p ≡ State.Ready) }
    {
        first_in(&self.lists, READY)
    }

    /// The process after `p` in the ready list. `None` if and only if `p` is the last.
    pub fn ready_after(&self, p: Pid) -> Option<Pid>
        requires ready { state_at self.now p ≡ State.Ready }
        ensures next { entries_from (Some p) self.now.ready ≡ (p, (process_at self.now p).priority) ∷ entries_from result self.now.ready }
        ensures ready { IfSome result (λ q. state_at self.now q ≡ State.Ready) }
    {
        next_in(&self.lists, READY, p)
    }

    /// The first process that waits on `sem`. `None` if and only if nobody waits.
    pub fn first_waiter(&self, sem: Sem) -> Option<Pid>
        ensures all { numbers_from result (semaphore_at self.now sem).waiters ≡ (semaphore_at self.now sem).waiters }
        ensures waits { IfSome result (λ p. 0 < count_in p (semaphore_at self.now sem).waiters) }
    {
        first_in(&self.lists, sem.index())
    }

    /// The process after `p` among those that wait on `sem`. `None` if and only if `p` is the last.
    pub fn waiter_after(&self, sem: Sem, p: Pid) -> Option<Pid>
        requires waits { 0 < count_in p (semaphore_at self.now sem).waiters }
        ensures next { numbers_from (Some p) (semaphore_at self.now sem).waiters ≡ p ∷ numbers_from result (semaphore_at self.now sem).waiters }
        ensures waits { IfSome result (λ q. 0 < count_in q (semaphore_at self.now sem).waiters) }
    {
        next_in(&self.lists, sem.index(), p)
    }

    /// The first sleeper and the tick at which it wakes. `None` if and only if nobody sleeps.
    pub fn first_sleeper(&self) -> Option<(Pid, u32)>
        requires few { self.now.ticks ≤ 1000000000 }
        ensures all { entries_from (option_map (λ e. e.0) result) self.now.sleepers ≡ self.now.sleepers }
        ensures sleeps { IfSome result (λ e. StandsAt e.0 e.1 self.now.sleepers) }
    {
        let p = first_in(&self.lists, SLEEPERS)?;
        Some((p, self.clock.ticks() + difference_of(&self.lists, p)))
    }

    /// The sleeper after `p`, which wakes at this tick, and the tick at which it wakes itself. `None` if and only if `p` is the last.
    pub fn sleeper_after(&self, p: Pid, wake: u32) -> Option<(Pid, u32)>
        requires few { self.now.ticks ≤ 1000000000 }
        requires sleeps { StandsAt p wake self.now.sleepers }
        ensures next { entries_from (Some p) self.now.sleepers ≡ (p, wake) ∷ entries_from (option_map (λ e. e.0) result) self.now.sleepers }
        ensures sleeps { IfSome result (λ e. StandsAt e.0 e.1 self.now.sleepers) }
    {
        let next = next_in(&self.lists, SLEEPERS, p)?;
        Some((next, wake + difference_of(&self.lists, next)))
    }
}

// The first process of a queue.
fn first_in(lists: &Lists, q: usize) -> Option<Pid>
    requires queue { q < 130 }
    ensures first { result ≡ first_process (list_at (table.lists lists.now) q) }
{
    let first = lists.first(q)?;
    Some(Pid::at(first))
}

// The process after `p` in a queue.
fn next_in(lists: &Lists, q: usize, p: Pid) -> Option<Pid>
    requires placed { place (table.lists lists.now) p ≡ Some q }
    ensures next { result ≡ after_in p (list_at (table.lists lists.now) q) }
{
    let _ = q;
    let next = lists.next_after(p.index())?;
    Some(Pid::at(next))
}

// How many ticks after the sleeper before it a sleeper wakes; how many from now, if it is the first.
fn difference_of(lists: &Lists, p: Pid) -> u32
    requires placed { place (table.lists lists.now) p ≡ Some 129 }
    ensures difference { result ≡ nat_abs (key_in p (list_at (table.lists lists.now) 129)) }
{
    lists.key_of(p.index()).unsigned_abs()
}
