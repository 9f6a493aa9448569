//! A message that is sent and taken: who waits for it becomes ready (book, chapter 8, `send.c`, `receive.c`).
//!
//! It depends on the lists, the process table, the clock and the slots.

ghost use Rattle.std.specs.Prelude.{◌≡◌, ◌≢◌, ◌&&◌, ℕ, List, not, is_some, None, true, Some, slice_set, if◌then◌else◌};
ghost use Rattle.delta_clock.specs.Wakeups.{WakesLater};
ghost use Rattle.kernel_tables.specs.Queues.{ArePlaced, is_timed};
ghost use Rattle.messages.specs.Held.{held};
ghost use Rattle.process_core.specs.Fits.{Fits};
ghost use Rattle.process_core.specs.Tables.{Beside, process_in, tables_of};
ghost use Rattle.queue_table.specs.Lists.{Entry, list_at, place};
ghost use Rattle.queue_table.specs.Table as table;
ghost use Rattle.semaphores.specs.Counts.{SemaphoreTable, beside};
ghost use Rattle.xinu_model.specs.Machine.{CallState, with_tables};
ghost use Rattle.xinu_model.specs.Messages as model;
ghost use Rattle.xinu_model.specs.Process.Scheduling.{ready};
ghost use Rattle.xinu_model.specs.Tables.{is_free, move_to, Nowhere, process_at};

use crate::current::end_rest;
use delta_clock::Clock;
use messages::Slots;
use process_core::Procs;
use queue_table::Lists;
use xinu_base::{Pid, Rest, State};

/// Sends `p` a word. True if and only if `p` waited for it, so that it is ready now and a resched is owed. Nothing changes if `p` is
/// free or holds a word.
pub(crate) fn deliver(
    lists: &mut Lists,
    procs: &mut Procs,
    clock: &mut Clock,
    slots: &mut Slots,
    p: Pid,
    m: u32,
) -> bool
    requires fits { Fits (table.lists lists.old) procs.old.processes }
    requires placed { ArePlaced (table.lists lists.old) procs.old.processes }
    requires later { WakesLater (table.lists lists.old) }
    ensures sent { (d : CallState) (sems : SemaphoreTable) (ticks : ℕ) →
        d.state.tables ≡ tables_of (table.lists lists.old) procs.old (beside sems slots.old ticks) →
        model.sent p m d ≡ record (with_tables (tables_of (table.lists lists.new) procs.new (beside sems slots.new ticks)) d)
        { owes_resched = if result then true else d.owes_resched } }
    ensures same { clock.new ≡ clock.old }
    ensures others { (q : ℕ) → q ≢ 128 → q ≢ 129 → list_at (table.lists lists.new) q ≡ list_at (table.lists lists.old) q }
    ensures later { WakesLater (table.lists lists.new) }
{
    if !accept(procs, slots, p, m) {
        return false;
    }
    if !listens(procs, p) {
        return false;
    }
    unsleep(lists, procs, clock, p);
    procs.ready_defer(lists, p);
    true
}

/// Takes the message of the current process, which runs. Nothing is left of its call.
pub(crate) fn take_current(procs: &mut Procs, slots: &mut Slots)
    requires runs { (process_in procs.old.processes procs.old.current).state ≡ State.Current }
    ensures taken { (ls : List (List Entry)) (sems : SemaphoreTable) (ticks : ℕ) → Fits ls procs.old.processes →
        tables_of ls procs.new (beside sems slots.new ticks) ≡ (let t = tables_of ls procs.old (beside sems slots.old ticks) in
        move_to t.current (record (process_at t t.current) { rest = Rest.Nothing }) None Nowhere t) }
{
    let current = procs.current();
    end_rest(procs);
    slots.clear(current);
}

// Takes `p`, which waits for a message, out of the sleepers if it waits with a time limit. It is to become ready.
fn unsleep(lists: &mut Lists, procs: &Procs, clock: &mut Clock, p: Pid)
    requires listens { model.listens (process_in procs.now.processes p).state ≡ true }
    requires fits { Fits (table.lists lists.old) procs.now.processes }
    requires placed { ArePlaced (table.lists lists.old) procs.now.processes }
    requires later { WakesLater (table.lists lists.old) }
    ensures left { (b : Beside) → ready p (tables_of (table.lists lists.new) procs.now b) ≡
        ready p (tables_of (table.lists lists.old) procs.now b) }
    ensures same { clock.new ≡ clock.old }
    ensures absent { place (table.lists lists.new) p ≡ None }
    ensures others { (q : ℕ) → q ≢ 129 → list_at (table.lists lists.new) q ≡ list_at (table.lists lists.old) q }
    ensures fits { Fits (table.lists lists.new) procs.now.processes }
    ensures later { WakesLater (table.lists lists.new) }
{
    if is_timed(procs, p) {
        clock.cancel(lists, p);
    }
}

// Whether `p` waits for a message with a time limit.
fn is_timed(procs: &Procs, p: Pid) -> bool
    ensures timed { result ≡ is_timed (process_in procs.now.processes p).state }
{
    matches!(procs.process(p).state, State::Timed)
}

// Puts a word into the slot of `p`, if `p` is alive and holds none.
fn accept(procs: &Procs, slots: &mut Slots, p: Pid, m: u32) -> bool
    ensures accepts { result ≡ (not (is_free (process_in procs.now.processes p).state) && not (is_some (held slots.old p))) }
    ensures slots { slots.new ≡ (if result then slice_set slots.old p (Some m) else slots.old) }
{
    if matches!(procs.process(p).state, State::Free) {
        return false;
    }
    slots.send(p, m)
}

// Whether `p` waits for a message.
fn listens(procs: &Procs, p: Pid) -> bool
    ensures listens { result ≡ model.listens (process_in procs.now.processes p).state }
{
    matches!(procs.process(p).state, State::Receiving | State::Timed)
}
