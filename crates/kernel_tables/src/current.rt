//! What happens to the current process: it waits or is suspended, sleeps, goes on after that, and spends its quantum (book, chapters 5, 6
//! and 13).
//!
//! It depends on the lists, the process table and the clock.

ghost use Rattle.std.specs.Prelude.{◌≡◌, ◌≢◌, ◌≤ℤ◌, ℕ, List, pos, if◌then◌else◌};
ghost use Rattle.delta_clock.specs.Wakeups.{WakesLater};
ghost use Rattle.process_core.specs.Fits.{Fits, IsBlocked};
ghost use Rattle.process_core.specs.Tables.{Beside, process_in, tables_of, wake_tick, with_process};
ghost use Rattle.queue_table.specs.Lists.{Entry, list_at};
ghost use Rattle.queue_table.specs.Table as table;
ghost use Rattle.xinu_model.specs.Clock.{quantum_falls};
ghost use Rattle.xinu_model.specs.Tables.{InSleepers, message_at, move_to, Nowhere, process_at};

use delta_clock::Clock;
use process_core::Procs;
use queue_table::Lists;
use xinu_base::{Rest, State};

/// Puts the current process, which runs, into a state in which it waits or is suspended; this is left of its call.
pub(crate) fn block_current(procs: &mut Procs, state: State, rest: Rest)
    requires runs { (process_in procs.old.processes procs.old.current).state ≡ State.Current }
    requires blocks { IsBlocked state }
    ensures blocked { (ls : List (List Entry)) (b : Beside) → Fits ls procs.old.processes →
        tables_of ls procs.new b ≡ (let t = tables_of ls procs.old b in
        move_to t.current (record (process_at t t.current) { state = state; rest = rest }) (message_at t t.current) Nowhere t) }
    ensures same { procs.new.current ≡ procs.old.current }
{
    let current = procs.current();
    procs.set_rest(current, rest);
    procs.block(state);
}

/// Puts the current process, which runs, among the sleepers in this state, to wake after a delay in ticks, at least 1; this is left of
/// its call.
pub(crate) fn sleep_current(
    lists: &mut Lists,
    procs: &mut Procs,
    clock: &mut Clock,
    state: State,
    rest: Rest,
    delay: i32,
)
    requires runs { (process_in procs.old.processes procs.old.current).state ≡ State.Current }
    requires blocks { IsBlocked state }
    requires longer { pos 1 ≤ℤ delay }
    requires fits { Fits (table.lists lists.old) procs.old.processes }
    requires later { WakesLater (table.lists lists.old) }
    ensures sleeps { (b : Beside) → tables_of (table.lists lists.new) procs.new b ≡ (let t = tables_of (table.lists lists.old) procs.old b in
        move_to t.current (record (process_at t t.current) { state = state; rest = rest })
        (message_at t t.current) (InSleepers (wake_tick b.ticks delay)) t) }
    ensures same { clock.new ≡ clock.old }
    ensures others { (q : ℕ) → q ≢ 129 → list_at (table.lists lists.new) q ≡ list_at (table.lists lists.old) q }
    ensures later { WakesLater (table.lists lists.new) }
{
    block_current(procs, state, rest);
    let current = procs.current();
    clock.sleep_for(lists, current, delay);
}

/// Nothing is left of the call of the current process, which runs.
pub(crate) fn end_rest(procs: &mut Procs)
    requires runs { (process_in procs.old.processes procs.old.current).state ≡ State.Current }
    ensures goes_on { (ls : List (List Entry)) (b : Beside) → Fits ls procs.old.processes →
        tables_of ls procs.new b ≡ (let t = tables_of ls procs.old b in
        move_to t.current (record (process_at t t.current) { rest = Rest.Nothing }) (message_at t t.current) Nowhere t) }
{
    let current = procs.current();
    procs.set_rest(current, Rest::Nothing);
}

/// Takes a tick off the quantum, with a resched if it came to 0.
pub(crate) fn spend(lists: &mut Lists, procs: &mut Procs)
    requires fits { Fits (table.lists lists.old) procs.old.processes }
    ensures spent { (b : Beside) → tables_of (table.lists lists.new) procs.new b ≡
        quantum_falls (tables_of (table.lists lists.old) procs.old b) }
    ensures others { (q : ℕ) → q ≢ 128 → list_at (table.lists lists.new) q ≡ list_at (table.lists lists.old) q }
{
    if procs.quantum_tick() {
        procs.resched(lists);
    }
}

/// This is left of the call of the current process, unless it took a token and goes on.
pub(crate) fn leave_rest(procs: &mut Procs, took: bool, rest: Rest)
    ensures procs { procs.new ≡ (let s = procs.old in
        if took then s else with_process s.current (record (process_in s.processes s.current) { rest = rest }) s) }
{
    if !took {
        let current = procs.current();
        procs.set_rest(current, rest);
    }
}
