//! How a process leaves its list: its number becomes free, or it waited and becomes ready without a token (book, chapters 5 and 18, `kill.c`,
//! `rdsprocess.c`).
//!
//! It depends on lists, processes, semaphores, the clock and the slots. Whoever waits on a semaphore gives its place in the count back,
//! and a sleeper its difference to the one after it.

ghost use Rattle.std.specs.Prelude.{◌≡◌, ◌<◌, ℕ, List, Option, None};
ghost use Rattle.kernel_tables.specs.Queues.{ArePlaced, AreQueues};
ghost use Rattle.process_core.specs.Fits.{Fits};
ghost use Rattle.process_core.specs.Tables.{process_in, tables_of};
ghost use Rattle.queue_table.specs.Lists.{place};
ghost use Rattle.queue_table.specs.Table as table;
ghost use Rattle.semaphores.specs.Counts.{beside};
ghost use Rattle.xinu_base.specs.declared.processes.Process.{Process};
ghost use Rattle.xinu_model.specs.Tables.{InReady, message_at, move_to, no_process, Nowhere, process_at};

use delta_clock::Clock;
use messages::Slots;
use process_core::Procs;
use queue_table::Lists;
use semaphores::Sems;
use xinu_base::{Pid, Rest, State};

/// Takes `p` out of its list, and frees its number and its slot.
pub(crate) fn bury(
    lists: &mut Lists,
    procs: &mut Procs,
    sems: &mut Sems,
    clock: &mut Clock,
    slots: &mut Slots,
    p: Pid,
)
    requires fits { Fits (table.lists lists.old) procs.old.processes }
    requires placed { ArePlaced (table.lists lists.old) procs.old.processes }
    requires queues { AreQueues (table.lists lists.old) sems.old.entries }
    ensures buried { (ticks : ℕ) → tables_of (table.lists lists.new) procs.new (beside sems.new slots.new ticks) ≡
        move_to p no_process None Nowhere (tables_of (table.lists lists.old) procs.old (beside sems.old slots.old ticks)) }
    ensures same { clock.new ≡ clock.old }
    ensures queues { AreQueues (table.lists lists.new) sems.new.entries }
    ensures within { p < 64 }
{
    prove!(p.index() < 64);
    leave(lists, procs, sems, clock, p);
    procs.free_part(lists, p);
    slots.clear(p);
}

/// Makes `p`, which waits on a semaphore, ready without a token; this is left of its call.
pub(crate) fn ready_waiter(
    lists: &mut Lists,
    procs: &mut Procs,
    sems: &mut Sems,
    p: Pid,
    rest: Rest,
)
    requires waits { (process_in procs.old.processes p).state ≡ State.Waiting }
    requires fits { Fits (table.lists lists.old) procs.old.processes }
    requires placed { ArePlaced (table.lists lists.old) procs.old.processes }
    requires queues { AreQueues (table.lists lists.old) sems.old.entries }
    ensures ready { (messages : List (Option ℕ)) (ticks : ℕ) → tables_of (table.lists lists.new) procs.new (beside sems.new messages ticks) ≡
        (let t = tables_of (table.lists lists.old) procs.old (beside sems.old messages ticks) in
        move_to p (record (process_at t p) { state = State.Ready; rest = rest }) (message_at t p) InReady t) }
    ensures queues { AreQueues (table.lists lists.new) sems.new.entries }
    ensures within { p < 64 }
{
    prove!(p.index() < 64);
    sems.forget_waiter(lists, p);
    procs.set_rest(p, rest);
    procs.ready_defer(lists, p);
}

/// Takes `p` out of its list. Its state may be another then, since it is to move.
fn leave(lists: &mut Lists, procs: &mut Procs, sems: &mut Sems, clock: &mut Clock, p: Pid)
    requires fits { Fits (table.lists lists.old) procs.old.processes }
    requires placed { ArePlaced (table.lists lists.old) procs.old.processes }
    requires queues { AreQueues (table.lists lists.old) sems.old.entries }
    ensures left { (x : Process) (m : Option ℕ) (messages : List (Option ℕ)) (ticks : ℕ) →
        move_to p x m Nowhere (tables_of (table.lists lists.new) procs.new (beside sems.new messages ticks)) ≡
        move_to p x m Nowhere (tables_of (table.lists lists.old) procs.old (beside sems.old messages ticks)) }
    ensures same { clock.new ≡ clock.old }
    ensures absent { place (table.lists lists.new) p ≡ None }
    ensures queues { AreQueues (table.lists lists.new) sems.new.entries }
    ensures fits { Fits (table.lists lists.new) procs.new.processes }
{
    match procs.process(p).state {
        State::Ready => procs.suspend_ready(lists, p),
        State::Waiting => sems.forget_waiter(lists, p),
        State::Sleeping | State::Timed => clock.cancel(lists, p),
        State::Free | State::Current | State::Receiving | State::Suspended => {}
    }
}
