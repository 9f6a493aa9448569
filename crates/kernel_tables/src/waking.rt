//! Sleepers whose tick has come become ready (book, chapter 13, `wakeup.c`).
//!
//! It depends on the lists and the process table.

ghost use Rattle.std.specs.Prelude.{◌≡◌, ◌≢◌, ℕ, if◌then◌else◌};
ghost use Rattle.delta_clock.specs.Wakeups.{AreOut};
ghost use Rattle.kernel_tables.specs.Waking.{are_any};
ghost use Rattle.process_core.specs.Fits.{Fits};
ghost use Rattle.process_core.specs.Tables.{Beside, tables_of};
ghost use Rattle.queue_table.specs.Lists.{list_at};
ghost use Rattle.queue_table.specs.Table as table;
ghost use Rattle.xinu_model.specs.Process.Scheduling.{ready_all};
ghost use Rattle.xinu_model.specs.Process.Scheduling as model;

use process_core::Procs;
use queue_table::Lists;
use xinu_base::Pid;

/// Makes these processes, which have left the sleepers, ready in order, with a resched if there are any.
pub(crate) fn wake(lists: &mut Lists, procs: &mut Procs, due: &[Pid])
    requires out { AreOut (table.lists lists.old) due.now }
    requires fits { Fits (table.lists lists.old) procs.old.processes }
    ensures woken { (b : Beside) → tables_of (table.lists lists.new) procs.new b ≡
        (let t = ready_all due.now (tables_of (table.lists lists.old) procs.old b) in if are_any due.now then model.resched t else t) }
    ensures others { (q : ℕ) → q ≢ 128 → list_at (table.lists lists.new) q ≡ list_at (table.lists lists.old) q }
    ensures fits { Fits (table.lists lists.new) procs.new.processes }
{
    ready_each(lists, procs, due);
    if due.len() > 0 {
        procs.resched(lists);
    }
}

// Makes these processes, which are in no list, ready in order.
fn ready_each(lists: &mut Lists, procs: &mut Procs, due: &[Pid])
    requires out { AreOut (table.lists lists.old) due.now }
    requires fits { Fits (table.lists lists.old) procs.old.processes }
    ensures readied { (b : Beside) → tables_of (table.lists lists.new) procs.new b ≡
        ready_all due.now (tables_of (table.lists lists.old) procs.old b) }
    ensures others { (q : ℕ) → q ≢ 128 → list_at (table.lists lists.new) q ≡ list_at (table.lists lists.old) q }
    ensures fits { Fits (table.lists lists.new) procs.new.processes }
{
    for p in due {
        procs.ready_defer(lists, *p);
    }
}
