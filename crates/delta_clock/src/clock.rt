//! The ticks since the start, and the sleepers in a delta list (book, chapter 13, `insertd.c`, `wakeup.c`, `unsleep.c`, `clkhandler.c`).
//!
//! It depends on the lists. The sleepers are queue 129, where a key is the difference of a delay to the delay ahead of it, so that a tick
//! lowers one key: the first.

ghost use Rattle.std.specs.Prelude.{◌≡◌, ◌↔◌, IsTrue, ◌≢◌, ◌≤◌, ◌<◌, ◌+◌, ◌/◌, ◌∷◌, ◌≤ℤ◌, ℕ, List, [], IfNone, IfSome, IsSome, None, Some, pos, replicate};
ghost use Rattle.delta_clock.specs.Wakeups.{AreOut, WakesLater, not_due};
ghost use Rattle.process_core.specs.Fits.{Fits, MayBeIn};
ghost use Rattle.process_core.specs.Tables.{Beside, ProcessTable, process_in, sleepers_of, tables_of, wake_tick};
ghost use Rattle.queue_table.specs.Lists.{IsDelta, KeysAtLeast, all_delta_without, delays, delta_insert, list_at, list_of, place, with_list};
ghost use Rattle.queue_table.specs.Table as table;
ghost use Rattle.xinu_base.specs.declared.processes.Process.{Process};
ghost use Rattle.xinu_model.specs.Clock.{due};
ghost use Rattle.xinu_model.specs.Tables.{InSleepers, Nowhere, message_at, move_to, process_at};

use arrayvec::ArrayVec;
use process_core::SLEEPERS;
use queue_table::Lists;
use std::marker::Model;
use xinu_base::Pid;

/// The ticks since the start. A clone shows the same.
#[derive(Clone, Drop)]
pub struct Clock {
    ticks: u32,
}

impl Model for Clock {
    ghost use Rattle.std.specs.Prelude.{ℕ};

    ghost Value = { ℕ };

    ghost view = { λ c. c.ticks };
}

impl Clock {
    /// A clock at the start: no tick has passed. It fits new lists, in which nobody sleeps.
    pub fn new() -> Self
        ensures starts { result ≡ 0 }
        ensures later { WakesLater (replicate 130 []) }
    {
        Clock { ticks: 0 }
    }

    /// Whether another clock shows the same ticks.
    pub fn equals(&self, other: &Self) -> bool
        ensures equal { IsTrue result ↔ (self.now ≡ other.now) }
    {
        self.ticks == other.ticks
    }

    /// The ticks since the start, in 64 bits.
    pub fn now(&self) -> u64
        ensures ticks { result ≡ self.now }
    {
        u64::from(self.ticks)
    }

    /// The ticks since the start, which fit 32 bits.
    pub fn ticks(&self) -> u32
        ensures ticks { result ≡ self.now }
    {
        self.ticks
    }

    /// The seconds since the start: a thousand ticks are a second.
    pub fn seconds(&self) -> u32
        ensures seconds { result ≡ self.now / 1000 }
        ensures few { result ≤ 4294967 }
    {
        self.ticks / 1000
    }

    /// Puts `p`, which is in no list, among the sleepers, to wake after a delay in ticks, at least 1. It goes after those that wake at
    /// the same tick.
    pub fn sleep_for(&mut self, lists: &mut Lists, p: Pid, delay: i32)
        requires absent { place (table.lists lists.old) p ≡ None }
        requires longer { pos 1 ≤ℤ delay }
        requires later { WakesLater (table.lists lists.old) }
        ensures same { self.new ≡ self.old }
        ensures lists { table.lists lists.new ≡ (let ls = table.lists lists.old in with_list ls 129 (delta_insert p delay (list_at ls 129))) }
        ensures sleeps { (s : ProcessTable) (b : Beside) → tables_of (table.lists lists.new) s b ≡
            (let t = tables_of (table.lists lists.old) s b in
            move_to p (process_at t p) (message_at t p) (InSleepers (wake_tick b.ticks delay)) t) }
        ensures others { (q : ℕ) → q ≢ 129 → list_at (table.lists lists.new) q ≡ list_at (table.lists lists.old) q }
        ensures fits { (ps : List Process) → Fits (table.lists lists.old) ps → MayBeIn 129 (process_in ps p).state →
            Fits (table.lists lists.new) ps }
        ensures later { WakesLater (table.lists lists.new) }
    {
        lists.insert_delta(p.index(), SLEEPERS, delay);
    }

    /// Takes `p`, which is a sleeper, out of the sleepers: it is in no list then. All others wake when they would have.
    pub fn cancel(&mut self, lists: &mut Lists, p: Pid)
        requires asleep { place (table.lists lists.old) p ≡ Some 129 }
        requires later { WakesLater (table.lists lists.old) }
        ensures same { self.new ≡ self.old }
        ensures lists { table.lists lists.new ≡ all_delta_without p (table.lists lists.old) }
        ensures cancelled { (s : ProcessTable) (b : Beside) → tables_of (table.lists lists.new) s b ≡
            (let t = tables_of (table.lists lists.old) s b in
            move_to p (process_at t p) (message_at t p) Nowhere t) }
        ensures absent { place (table.lists lists.new) p ≡ None }
        ensures others { (q : ℕ) → q ≢ 129 → list_at (table.lists lists.new) q ≡ list_at (table.lists lists.old) q }
        ensures fits { (ps : List Process) → Fits (table.lists lists.old) ps → Fits (table.lists lists.new) ps }
        ensures later { WakesLater (table.lists lists.new) }
    {
        unsleep(lists, p);
    }

    /// A tick passes; fewer than 4294967295 have passed before. Those whose tick has come are taken out of the sleepers, and are in no list
    /// then: they are the answer, in the order in which they lay down among equal ticks.
    pub fn tick(&mut self, lists: &mut Lists) -> ArrayVec<Pid, 64>
        requires few { self.old < 4294967295 }
        requires later { WakesLater (table.lists lists.old) }
        ensures ticks { self.new ≡ self.old + 1 }
        ensures due { result.items ≡ due (self.old + 1) (sleepers_of self.old (list_at (table.lists lists.old) 129)) }
        ensures ticked { (s : ProcessTable) (b : Beside) → b.ticks ≡ self.old →
            tables_of (table.lists lists.new) s (record b { ticks = self.new }) ≡
            (let t = tables_of (table.lists lists.old) s b in
            record t { sleepers = not_due (self.old + 1) t.sleepers; ticks = self.old + 1 }) }
        ensures out { AreOut (table.lists lists.new) result.items }
        ensures others { (q : ℕ) → q ≢ 129 → list_at (table.lists lists.new) q ≡ list_at (table.lists lists.old) q }
        ensures fits { (ps : List Process) → Fits (table.lists lists.old) ps → Fits (table.lists lists.new) ps }
        ensures later { WakesLater (table.lists lists.new) }
    {
        self.advance();
        lower(lists);
        take_due(lists)
    }

    // One tick more.
    fn advance(&mut self)
        requires few { self.old < 4294967295 }
        ensures ticks { self.new ≡ self.old + 1 }
    {
        self.ticks += 1;
    }
}

// Takes `p` out of its delta list; the process after it gets its difference.
fn unsleep(lists: &mut Lists, p: Pid)
    requires present { IsSome (place (table.lists lists.old) p) }
    requires delta { IsDelta (list_of (table.lists lists.old) p) }
    ensures lists { table.lists lists.new ≡ all_delta_without p (table.lists lists.old) }
{
    lists.remove_delta(p.index());
}

// A tick less for each sleeper.
fn lower(lists: &mut Lists)
    requires later { WakesLater (table.lists lists.old) }
    ensures lists { table.lists lists.new ≡ with_list (table.lists lists.old) 129 (list_at (table.lists lists.new) 129) }
    ensures delta { IsDelta (list_at (table.lists lists.new) 129) }
    ensures sleepers { (ticks : ℕ) → sleepers_of (ticks + 1) (list_at (table.lists lists.new) 129) ≡
        sleepers_of ticks (list_at (table.lists lists.old) 129) }
    ensures fits { (ps : List Process) → Fits (table.lists lists.old) ps → Fits (table.lists lists.new) ps }
{
    if !lists.is_empty(SLEEPERS) {
        lists.lower_first(SLEEPERS);
    }
}

// Takes out the sleepers that are due now.
fn take_due(lists: &mut Lists) -> ArrayVec<Pid, 64>
    requires delta { IsDelta (list_at (table.lists lists.old) 129) }
    ensures lists { table.lists lists.new ≡ with_list (table.lists lists.old) 129 (list_at (table.lists lists.new) 129) }
    ensures due { (tick : ℕ) → result.items ≡ due tick (sleepers_of tick (list_at (table.lists lists.old) 129)) }
    ensures rest { (tick : ℕ) → sleepers_of tick (list_at (table.lists lists.new) 129) ≡
        not_due tick (sleepers_of tick (list_at (table.lists lists.old) 129)) }
    ensures out { AreOut (table.lists lists.new) result.items }
    ensures fits { (ps : List Process) → Fits (table.lists lists.old) ps → Fits (table.lists lists.new) ps }
    ensures later { WakesLater (table.lists lists.new) }
{
    let mut due = ArrayVec::new();
    while let Some(p) = next_due(lists) {
        due.push(p);
    }
    due
}

// Takes out the first sleeper, if it is due now.
fn next_due(lists: &mut Lists) -> Option<Pid>
    requires delta { IsDelta (list_at (table.lists lists.old) 129) }
    ensures first { IfSome result (λ p. list_at (table.lists lists.old) 129 ≡ (p, pos 0) ∷ list_at (table.lists lists.new) 129) }
    ensures lists { table.lists lists.new ≡ with_list (table.lists lists.old) 129 (list_at (table.lists lists.new) 129) }
    ensures later { IfNone result (KeysAtLeast (pos 1) (delays (list_at (table.lists lists.old) 129))) }
    ensures same { IfNone result (table.lists lists.new ≡ table.lists lists.old) }
{
    let Some(key) = lists.first_key(SLEEPERS) else {
        return None;
    };
    if key > 0 {
        return None;
    }
    match lists.dequeue(SLEEPERS) {
        Some(first) => Some(Pid::at(first)),
        None => None,
    }
}
