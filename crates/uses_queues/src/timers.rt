//! Timers in one delta list.

ghost use Rattle.std.specs.Prelude.{◌≡◌, ◌<◌, ◌≤ℤ◌, ◌∷◌, [], true, false, Some, pos, if◌then◌else◌, IfNone, IfSome};
ghost use Rattle.queue_table.specs.Lists.{KeysAtLeast, delay_insert, first_key_of, is_listed, sooner};

use queue_table::QueueTable;
use std::alloc::Global;
use std::marker::Model;

/// The timers 0 to 7. A contract sees the timers that run, each with the ticks that are left, the soonest first.
pub(crate) struct Timers {
    // One queue, of eight.
    table: QueueTable<8, 1>,
}

impl Drop for Timers {
    fn drop(self) {
        let Timers { table: _table } = self;
    }
}

impl Model for Timers {
    ghost use Rattle.std.specs.Prelude.{List};
    ghost use Rattle.queue_table.specs.Lists.{Entry, delays, list_at};
    ghost use Rattle.queue_table.specs.Table.{lists};
    ghost use Rattle.uses_queues.specs.Running.{IsRunning};

    ghost Value = { List Entry };

    ghost view = { λ t. delays (list_at (lists t.table) 0) };

    ghost invariant = { IsRunning };
}

impl Timers {
    /// No timer runs. `None` if there is no memory.
    pub(crate) fn new(alloc: Global) -> Option<Timers>
        ensures none { IfSome result (λ t. t ≡ []) }
    {
        match QueueTable::new(alloc) {
            Ok(table) => Some(Timers { table }),
            Err(_) => None,
        }
    }

    /// Sets a timer, to go off after so many ticks and after those that go off then already. False, and nothing changes, if there is no
    /// such timer, if it runs, or if the ticks aren't at least 1.
    pub(crate) fn add(&mut self, timer: usize, ticks: i32) -> bool
        ensures added { self.new ≡ (if result then delay_insert timer ticks self.old else self.old) }
        ensures accepts { timer < 8 → pos 1 ≤ℤ ticks → is_listed timer self.old ≡ false → result ≡ true }
    {
        if timer >= 8 || ticks < 1 {
            return false;
        }
        if self.table.place_of(timer).is_some() {
            return false;
        }
        self.table.insert_delta(timer, 0, ticks);
        true
    }

    /// A tick passes. False, and nothing changes, while a timer is due.
    pub(crate) fn tick(&mut self) -> bool
        ensures passed { self.new ≡ (if result then sooner self.old else self.old) }
        ensures waits { result ≡ false → first_key_of self.old ≡ Some (pos 0) }
    {
        let Some(key) = self.table.first_key(0) else {
            return true;
        };
        if key == 0 {
            return false;
        }
        self.table.lower_first(0);
        true
    }

    /// Takes out the first timer that is due: it has no tick left, so it had one before the tick that passed. `None`, and nothing changes, if
    /// each timer has a tick left.
    pub(crate) fn next_due(&mut self) -> Option<usize>
        ensures due { IfSome result (λ p. self.old ≡ (p, pos 0) ∷ self.new) }
        ensures later { IfNone result (KeysAtLeast (pos 1) self.old) }
        ensures stays { IfNone result (self.new ≡ self.old) }
    {
        let Some(key) = self.table.first_key(0) else {
            return None;
        };
        if key != 0 {
            return None;
        }
        self.table.dequeue(0)
    }
}
