//! The clock's part of the tables: who wakes, and what a tick does (book, chapter 13).

ghost use Rattle.std.specs.Prelude.{◌≡◌, ◌<◌, ◌+◌, IfOk, if◌then◌else◌};
ghost use Rattle.xinu_model.specs.Clock as model;
ghost use Rattle.xinu_model.specs.Process.Scheduling.{resched};

use crate::lists::push;
use crate::tables::Tables;
use xinu_base::{NoMemory, Pid, QUANTUM};

impl Tables {
    /// The processes that wake at a tick, in the order in which they lie down.
    pub fn due(&self, tick: u32) -> Result<Vec<Pid>, NoMemory>
        ensures due { IfOk result (λ l. l.items ≡ model.due tick self.now.sleepers) }
    {
        let mut due = Vec::new(*self.sleepers.allocator());
        for e in &self.sleepers {
            if e.1 == tick {
                push(&mut due, e.0)?;
            }
        }
        Ok(due)
    }

    /// A tick of the tables: one tick later there is a resched if one is owed, and then the quantum falls.
    pub fn tick(&mut self, owes: bool) -> Result<(), NoMemory>
        requires few { self.old.ticks < 4294967295 }
        ensures ticked { IfOk result (λ _. self.new ≡ model.quantum_falls (model.a_tick_later owes self.old)) }
    {
        self.count_tick();
        if owes {
            self.resched()?;
        }
        self.quantum_falls()
    }

    // The quantum falls by one; if it comes to 0 it is 2 again, and there is a resched.
    fn quantum_falls(&mut self) -> Result<(), NoMemory>
        ensures falls { IfOk result (λ _. self.new ≡ model.quantum_falls self.old) }
    {
        if self.lower_quantum() {
            return Ok(());
        }
        self.resched()
    }

    // The quantum falls by one, or is fresh again; whether it fell.
    fn lower_quantum(&mut self) -> bool
        ensures lowered { model.quantum_falls self.old ≡ (if result then self.new else resched self.new) }
    {
        if self.quantum > 1 {
            self.quantum -= 1;
            return true;
        }
        self.quantum = QUANTUM;
        false
    }

    // One tick later.
    fn count_tick(&mut self)
        requires few { self.old.ticks < 4294967295 }
        ensures counted { self.new ≡ record self.old { ticks = self.old.ticks + 1 } }
    {
        self.ticks += 1;
    }
}
