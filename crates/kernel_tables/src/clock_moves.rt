//! Who sleeps, and a tick of the clock (book, chapter 13, `insertd.c`, `clkhandler.c`, `wakeup.c`).
//!
//! It depends on the tables. Each call is one move of the abstract machine.

ghost use Rattle.std.specs.Prelude.{◌≡◌, ◌≢◌, ◌≤◌, ◌+◌, ◌/◌, ◌<◌, ◌≤ℤ◌, pos};
ghost use Rattle.kernel_tables.specs.Waking.{are_any};
ghost use Rattle.process_core.specs.Tables.{wake_tick};
ghost use Rattle.xinu_model.specs.Process.Scheduling.{ready_all};
ghost use Rattle.xinu_model.specs.Clock.{a_tick_later, due, quantum_falls};
ghost use Rattle.xinu_model.specs.Tables.{InSleepers, message_at, move_to, process_at, state_at};

use crate::current::{sleep_current, spend};
use crate::tables::KernelTables;
use crate::waking::wake;
use arrayvec::ArrayVec;
use xinu_base::{Pid, Rest, State};

impl KernelTables {
    /// The seconds since the start: a thousand ticks are a second.
    #[tactic(auto, unfolding(process_core::specs::Tables::tables_of))]
    pub fn seconds(&self) -> u32
        ensures seconds { result ≡ self.now.ticks / 1000 }
        ensures few { result ≤ 4294967 }
    {
        self.clock.seconds()
    }

    /// The current process, which runs and isn't the null process, sleeps for a delay in ticks, at least 1. Nothing is left of its
    /// call.
    pub fn sleep(&mut self, delay: i32)
        requires runs { state_at self.old self.old.current ≡ State.Current }
        requires not_null { self.old.current ≢ 0 }
        requires longer { pos 1 ≤ℤ delay }
        ensures sleeps { self.new ≡ (let t = self.old in
            move_to t.current (record (process_at t t.current) { state = State.Sleeping; rest = Rest.Nothing })
            (message_at t t.current) (InSleepers (wake_tick t.ticks delay)) t) }
    {
        sleep_current(
            &mut self.lists,
            &mut self.procs,
            &mut self.clock,
            State::Sleeping,
            Rest::Nothing,
            delay,
        );
    }

    /// A tick of the clock: those whose tick has come become ready, with a resched if there are any; then the quantum falls. Those who
    /// became ready, in the order in which they lay down.
    pub fn tick(&mut self) -> ArrayVec<Pid, 64>
        requires few { self.old.ticks < 4294967295 }
        requires runs { state_at self.old self.old.current ≡ State.Current }
        ensures due { result.items ≡ due (self.old.ticks + 1) self.old.sleepers }
        ensures ticked { self.new ≡ quantum_falls (a_tick_later (are_any result.items) (ready_all result.items self.old)) }
    {
        let due = self.clock.tick(&mut self.lists);
        wake(&mut self.lists, &mut self.procs, due.as_slice());
        spend(&mut self.lists, &mut self.procs);
        due
    }
}
