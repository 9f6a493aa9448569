//! How a message is sent and taken, and who waits for one (book, chapter 8).
//!
//! It depends on the tables. Each call is one move of the abstract machine.

ghost use Rattle.std.specs.Prelude.{◌≡◌, ◌≢◌, ◌≤ℤ◌, pos, true, None, IfSome, IfNone, if◌then◌else◌};
ghost use Rattle.process_core.specs.Tables.{wake_tick};
ghost use Rattle.xinu_model.specs.Machine.{CallState, with_tables};
ghost use Rattle.xinu_model.specs.Messages.{sent};
ghost use Rattle.xinu_model.specs.Tables.{InSleepers, message_at, move_to, Nowhere, process_at, state_at};

use crate::current::{block_current, sleep_current};
use crate::sending::{deliver, take_current};
use crate::tables::KernelTables;
use xinu_base::{Pid, Rest, State};

impl KernelTables {
    /// Sends `p` a word, unless it is free or holds one. True if and only if `p` waited for it, so that it is ready now and a resched
    /// is owed.
    pub fn send_to(&mut self, p: Pid, m: u32) -> bool
        ensures sent { (d : CallState) → d.state.tables ≡ self.old →
            sent p m d ≡ record (with_tables self.new d) { owes_resched = if result then true else d.owes_resched } }
    {
        deliver(
            &mut self.lists,
            &mut self.procs,
            &mut self.clock,
            &mut self.slots,
            p,
            m,
        )
    }

    /// Takes the message of the current process, which runs; nothing is left of its call then. `None`, and nothing changes, if and only
    /// if it holds none.
    pub fn take_message(&mut self) -> Option<u32>
        requires runs { state_at self.old self.old.current ≡ State.Current }
        ensures held { result ≡ message_at self.old self.old.current }
        ensures taken { IfSome result (λ _. self.new ≡ (let t = self.old in
            move_to t.current (record (process_at t t.current) { rest = Rest.Nothing }) None Nowhere t)) }
        ensures same { IfNone result (self.new ≡ self.old) }
    {
        let message = self.message_of(self.current());
        if message.is_some() {
            take_current(&mut self.procs, &mut self.slots);
        }
        message
    }

    /// The current process, which runs, isn't the null process and holds no message, waits for one without end.
    pub fn listen(&mut self)
        requires runs { state_at self.old self.old.current ≡ State.Current }
        requires not_null { self.old.current ≢ 0 }
        requires none { message_at self.old self.old.current ≡ None }
        ensures listens { self.new ≡ (let t = self.old in
            move_to t.current (record (process_at t t.current) { state = State.Receiving; rest = Rest.Receive })
            (message_at t t.current) Nowhere t) }
    {
        block_current(&mut self.procs, State::Receiving, Rest::Receive);
    }

    /// The same, and it waits for a delay in ticks, at least 1.
    pub fn listen_for(&mut self, delay: i32)
        requires runs { state_at self.old self.old.current ≡ State.Current }
        requires not_null { self.old.current ≢ 0 }
        requires none { message_at self.old self.old.current ≡ None }
        requires longer { pos 1 ≤ℤ delay }
        ensures listens { self.new ≡ (let t = self.old in
            move_to t.current (record (process_at t t.current) { state = State.Timed; rest = Rest.Timed })
            (message_at t t.current) (InSleepers (wake_tick t.ticks delay)) t) }
    {
        sleep_current(
            &mut self.lists,
            &mut self.procs,
            &mut self.clock,
            State::Timed,
            Rest::Timed,
            delay,
        );
    }
}
