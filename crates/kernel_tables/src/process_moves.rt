//! How a process becomes ready, is suspended, goes on, gets a priority, dies or is made, and the resched of an event (book, chapters 5, 6,
//! 9 and 18).
//!
//! It depends on the tables. Each call is one move of the abstract machine.

ghost use Rattle.std.specs.Prelude.{◌≡◌, ◌≢◌, ◌≤◌, None, Some, length};
ghost use Rattle.process_core.specs.Starts.{padded};
ghost use Rattle.xinu_model.specs.Process.Calls.{with_priority};
ghost use Rattle.xinu_model.specs.Process.Creation.{new_process};
ghost use Rattle.xinu_model.specs.Process.Scheduling as model;
ghost use Rattle.xinu_model.specs.Tables.{InReady, message_at, move_to, no_process, Nowhere, process_at, state_at};

use crate::current::{block_current, end_rest};
use crate::leaving::{bury, ready_waiter};
use crate::tables::KernelTables;
use xinu_base::{Pid, Rest, State};

impl KernelTables {
    /// The one resched of an event.
    pub fn resched(&mut self)
        ensures resched { self.new ≡ model.resched self.old }
    {
        self.procs.resched(&mut self.lists);
    }

    /// Makes `p`, which is suspended, ready.
    pub fn ready(&mut self, p: Pid)
        requires suspended { state_at self.old p ≡ State.Suspended }
        ensures ready { self.new ≡ model.ready p self.old }
    {
        self.procs.ready_defer(&mut self.lists, p);
    }

    /// Suspends `p`, which is ready and isn't the null process.
    pub fn suspend_ready(&mut self, p: Pid)
        requires ready { state_at self.old p ≡ State.Ready }
        requires not_null { p ≢ 0 }
        ensures suspended { self.new ≡ move_to p (model.in_state State.Suspended (process_at self.old p)) (message_at self.old p) Nowhere self.old }
    {
        self.procs.suspend_ready(&mut self.lists, p);
    }

    /// Sets the priority of `p`, which isn't free. A ready process enters the ready list again by its new key.
    pub fn set_priority(&mut self, p: Pid, n: i16)
        requires alive { state_at self.old p ≢ State.Free }
        ensures prioritized { self.new ≡ with_priority p n self.old }
    {
        self.procs.set_priority(&mut self.lists, p, n);
    }

    /// Frees the number of `p`, which isn't the null process: it leaves its list, and its message is lost.
    pub fn bury(&mut self, p: Pid)
        requires not_null { p ≢ 0 }
        ensures buried { self.new ≡ move_to p no_process None Nowhere self.old }
    {
        bury(
            &mut self.lists,
            &mut self.procs,
            &mut self.sems,
            &mut self.clock,
            &mut self.slots,
            p,
        );
    }

    /// Makes `p`, which waits on a semaphore, ready without a token. What is left of its call is to answer this reply of a disk.
    pub fn keep_reply(&mut self, p: Pid, reply: i32)
        requires waits { state_at self.old p ≡ State.Waiting }
        ensures kept { self.new ≡ move_to p (record (process_at self.old p) { state = State.Ready; rest = Rest.Disk (Some reply) }) (message_at self.old p) InReady self.old }
    {
        ready_waiter(
            &mut self.lists,
            &mut self.procs,
            &mut self.sems,
            p,
            Rest::Disk(Some(reply)),
        );
    }

    /// Suspends the current process, which runs and isn't the null process. What is left of its call is to answer its priority.
    pub fn suspend_self(&mut self)
        requires runs { state_at self.old self.old.current ≡ State.Current }
        requires not_null { self.old.current ≢ 0 }
        ensures suspended { self.new ≡ (let t = self.old in move_to t.current (record (process_at t t.current) { state = State.Suspended; rest = Rest.SelfSuspend }) (message_at t t.current) Nowhere t) }
    {
        block_current(&mut self.procs, State::Suspended, Rest::SelfSuspend);
    }

    /// Nothing is left of the call of the current process, which runs.
    pub fn go_on(&mut self)
        requires runs { state_at self.old self.old.current ≡ State.Current }
        ensures goes_on { self.new ≡ (let t = self.old in move_to t.current (record (process_at t t.current) { rest = Rest.Nothing }) (message_at t t.current) Nowhere t) }
    {
        end_rest(&mut self.procs);
    }

    /// Makes process `p`, whose number is free, suspended; the search for the next number begins after it. The name has at most 15
    /// bytes, and the stack is the address of its highest word and its size in bytes.
    pub fn make(&mut self, p: Pid, priority: i16, parent: Pid, name: &[u8], stack: (u32, u32))
        requires free { state_at self.old p ≡ State.Free }
        requires short { length name.now ≤ 15 }
        ensures made { self.new ≡ record (move_to p (new_process (padded name.now) priority parent stack.0 stack.1) None Nowhere self.old) { last_process = p } }
    {
        prove!(p.index() < 64);
        self.procs.make(p, priority, parent, name, stack);
        self.slots.clear(p);
    }
}
