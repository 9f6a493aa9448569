//! Who becomes ready, who waits, and who runs (book, chapters 5 and 6, `ready.c`, `resched.c`, `suspend.c`, `chprio.c`).
//!
//! It depends on the process table and the lists. The ready list is queue 128; an entry's key is the priority of its process.

ghost use Rattle.std.specs.Prelude.{◌≡◌, ◌≢◌, ◌<◌, ◌-◌, ℕ, List, true, not, int_lt, nat_lt, if◌then◌else◌, IfSome, IfNone, None, Some};
ghost use Rattle.process_core.specs.Fits.{Fits, IsBlocked};
ghost use Rattle.process_core.specs.Tables.{Beside, process_in, tables_of, with_process, with_state};
ghost use Rattle.queue_table.specs.Lists.{Entry, first_process, list_at, place, rest_of, with_list, without};
ghost use Rattle.queue_table.specs.Table as table;
ghost use Rattle.xinu_base.specs.Insert.{ready_insert};
ghost use Rattle.xinu_model.specs.Process.Calls.{is_ready, with_priority};
ghost use Rattle.xinu_model.specs.Process.Scheduling as model;
ghost use Rattle.xinu_model.specs.Tables.{message_at, move_to, Nowhere, process_at};

use crate::procs::Procs;
use queue_table::Lists;
use xinu_base::{Pid, QUANTUM, State};

/// The queue of the ready list.
pub const READY: usize = 128;

/// The queue of the sleepers.
pub const SLEEPERS: usize = 129;

impl Procs {
    /// Sets the priority of `p`. If `p` is ready it leaves the ready list and is inserted anew by its new key.
    pub fn set_priority(&mut self, lists: &mut Lists, p: Pid, n: i16)
        requires fits { Fits (table.lists lists.old) self.old.processes }
        ensures procs { self.new ≡ with_process p (record (process_in self.old.processes p) { priority = n }) self.old }
        ensures lists { table.lists lists.new ≡ (let ls = table.lists lists.old in
            if is_ready (process_in self.old.processes p).state then with_list ls 128 (ready_insert p n (without p (list_at ls 128))) else ls) }
        ensures prioritized { (b : Beside) → tables_of (table.lists lists.new) self.new b ≡ with_priority p n (tables_of (table.lists lists.old) self.old b) }
        ensures others { (q : ℕ) → q ≢ 128 → list_at (table.lists lists.new) q ≡ list_at (table.lists lists.old) q }
        ensures fits { Fits (table.lists lists.new) self.new.processes }
    {
        let is_ready = self.is_ready(p);
        self.set_key_priority(p, n);
        if is_ready {
            lists.remove(p.index());
            lists.insert(p.index(), READY, i32::from(n));
        }
    }

    /// Makes `p`, which is in no list, ready. The resched is left to the end of the event.
    pub fn ready_defer(&mut self, lists: &mut Lists, p: Pid)
        requires absent { place (table.lists lists.old) p ≡ None }
        requires fits { Fits (table.lists lists.old) self.old.processes }
        ensures procs { self.new ≡ with_state p State.Ready self.old }
        ensures lists { table.lists lists.new ≡ (let ls = table.lists lists.old in
            with_list ls 128 (ready_insert p (process_in self.old.processes p).priority (list_at ls 128))) }
        ensures readied { (b : Beside) → tables_of (table.lists lists.new) self.new b ≡ model.ready p (tables_of (table.lists lists.old) self.old b) }
        ensures others { (q : ℕ) → q ≢ 128 → list_at (table.lists lists.new) q ≡ list_at (table.lists lists.old) q }
        ensures fits { Fits (table.lists lists.new) self.new.processes }
    {
        let priority = self.process(p).priority;
        self.set_state(p, State::Ready);
        lists.insert(p.index(), READY, i32::from(priority));
    }

    /// Puts the current process, which runs, into a state in which it waits or is suspended, and leaves it in no list. It stays current
    /// until the resched.
    pub fn block(&mut self, state: State)
        requires runs { (process_in self.old.processes self.old.current).state ≡ State.Current }
        requires blocks { IsBlocked state }
        ensures procs { self.new ≡ with_state self.old.current state self.old }
        ensures blocked { (ls : List (List Entry)) (b : Beside) → Fits ls self.old.processes → tables_of ls self.new b ≡ (let t = tables_of ls self.old b in
            move_to t.current (model.in_state state (process_at t t.current)) (message_at t t.current) Nowhere t) }
        ensures fits { (ls : List (List Entry)) → Fits ls self.old.processes → Fits ls self.new.processes }
    {
        let current = self.current();
        self.set_state(current, state);
    }

    /// Gives way to the first ready process, unless the ready list is empty, or the current process runs and has a greater priority
    /// than the first key. The process that became current; `None` if and only if nothing changes.
    pub fn resched(&mut self, lists: &mut Lists) -> Option<Pid>
        requires fits { Fits (table.lists lists.old) self.old.processes }
        ensures resched { (b : Beside) → tables_of (table.lists lists.new) self.new b ≡ model.resched (tables_of (table.lists lists.old) self.old b) }
        ensures answer { (b : Beside) → result ≡ (let t = tables_of (table.lists lists.old) self.old b in
            if model.keeps_cpu t.ready t then None else Some self.new.current) }
        ensures switched { IfSome result (λ p. p ≡ self.new.current) }
        ensures stayed { IfNone result (self.new ≡ self.old) }
        ensures same_lists { IfNone result (table.lists lists.new ≡ table.lists lists.old) }
        ensures others { (q : ℕ) → q ≢ 128 → list_at (table.lists lists.new) q ≡ list_at (table.lists lists.old) q }
        ensures fits { Fits (table.lists lists.new) self.new.processes }
    {
        let Some(key) = lists.first_key(READY) else {
            return None;
        };
        if self.is_running() {
            if self.is_above(key) {
                return None;
            }
            let current = self.current();
            self.ready_defer(lists, current);
        }
        self.dispatch_first(lists)
    }

    /// Takes `p`, which is ready, out of the ready list and suspends it. It is in no list then.
    pub fn suspend_ready(&mut self, lists: &mut Lists, p: Pid)
        requires ready { (process_in self.old.processes p).state ≡ State.Ready }
        requires fits { Fits (table.lists lists.old) self.old.processes }
        ensures procs { self.new ≡ with_state p State.Suspended self.old }
        ensures lists { table.lists lists.new ≡ with_list (table.lists lists.old) 128 (without p (list_at (table.lists lists.old) 128)) }
        ensures suspended { (b : Beside) → tables_of (table.lists lists.new) self.new b ≡ (let t = tables_of (table.lists lists.old) self.old b in
            move_to p (model.in_state State.Suspended (process_at t p)) (message_at t p) Nowhere t) }
        ensures others { (q : ℕ) → q ≢ 128 → list_at (table.lists lists.new) q ≡ list_at (table.lists lists.old) q }
        ensures fits { Fits (table.lists lists.new) self.new.processes }
    {
        self.set_state(p, State::Suspended);
        lists.remove(p.index());
    }

    /// Takes a tick off the quantum. True if and only if it came to 0; it is renewed then, and the caller owes a resched.
    pub fn quantum_tick(&mut self) -> bool
        ensures falls { result ≡ not (nat_lt 1 self.old.quantum) }
        ensures procs { self.new ≡ record self.old { quantum = if nat_lt 1 self.old.quantum then self.old.quantum - 1 else 2 } }
    {
        if self.quantum > 1 {
            self.quantum -= 1;
            false
        } else {
            self.quantum = QUANTUM;
            true
        }
    }

    // Whether the priority of the current process is greater than a key.
    fn is_above(&self, key: i32) -> bool
        ensures above { result ≡ int_lt key (process_in self.now.processes self.now.current).priority }
    {
        key < i32::from(self.process(self.current()).priority)
    }

    // The first ready process becomes the current one, with a fresh quantum. `None` if the ready list is empty.
    fn dispatch_first(&mut self, lists: &mut Lists) -> Option<Pid>
        requires fits { Fits (table.lists lists.old) self.old.processes }
        ensures dispatches { (b : Beside) → tables_of (table.lists lists.new) self.new b ≡ (let ls = table.lists lists.old in
            model.dispatch_first (list_at ls 128) (tables_of ls self.old b)) }
        ensures lists { table.lists lists.new ≡ with_list (table.lists lists.old) 128 (rest_of (list_at (table.lists lists.old) 128)) }
        ensures first { result ≡ first_process (list_at (table.lists lists.old) 128) }
        ensures switched { IfSome result (λ p. p ≡ self.new.current) }
        ensures fits { Fits (table.lists lists.new) self.new.processes }
    {
        match lists.dequeue(READY) {
            Some(first) => {
                let next = Pid::at(first);
                self.set_current(next);
                Some(next)
            }
            None => None,
        }
    }
}
