//! Who waits for a token, and who gets one (book, chapter 7, `wait.c`, `signal.c`, `signaln.c`, `semreset.c`, `kill.c`).
//!
//! It depends on the table of `sems`, the lists and the processes. The waiters of a semaphore are the list of the queue of its number.

ghost use Rattle.std.specs.Prelude.{◌≡◌, ◌≢◌, ◌<◌, ◌≤◌, ◌+◌, ◌-◌, ◌+ℤ◌, ◌-ℤ◌, ◌≤ℤ◌, ℕ, List, Option, IsSome, IsSomeAnd, int_lt, nat_lt, pos, false, drop, if◌then◌else◌, length, take, [], None};
ghost use Rattle.process_core.specs.Fits.{Fits};
ghost use Rattle.process_core.specs.Tables.{Beside, ProcessTable, numbers, process_in, tables_of};
ghost use Rattle.queue_table.specs.Lists.{all_without, first_process, list_at, place, rest_of};
ghost use Rattle.queue_table.specs.Table as table;
ghost use Rattle.xinu_base.specs.declared.processes.Process.{Process};
ghost use Rattle.xinu_model.specs.Process.Scheduling.{in_state, ready_all};
ghost use Rattle.xinu_model.specs.Semaphores.Counts.{most_tokens, with_tokens};
ghost use Rattle.xinu_model.specs.Tables.{InSemaphore, Nowhere, message_at, move_to, process_at, semaphore_at};

use crate::sems::Sems;
use arrayvec::ArrayVec;
use process_core::Procs;
use queue_table::Lists;
use xinu_base::{Pid, Sem, State};

/// What came of a signal.
#[derive(Clone, Copy, PartialEq, Eq)]
pub enum Signalled {
    /// The count is the greatest, and nothing changes.
    Full,
    /// There is one token more.
    Kept,
    /// The first waiter became ready.
    Released(Pid),
}

impl Sems {
    ghost use Rattle.semaphores.specs.Counts.{Counts, beside, entry_at, tokens_of, with_count};
    ghost use Rattle.semaphores.specs.Signals.{after_signal, signal_answer};

    /// Takes a token of `sem`, which is in use, or puts the current process, which runs, last among its waiters. True if and only if a
    /// token was taken.
    pub fn wait(&mut self, lists: &mut Lists, procs: &mut Procs, sem: Sem) -> bool
        requires used { IsSome (entry_at self.old.entries sem).owner }
        requires runs { (process_in procs.old.processes procs.old.current).state ≡ State.Current }
        requires fits { Fits (table.lists lists.old) procs.old.processes }
        requires counts { Counts (table.lists lists.old) self.old.entries }
        ensures took { (m : List (Option ℕ)) (ticks : ℕ) →
            result ≡ nat_lt 0 (semaphore_at (tables_of (table.lists lists.old) procs.old (beside self.old m ticks)) sem).tokens }
        ensures sems { self.new ≡ with_count sem ((entry_at self.old.entries sem).count -ℤ pos 1) self.old }
        ensures waits { (m : List (Option ℕ)) (ticks : ℕ) → tables_of (table.lists lists.new) procs.new (beside self.new m ticks) ≡
            (let t = tables_of (table.lists lists.old) procs.old (beside self.old m ticks) in
            if result then with_tokens sem ((semaphore_at t sem).tokens - 1) t
            else move_to t.current (in_state State.Waiting (process_at t t.current)) (message_at t t.current) (InSemaphore sem) t) }
        ensures others { (q : ℕ) → q ≢ sem → list_at (table.lists lists.new) q ≡ list_at (table.lists lists.old) q }
        ensures within { sem < 128 }
        ensures fits { Fits (table.lists lists.new) procs.new.processes }
        ensures counts { Counts (table.lists lists.new) self.new.entries }
    {
        let took = self.has_token(sem);
        self.lower(sem);
        if took {
            return true;
        }
        let current = procs.current();
        procs.block(State::Waiting);
        lists.enqueue(current.index(), sem.index());
        false
    }

    /// Gives `sem`, which is in use, a token, which makes its first waiter ready or is kept. `Full`, and nothing changes, if and only if
    /// the count is the greatest.
    pub fn signal(&mut self, lists: &mut Lists, procs: &mut Procs, sem: Sem) -> Signalled
        requires used { IsSome (entry_at self.old.entries sem).owner }
        requires fits { Fits (table.lists lists.old) procs.old.processes }
        requires counts { Counts (table.lists lists.old) self.old.entries }
        ensures answer { (m : List (Option ℕ)) (ticks : ℕ) →
            result ≡ signal_answer (semaphore_at (tables_of (table.lists lists.old) procs.old (beside self.old m ticks)) sem) }
        ensures signalled { (m : List (Option ℕ)) (ticks : ℕ) → tables_of (table.lists lists.new) procs.new (beside self.new m ticks) ≡
            after_signal result sem (tables_of (table.lists lists.old) procs.old (beside self.old m ticks)) }
        ensures others { (q : ℕ) → q ≢ sem → q ≢ 128 → list_at (table.lists lists.new) q ≡ list_at (table.lists lists.old) q }
        ensures within { sem < 128 }
        ensures fits { Fits (table.lists lists.new) procs.new.processes }
        ensures counts { Counts (table.lists lists.new) self.new.entries }
    {
        if !self.is_below(sem) {
            return Signalled::Full;
        }
        self.raise(sem, 1);
        match release(lists, procs, sem) {
            Some(p) => Signalled::Released(p),
            None => Signalled::Kept,
        }
    }

    /// Gives `sem`, which is in use, n tokens at once: its first n waiters become ready, in order, and what is left of n is kept. Those who
    /// became ready. The number n is below 2^31, and leaves the count within the greatest ([`Sems::has_room`]).
    pub fn signaln(
        &mut self,
        lists: &mut Lists,
        procs: &mut Procs,
        sem: Sem,
        n: u32,
    ) -> ArrayVec<Pid, 64>
        requires used { IsSome (entry_at self.old.entries sem).owner }
        requires signed { n ≤ 2147483647 }
        requires room { int_lt most_tokens ((entry_at self.old.entries sem).count +ℤ pos n) ≡ false }
        requires fits { Fits (table.lists lists.old) procs.old.processes }
        requires counts { Counts (table.lists lists.old) self.old.entries }
        ensures released { (m : List (Option ℕ)) (ticks : ℕ) →
            result.items ≡ take n (semaphore_at (tables_of (table.lists lists.old) procs.old (beside self.old m ticks)) sem).waiters }
        ensures signalled { (m : List (Option ℕ)) (ticks : ℕ) → tables_of (table.lists lists.new) procs.new (beside self.new m ticks) ≡
            (let t = tables_of (table.lists lists.old) procs.old (beside self.old m ticks) in let x = semaphore_at t sem in
            with_tokens sem (x.tokens + (n - length x.waiters)) (ready_all (take n x.waiters) t)) }
        ensures others { (q : ℕ) → q ≢ sem → q ≢ 128 → list_at (table.lists lists.new) q ≡ list_at (table.lists lists.old) q }
        ensures within { sem < 128 }
        ensures fits { Fits (table.lists lists.new) procs.new.processes }
        ensures counts { Counts (table.lists lists.new) self.new.entries }
    {
        let released = release_first(lists, procs, sem, n as usize);
        self.raise(sem, n);
        released
    }

    /// Makes all waiters of `sem`, which is in use, ready, in order, and leaves this count, which isn't negative. Those who waited.
    pub fn release_all(
        &mut self,
        lists: &mut Lists,
        procs: &mut Procs,
        sem: Sem,
        count: i32,
    ) -> ArrayVec<Pid, 64>
        requires used { IsSome (entry_at self.old.entries sem).owner }
        requires tokens { pos 0 ≤ℤ count }
        requires fits { Fits (table.lists lists.old) procs.old.processes }
        requires counts { Counts (table.lists lists.old) self.old.entries }
        ensures released { (m : List (Option ℕ)) (ticks : ℕ) →
            result.items ≡ (semaphore_at (tables_of (table.lists lists.old) procs.old (beside self.old m ticks)) sem).waiters }
        ensures reset { (m : List (Option ℕ)) (ticks : ℕ) → tables_of (table.lists lists.new) procs.new (beside self.new m ticks) ≡
            (let t = tables_of (table.lists lists.old) procs.old (beside self.old m ticks) in
            with_tokens sem (tokens_of count) (ready_all (semaphore_at t sem).waiters t)) }
        ensures sems { self.new ≡ with_count sem count self.old }
        ensures empty { list_at (table.lists lists.new) sem ≡ [] }
        ensures others { (q : ℕ) → q ≢ sem → q ≢ 128 → list_at (table.lists lists.new) q ≡ list_at (table.lists lists.old) q }
        ensures within { sem < 128 }
        ensures fits { Fits (table.lists lists.new) procs.new.processes }
        ensures counts { Counts (table.lists lists.new) self.new.entries }
    {
        let released = release_first(lists, procs, sem, 64);
        self.set_count(sem, count);
        released
    }

    /// Takes `p`, which waits on a semaphore, out of its waiters; the count rises by 1. `p` is in no list then.
    pub fn forget_waiter(&mut self, lists: &mut Lists, p: Pid)
        requires waits { IsSomeAnd (place (table.lists lists.old) p) (λ q. q < 128) }
        requires counts { Counts (table.lists lists.old) self.old.entries }
        ensures lists { table.lists lists.new ≡ all_without p (table.lists lists.old) }
        ensures forgotten { (s : ProcessTable) (m : List (Option ℕ)) (ticks : ℕ) →
            tables_of (table.lists lists.new) s (beside self.new m ticks) ≡
            (let t = tables_of (table.lists lists.old) s (beside self.old m ticks) in
            move_to p (process_at t p) (message_at t p) Nowhere t) }
        ensures absent { place (table.lists lists.new) p ≡ None }
        ensures others { (q : ℕ) → 128 ≤ q → list_at (table.lists lists.new) q ≡ list_at (table.lists lists.old) q }
        ensures fits { (ps : List Process) → Fits (table.lists lists.old) ps → Fits (table.lists lists.new) ps }
        ensures counts { Counts (table.lists lists.new) self.new.entries }
    {
        if let Some(q) = lists.place_of(p.index()) {
            self.raise(Sem::at(q), 1);
            lists.remove(p.index());
        }
    }
}

// Makes the first waiter of `sem` ready. `None` if and only if nobody waits.
fn release(lists: &mut Lists, procs: &mut Procs, sem: Sem) -> Option<Pid>
    requires fits { Fits (table.lists lists.old) procs.old.processes }
    ensures first { result ≡ first_process (list_at (table.lists lists.old) sem) }
    ensures readied { (b : Beside) → tables_of (table.lists lists.new) procs.new b ≡
        ready_all (take 1 (numbers (list_at (table.lists lists.old) sem))) (tables_of (table.lists lists.old) procs.old b) }
    ensures rest { list_at (table.lists lists.new) sem ≡ rest_of (list_at (table.lists lists.old) sem) }
    ensures others { (q : ℕ) → q ≢ sem → q ≢ 128 → list_at (table.lists lists.new) q ≡ list_at (table.lists lists.old) q }
    ensures within { sem < 128 }
    ensures fits { Fits (table.lists lists.new) procs.new.processes }
{
    match lists.dequeue(sem.index()) {
        Some(first) => {
            let p = Pid::at(first);
            procs.ready_defer(lists, p);
            Some(p)
        }
        None => None,
    }
}

// Makes the first waiters of `sem` ready, in order, but at most so many. Those who became ready.
fn release_first(lists: &mut Lists, procs: &mut Procs, sem: Sem, most: usize) -> ArrayVec<Pid, 64>
    requires fits { Fits (table.lists lists.old) procs.old.processes }
    ensures released { result.items ≡ take most (numbers (list_at (table.lists lists.old) sem)) }
    ensures readied { (b : Beside) → tables_of (table.lists lists.new) procs.new b ≡
        ready_all (take most (numbers (list_at (table.lists lists.old) sem))) (tables_of (table.lists lists.old) procs.old b) }
    ensures rest { list_at (table.lists lists.new) sem ≡ drop most (list_at (table.lists lists.old) sem) }
    ensures others { (q : ℕ) → q ≢ sem → q ≢ 128 → list_at (table.lists lists.new) q ≡ list_at (table.lists lists.old) q }
    ensures within { sem < 128 }
    ensures fits { Fits (table.lists lists.new) procs.new.processes }
{
    let mut released = ArrayVec::new();
    while released.len() < most {
        match release(lists, procs, sem) {
            Some(p) => released.push(p),
            None => return released,
        }
    }
    released
}
