//! How semaphores are made and given up, who waits for a token, and who gets one (book, chapter 7).
//!
//! It depends on the tables. Each call is one move of the abstract machine.

ghost use Rattle.std.specs.Prelude.{◌≡◌, ◌≢◌, ◌≤◌, ◌+◌, ◌-◌, ◌+ℤ◌, ◌≤ℤ◌, true, false, not, pos, Some, int_lt, nat_lt, length, take, IfSome, IfNone, IsSome, if◌then◌else◌};
ghost use Rattle.semaphores.specs.Counts.{number_for, tokens_of, two_numbers, with_made, with_two};
ghost use Rattle.semaphores.specs.Signals.{after_signal, signal_answer};
ghost use Rattle.xinu_model.specs.Process.Scheduling.{ready_all};
ghost use Rattle.xinu_model.specs.Semaphores.Counts.{count_of, is_good, most_tokens, with_semaphore, with_tokens};
ghost use Rattle.xinu_model.specs.Sound.Tables.{FitsOwner, IsInside};
ghost use Rattle.xinu_model.specs.Tables.{InSemaphore, message_at, move_to, no_semaphore, process_at, semaphore_at, state_at};

use crate::current::leave_rest;
use crate::tables::KernelTables;
use arrayvec::ArrayVec;
use semaphores::Signalled;
use xinu_base::{Owner, Pid, Rest, Sem, State};

impl KernelTables {
    /// The semaphore that a word names. `None` if and only if no process may name it: the word isn't below 128, or no process made the
    /// semaphore.
    pub fn good_semaphore(&self, word: u32) -> Option<Sem>
        ensures named { IfSome result (λ sem. sem ≡ word) }
        ensures good { IfSome result (λ sem. is_good sem self.now ≡ true) }
        ensures refused { IfNone result (is_good word self.now ≡ false) }
    {
        let _ = &self.sems;
        let sem = Sem::from_word(word)?;
        match self.owner_of(sem) {
            Some(Owner::Image) => Some(sem),
            _ => None,
        }
    }

    /// Whose `sem` is. `None` if and only if it is free.
    pub fn owner_of(&self, sem: Sem) -> Option<Owner>
        ensures owner { result ≡ (semaphore_at self.now sem).owner }
    {
        self.sems.owner_of(sem)
    }

    /// The tokens of `sem` less its waiters.
    pub fn count_of(&self, sem: Sem) -> i32
        ensures count { result ≡ count_of (semaphore_at self.now sem) }
    {
        self.sems.count(&self.lists, sem)
    }

    /// Whether n signals of `sem` leave its count within the greatest.
    pub fn has_room(&self, sem: Sem, n: u32) -> bool
        ensures room { result ≡ not (int_lt most_tokens (count_of (semaphore_at self.now sem) +ℤ pos n)) }
    {
        self.sems.has_room(&self.lists, sem, n)
    }

    /// A new semaphore with this count, for an owner that isn't a device. `None`, and nothing changes, if and only if the count is
    /// negative or no number is free.
    pub fn make_semaphore(&mut self, owner: Owner, count: i32) -> Option<Sem>
        requires no_device { owner ≢ Owner.Device }
        ensures found { result ≡ number_for count self.old }
        ensures made { self.new ≡ with_made result owner count self.old }
    {
        self.sems.create(owner, count)
    }

    /// Two new semaphores of one owner that isn't a device, the first with this count and the second with no tokens. `None`, and nothing
    /// changes, if and only if the count is negative or fewer than two numbers are free.
    pub fn make_two_semaphores(&mut self, owner: &Owner, count: i32) -> Option<(Sem, Sem)>
        requires no_device { owner.now ≢ Owner.Device }
        ensures found { result ≡ two_numbers owner.now count self.old }
        ensures made { self.new ≡ with_two result owner.now count self.old }
    {
        self.sems.create_two(owner, count)
    }

    /// Takes a token of `sem`, or puts the current process, which runs and isn't the null process, last among its waiters, with this
    /// left of its call, as it is of calls that wait for what the owner of `sem` gives. True if and only if a token was taken.
    pub fn wait(&mut self, sem: Sem, rest: Rest) -> bool
        requires runs { state_at self.old self.old.current ≡ State.Current }
        requires not_null { self.old.current ≢ 0 }
        requires owner { FitsOwner sem (semaphore_at self.old sem).owner rest }
        ensures took { result ≡ nat_lt 0 (semaphore_at self.old sem).tokens }
        ensures waits { self.new ≡ (let t = self.old in
            if result then with_tokens sem ((semaphore_at t sem).tokens - 1) t
            else move_to t.current (record (process_at t t.current) { state = State.Waiting; rest = rest })
            (message_at t t.current) (InSemaphore sem) t) }
    {
        let took = self.sems.wait(&mut self.lists, &mut self.procs, sem);
        leave_rest(&mut self.procs, took, rest);
        took
    }

    /// Gives `sem`, which is in use, a token, which makes its first waiter ready or is kept. Refused if the count is the greatest. The
    /// tables were as at each moment of an event, so whoever waited is in a call that waits for what the owner of `sem` gives.
    pub fn signal(&mut self, sem: Sem) -> Signalled
        requires used { IsSome (semaphore_at self.old sem).owner }
        ensures inside { IsInside self.old }
        ensures answer { result ≡ signal_answer (semaphore_at self.old sem) }
        ensures signalled { self.new ≡ after_signal result sem self.old }
    {
        self.sems.signal(&mut self.lists, &mut self.procs, sem)
    }

    /// Gives `sem` n tokens at once, which leave its count within the greatest: its first n waiters become ready, in order, and what is
    /// left of n is kept. Those who became ready.
    pub fn signaln(&mut self, sem: Sem, n: u32) -> ArrayVec<Pid, 64>
        requires runs { state_at self.old self.old.current ≡ State.Current }
        requires used { IsSome (semaphore_at self.old sem).owner }
        requires signed { n ≤ 2147483647 }
        requires room { int_lt most_tokens (count_of (semaphore_at self.old sem) +ℤ pos n) ≡ false }
        ensures released { result.items ≡ take n (semaphore_at self.old sem).waiters }
        ensures signalled { self.new ≡ (let t = self.old in let x = semaphore_at t sem in
            with_tokens sem (x.tokens + (n - length x.waiters)) (ready_all (take n x.waiters) t)) }
    {
        self.sems.signaln(&mut self.lists, &mut self.procs, sem, n)
    }

    /// Makes all waiters of `sem` ready, in order, and leaves this count, which isn't negative. Those who waited.
    pub fn reset_semaphore(&mut self, sem: Sem, count: i32) -> ArrayVec<Pid, 64>
        requires runs { state_at self.old self.old.current ≡ State.Current }
        requires used { IsSome (semaphore_at self.old sem).owner }
        requires tokens { pos 0 ≤ℤ count }
        ensures released { result.items ≡ (semaphore_at self.old sem).waiters }
        ensures reset { self.new ≡ (let t = self.old in with_tokens sem (tokens_of count) (ready_all (semaphore_at t sem).waiters t)) }
    {
        self.sems
            .release_all(&mut self.lists, &mut self.procs, sem, count)
    }

    /// Makes all waiters of `sem`, which isn't a device's, ready in order, and gives it up. Those who waited.
    pub fn delete_semaphore(&mut self, sem: Sem) -> ArrayVec<Pid, 64>
        requires runs { state_at self.old self.old.current ≡ State.Current }
        requires used { IsSome (semaphore_at self.old sem).owner }
        requires no_device { (semaphore_at self.old sem).owner ≢ Some Owner.Device }
        ensures released { result.items ≡ (semaphore_at self.old sem).waiters }
        ensures deleted { self.new ≡ (let t = self.old in with_semaphore sem no_semaphore (ready_all (semaphore_at t sem).waiters t)) }
    {
        let released = self
            .sems
            .release_all(&mut self.lists, &mut self.procs, sem, 0);
        self.sems.delete(&self.lists, sem);
        released
    }
}
