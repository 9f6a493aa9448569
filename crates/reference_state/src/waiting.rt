//! What a signal does to those who wait, and a wait to its caller (book, chapter 7).

ghost use Rattle.std.specs.Prelude.{◌≡◌, ◌≤◌, IfOk, if◌then◌else◌, int_lt, true, false, pos, ◌+ℤ◌};
ghost use Rattle.reference_state.specs.Answers.{IsStart};
ghost use Rattle.xinu_model.specs.Machine.{Xinu, CallResult, Waits, with_tables};
ghost use Rattle.xinu_model.specs.Semaphores.Counts.{count_of, most_tokens, with_tokens};
ghost use Rattle.xinu_model.specs.Semaphores.Waiting as model;
ghost use Rattle.xinu_model.specs.Tables.{semaphore_at};

use crate::machine::Machine;
use reference_tables::Place;
use xinu_base::{NoMemory, Rest, State};

impl Machine {
    /// Semaphore `sem` has n tokens, at most as many as the greatest count.
    pub fn set_tokens(&mut self, sem: u32, n: u32)
        requires most { n ≤ 2147483647 }
        ensures tokens { self.new ≡ with_tables (with_tokens sem n self.old.state.tables) self.old }
    {
        self.tables.set_tokens(sem, n);
    }

    /// One signal: the first waiter is released; if nobody waits there is one token more. The count is below the greatest.
    pub fn signalled(&mut self, sem: u32) -> Result<(), NoMemory>
        requires room { int_lt (count_of (semaphore_at self.old.state.tables sem)) most_tokens ≡ true }
        ensures signalled { IfOk result (λ _. self.new ≡ model.signalled sem self.old) }
    {
        let waiters = self.tables.waiters_of(sem)?;
        match waiters.first() {
            Some(p) => self.unblock_with(0, *p),
            None => {
                let n = self.tables.tokens_of(sem) + 1;
                self.set_tokens(sem, n);
                Ok(())
            }
        }
    }

    /// n signals: the first n waiters are released, and what is left of n are tokens. The count doesn't pass the greatest.
    pub fn signalled_times(&mut self, sem: u32, n: u32) -> Result<(), NoMemory>
        requires room { int_lt most_tokens (count_of (semaphore_at self.old.state.tables sem) +ℤ pos n) ≡ false }
        ensures signalled { IfOk result (λ _. self.new ≡ model.signalled_times sem n self.old) }
    {
        let waiters = self.tables.waiters_of(sem)?;
        let tokens = self.tables.tokens_of(sem);
        let wanted = n as usize;
        if wanted <= waiters.len() {
            self.unblock_all_with(0, &waiters[..wanted])?;
            self.set_tokens(sem, tokens);
        } else {
            self.unblock_all_with(0, &waiters)?;
            self.set_tokens(sem, tokens + (n - waiters.len() as u32));
        }
        Ok(())
    }

    /// All who wait on semaphore `sem` are released, with this answer.
    pub fn emptied_with(&mut self, value: i32, sem: u32) -> Result<(), NoMemory>
        ensures emptied { IfOk result (λ _. self.new ≡ model.emptied_with value sem self.old) }
    {
        let waiters = self.tables.waiters_of(sem)?;
        self.unblock_all_with(value, &waiters)
    }

    /// The caller takes a token of semaphore `sem`, or waits there with this left of its call; whether there was a token. What follows a
    /// token in the definition is `then_`.
    pub fn await_token(&mut self, sem: u32, rest: Rest) -> Result<bool, NoMemory>
        requires start { IsStart self.old }
        ensures awaits { IfOk result (λ took. (then_ : Xinu → CallResult) → model.await sem rest then_ self.old.state ≡
            (if took then then_ self.new.state else record { call = self.new; answer = Waits })) }
        ensures start { IfOk result (λ _. IsStart self.new) }
    {
        let tokens = self.tables.tokens_of(sem);
        if tokens == 0 {
            self.blocked(State::Waiting, rest, Place::InSemaphore(sem))?;
            return Ok(false);
        }
        self.set_tokens(sem, tokens - 1);
        Ok(true)
    }
}
