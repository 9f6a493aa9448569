//! The search for a free number, which goes round: it begins after the number that was given last (book, chapters 5 and 7).

ghost use Rattle.std.specs.Prelude.{◌≡◌, ◌≤◌, ◌<◌, ◌-◌, not, is_some};
ghost use Rattle.std.specs.List.{find};
ghost use Rattle.xinu_model.specs.Process.Creation as creation;
ghost use Rattle.xinu_model.specs.Searches.{numbers_from};
ghost use Rattle.xinu_model.specs.Semaphores.Counts as counts;
ghost use Rattle.xinu_model.specs.Tables as model;

use crate::tables::Tables;
use xinu_base::{Pid, Sem, State};

impl Tables {
    /// The free number that the next process gets. `None` if and only if none is free.
    pub fn free_process(&self) -> Option<Pid>
        ensures found { result ≡ creation.free_process self.now }
    {
        let first = self.last_process.index() + 1;
        match self.process_from(first, 64) {
            Some(p) => Some(p),
            None => self.process_from(0, first),
        }
    }

    /// The free number that the next semaphore gets. `None` if and only if none is free.
    pub fn free_semaphore(&self) -> Option<Sem>
        ensures found { result ≡ counts.free_semaphore self.now }
    {
        let first = self.last_semaphore.index() + 1;
        match self.semaphore_from(first, 128) {
            Some(sem) => Some(sem),
            None => self.semaphore_from(0, first),
        }
    }

    // The first free process number from one on, below an end.
    fn process_from(&self, from: usize, end: usize) -> Option<Pid>
        requires within { end ≤ 64 }
        ensures first { result ≡ find (λ p. model.is_free (model.state_at self.now p)) (numbers_from from (end - from)) }
    {
        for number in from..end {
            let p = Pid::at(number);
            if self.is_free(p) {
                return Some(p);
            }
        }
        None
    }

    // The first free semaphore number from one on, below an end.
    fn semaphore_from(&self, from: usize, end: usize) -> Option<Sem>
        requires within { end ≤ 128 }
        ensures first { result ≡ find (λ sem. not (is_some (model.semaphore_at self.now sem).owner)) (numbers_from from (end - from)) }
    {
        for number in from..end {
            let sem = Sem::at(number);
            if self.is_unused(sem) {
                return Some(sem);
            }
        }
        None
    }

    // Whether the number of `p` is free.
    fn is_free(&self, p: Pid) -> bool
        ensures free { result ≡ model.is_free (model.state_at self.now p) }
    {
        matches!(self.process_at(p).state, State::Free)
    }

    // Whether semaphore `sem` is free.
    fn is_unused(&self, sem: Sem) -> bool
        ensures unused { result ≡ not (is_some (model.semaphore_at self.now sem).owner) }
    {
        self.owner_of(sem.index() as u32).is_none()
    }
}
