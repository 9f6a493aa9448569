//! Semaphores: the owner, the tokens and the waiters of each, and its count (book, chapter 7).

ghost use Rattle.std.specs.Prelude.{◌≡◌, ◌≤◌, IfOk, []};
ghost use Rattle.xinu_model.specs.Tables as model;

use crate::lists::{copied, leave, push, set};
use crate::tables::Tables;
use std::marker::Model;
use xinu_base::{NoMemory, Owner, Pid, Sem};

/// A semaphore: whose it is, its tokens, and the processes that wait, in order. There are at most as many tokens as the greatest count.
#[derive(Drop)]
pub struct Semaphore {
    /// Whose it is, if it is in use.
    pub owner: Option<Owner>,
    /// Its tokens.
    pub tokens: u32,
    /// Who waits.
    pub waiters: Vec<Pid>,
}

impl Model for Semaphore {
    ghost use Rattle.std.specs.Prelude.{◌≤◌};
    ghost use Rattle.xinu_model.specs.Tables as model;

    ghost Value = { model.Semaphore };

    ghost view = { λ x. record { owner = x.owner; tokens = x.tokens; waiters = x.waiters.items } };

    ghost invariant = { λ x. x.tokens ≤ 2147483647 };
}

impl Tables {
    ghost use Rattle.xinu_model.specs.Semaphores.Counts as counts;
    ghost use Rattle.xinu_model.specs.Tables as model;

    /// Whose semaphore `sem` is, if it is in use.
    pub fn owner_of(&self, sem: u32) -> Option<Owner>
        ensures owner { result ≡ (model.semaphore_at self.now sem).owner }
    {
        match self.semaphores.get(sem as usize) {
            Some(x) => x.owner,
            None => None,
        }
    }

    /// Whether a process may name semaphore `sem`: it is in use, and one that a process made.
    pub fn is_good(&self, sem: u32) -> bool
        ensures good { result ≡ counts.is_good sem self.now }
    {
        match self.owner_of(sem) {
            Some(Owner::Image) => true,
            _ => false,
        }
    }

    /// The tokens of semaphore `sem`.
    pub fn tokens_of(&self, sem: u32) -> u32
        ensures tokens { result ≡ (model.semaphore_at self.now sem).tokens }
        ensures most { result ≤ 2147483647 }
    {
        match self.semaphores.get(sem as usize) {
            Some(x) => x.tokens,
            None => 0,
        }
    }

    /// Who waits on semaphore `sem`, in order.
    pub fn waiters_of(&self, sem: u32) -> Result<Vec<Pid>, NoMemory>
        ensures waiters { IfOk result (λ l. l.items ≡ (model.semaphore_at self.now sem).waiters) }
    {
        match self.semaphores.get(sem as usize) {
            Some(x) => copied(&x.waiters),
            None => Ok(Vec::new(*self.ready.allocator())),
        }
    }

    /// The count of semaphore `sem`: its tokens less its waiters.
    pub fn count_of(&self, sem: u32) -> i64
        ensures count { result ≡ counts.count_of (model.semaphore_at self.now sem) }
    {
        match self.semaphores.get(sem as usize) {
            Some(x) => x.count(),
            None => 0,
        }
    }

    /// Semaphore `sem` has n tokens, at most as many as the greatest count.
    pub fn set_tokens(&mut self, sem: u32, n: u32)
        requires most { n ≤ 2147483647 }
        ensures tokens { self.new ≡ counts.with_tokens sem n self.old }
    {
        if let Some(x) = self.semaphores.get_mut(sem as usize) {
            x.set_tokens(n);
        }
    }

    // Semaphore `sem` is `x` from now on.
    fn set_semaphore(&mut self, sem: u32, x: Semaphore)
        ensures semaphore { self.new ≡ counts.with_semaphore sem x self.old }
    {
        set(&mut self.semaphores, sem as usize, x);
    }

    /// Semaphore `sem` is given up: it is what it was at the start.
    pub fn free_semaphore_at(&mut self, sem: u32)
        ensures freed { self.new ≡ counts.with_semaphore sem model.no_semaphore self.old }
    {
        let x = no_semaphore(Vec::new(*self.ready.allocator()));
        self.set_semaphore(sem, x);
    }

    /// Semaphore `sem` is made, with an owner and n tokens, at most as many as the greatest count.
    pub fn make_semaphore(&mut self, sem: Sem, by: Owner, n: u32)
        requires most { n ≤ 2147483647 }
        ensures made { self.new ≡ counts.make_semaphore sem by n self.old }
    {
        let x = Semaphore {
            owner: Some(by),
            tokens: n,
            waiters: Vec::new(*self.ready.allocator()),
        };
        self.set_semaphore(sem.index() as u32, x);
        self.set_last_semaphore(sem);
    }

    // The last number given.
    fn set_last_semaphore(&mut self, sem: Sem)
        ensures last { self.new ≡ record self.old { last_semaphore = sem } }
    {
        self.last_semaphore = sem;
    }
}

// What is at a free number.
fn no_semaphore(waiters: Vec<Pid>) -> Semaphore
    requires none { waiters.items ≡ [] }
    ensures free { result ≡ model.no_semaphore }
{
    Semaphore {
        owner: None,
        tokens: 0,
        waiters,
    }
}

impl Semaphore {
    ghost use Rattle.xinu_model.specs.Semaphores.Counts as counts;
    ghost use Rattle.xinu_model.specs.Tables as model;

    // Its tokens less its waiters.
    fn count(&self) -> i64
        ensures count { result ≡ counts.count_of self.now }
    {
        i64::from(self.tokens) - self.waiters.len() as i64
    }

    // It has n tokens.
    fn set_tokens(&mut self, n: u32)
        requires most { n ≤ 2147483647 }
        ensures tokens { self.new ≡ record self.old { tokens = n } }
    {
        self.tokens = n;
    }

    // `p` doesn't wait.
    fn leave(&mut self, p: Pid)
        ensures without { self.new ≡ model.semaphore_without p self.old }
    {
        leave(&mut self.waiters, p);
    }

    // `p` is the last waiter.
    fn join(&mut self, p: Pid) -> Result<(), NoMemory>
        ensures joined { IfOk result (λ _. self.new ≡ model.with_waiter p self.old) }
    {
        push(&mut self.waiters, p)
    }
}

// The semaphores, if `p` waits on none.
pub(crate) fn leave_semaphores(list: &mut Vec<Semaphore>, p: Pid)
    ensures without { list.new.items ≡ model.waits_without p list.old.items }
{
    for x in list.iter_mut() {
        x.leave(p);
    }
}

// `p` is the last waiter of a semaphore.
pub(crate) fn join_waiters(list: &mut Vec<Semaphore>, sem: u32, p: Pid) -> Result<(), NoMemory>
    ensures joined { IfOk result (λ _. list.new.items ≡ model.semaphores_in (model.InSemaphore sem) p list.old.items) }
{
    match list.get_mut(sem as usize) {
        Some(x) => x.join(p),
        None => Ok(()),
    }
}
