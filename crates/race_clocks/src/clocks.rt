//! The clocks, row by row.

ghost use Rattle.std.specs.Prelude.{◌≡◌, ◌<◌, ◌+◌, ◌==◌, ℕ, IfOk, OnErr, if◌then◌else◌, length, max};
ghost use Rattle.happens_before.specs.Clocks.{join, own};
ghost use Rattle.race_clocks.specs.Rows.{clock_in, count, kept, knows};

use std::alloc::{AllocError, Global};
use std::marker::Model;

/// How many processes there are.
const PROCESSES: usize = 64;

/// The clock of each process, and the clocks of parts that are kept. Each process is a number below 64, and each name one below the count
/// of kept clocks.
#[derive(Drop)]
pub struct Clocks {
    knows: Vec<[u32; 64]>,
    kept: Vec<[u32; 64]>,
}

impl Model for Clocks {
    ghost use Rattle.std.specs.Prelude.{◌≡◌, length};
    ghost use Rattle.race_clocks.specs.Rows.{Held};

    ghost Value = { Held };

    ghost view = { λ x. record { processes = x.knows.items; parts = x.kept.items } };

    ghost invariant = { λ x. length x.knows.items ≡ 64 };
}

impl Clocks {
    /// No process knows anything, and no clock is kept.
    ///
    /// # Errors
    ///
    /// Out of memory.
    pub fn new(alloc: Global) -> Result<Clocks, AllocError>
        ensures nothing { IfOk result (λ x. (v u : ℕ) → knows x v u ≡ 0) }
        ensures none { IfOk result (λ x. count x ≡ 0) }
    {
        let knows = vec![in alloc; [0; 64]; PROCESSES]?;
        let kept = Vec::new(alloc);
        Ok(Clocks { knows, kept })
    }

    /// Up to which event what `u` did comes before what `v` does next. 0 if there is no process `u`.
    pub fn knows(&self, v: usize, u: usize) -> u32
        requires v_in { v < 64 }
        ensures knows { result ≡ knows self.now v u }
    {
        match self.knows[v].get(u) {
            Some(n) => *n,
            None => 0,
        }
    }

    /// Up to which event what `u` did comes before the part whose clock has this name, or is in it.
    pub fn kept(&self, name: usize, u: usize) -> u32
        requires name_in { name < count self.now }
        requires u_in { u < 64 }
        ensures kept { result ≡ kept self.now name u }
    {
        self.kept[name][u]
    }

    /// How many clocks are kept: their names are the numbers below.
    pub fn count(&self) -> usize
        ensures count { result ≡ count self.now }
    {
        self.kept.len()
    }

    /// Joins what `v` knows with the clock of this name (`join` of `happens_before`).
    pub fn learn(&mut self, v: usize, name: usize)
        requires v_in { v < 64 }
        requires name_in { name < count self.old }
        ensures learnt { (w u : ℕ) →
            knows self.new w u ≡ (if w == v then join (knows self.old v) (kept self.old name) u else knows self.old w u) }
        ensures kept { self.new.parts ≡ self.old.parts }
    {
        self.knows[v] = joined(&self.knows[v], &self.kept[name]);
    }

    /// Keeps the clock of `u`'s part in event `n` (`own` of `happens_before`) under a new name, and answers that.
    ///
    /// # Errors
    ///
    /// Out of memory: all is as it was.
    pub fn keep(&mut self, n: u32, u: usize) -> Result<usize, AllocError>
        requires u_in { u < 64 }
        ensures name { IfOk result (λ name. name ≡ count self.old) }
        ensures kept { IfOk result (λ name. (k w : ℕ) →
            kept self.new k w ≡ (if k == name then own n u (knows self.old u) w else kept self.old k w)) }
        ensures count { IfOk result (λ name. count self.new ≡ count self.old + 1) }
        ensures knows { self.new.processes ≡ self.old.processes }
        ensures refused { OnErr result (self.new ≡ self.old) }
    {
        let name = self.kept.len();
        let clock = owned(&self.knows[u], n, u);
        self.kept.push(clock)?;
        Ok(name)
    }

    /// Keeps the clock of `u`'s part in event `n` under a name, in place of the clock that had it. It takes no memory.
    pub fn keep_as(&mut self, name: usize, n: u32, u: usize)
        requires name_in { name < count self.old }
        requires u_in { u < 64 }
        ensures kept { (k w : ℕ) → kept self.new k w ≡ (if k == name then own n u (knows self.old u) w else kept self.old k w) }
        ensures count { count self.new ≡ count self.old }
        ensures knows { self.new.processes ≡ self.old.processes }
    {
        self.kept[name] = owned(&self.knows[u], n, u);
    }
}

// What two clocks say together.
fn joined(a: &[u32; 64], b: &[u32; 64]) -> [u32; 64]
    ensures joined { (u : ℕ) → clock_in result u ≡ join (clock_in a.now) (clock_in b.now) u }
{
    let mut both = *a;
    for u in 0..64 {
        both[u] = a[u].max(b[u]);
    }
    both
}

// The clock of a part of `u` in event `n`, of what `u` knows.
fn owned(clock: &[u32; 64], n: u32, u: usize) -> [u32; 64]
    requires u_in { u < 64 }
    ensures own { (w : ℕ) → clock_in result w ≡ own n u (clock_in clock.now) w }
{
    let mut own = *clock;
    own[u] = n;
    own
}
