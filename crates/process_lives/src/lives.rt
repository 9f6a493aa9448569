//! The lives of the processes.

ghost use Rattle.std.specs.Prelude.{◌≡◌, ◌<◌, ℕ};
ghost use Rattle.process_lives.specs.Lives as spec;
ghost use Rattle.xinu_model.specs.Tables.{state_at};

use kernel_tables::KernelTables;
use std::marker::Model;
use xinu_base::{Pid, State};

/// What a process does, and since when.
#[derive(Clone, Copy)]
pub struct Life {
    /// The state that it is in.
    pub state: State,
    /// The number of the event since which it is in that state, 0 if it was from the start.
    pub since: u64,
    /// The ticks at that event.
    pub tick: u32,
    /// Whether it ever ran.
    pub has_run: bool,
}

/// No process.
const NOBODY: Life = Life {
    state: State::Free,
    since: 0,
    tick: 0,
    has_run: false,
};

/// What each process does, and since when.
pub struct Lives {
    // By the numbers of the processes.
    lives: [Life; 64],
}

impl Drop for Lives {
    fn drop(self) {
        let Lives { lives: _lives } = self;
    }
}

impl Model for Lives {
    ghost use Rattle.std.specs.Prelude.{List};
    ghost use Rattle.process_lives.specs.declared.lives.Life.{Life};

    ghost Value = { List Life };

    ghost view = { λ x. x.lives };
}

impl Lives {
    /// Before the first event of a run.
    pub fn new(tables: &KernelTables) -> Lives
        ensures first { (p : ℕ) → p < 64 → spec.life_in result p ≡ spec.first_life tables.now p }
    {
        Lives {
            lives: begun(tables),
        }
    }

    /// Notes the tables after the event of a number, which counts from 1.
    pub fn note(&mut self, tables: &KernelTables, number: u64)
        ensures noted { (p : ℕ) → p < 64 → spec.life_in self.new p ≡ spec.next_life number tables.now p (spec.life_in self.old p) }
    {
        self.lives = noted(&self.lives, tables, number);
    }

    /// The life of a process.
    pub fn life(&self, p: Pid) -> Life
        ensures life { result ≡ spec.life_in self.now p }
    {
        self.lives[p.index()]
    }
}

// The lives of the processes before the first event.
fn begun(tables: &KernelTables) -> [Life; 64]
    ensures begun { (p : ℕ) → p < 64 → spec.life_in result p ≡ spec.first_life tables.now p }
{
    let mut lives = [NOBODY; 64];
    for p in 0..64 {
        lives[p] = first_life(tables, p);
    }
    lives
}

// The lives of the processes after one event more.
fn noted(before: &[Life; 64], tables: &KernelTables, number: u64) -> [Life; 64]
    ensures noted { (p : ℕ) → p < 64 → spec.life_in result p ≡ spec.next_life number tables.now p (spec.life_in before.now p) }
{
    let mut lives = *before;
    for p in 0..64 {
        lives[p] = next_life(&before[p], tables, p, number);
    }
    lives
}

// The life of a process before the first event.
fn first_life(tables: &KernelTables, p: usize) -> Life
    requires below { p < 64 }
    ensures first { result ≡ spec.first_life tables.now p }
{
    let state = state_of(tables, p);
    Life {
        state,
        since: 0,
        tick: tables.ticks(),
        has_run: matches!(state, State::Current),
    }
}

// The life of a process after one event more.
fn next_life(life: &Life, tables: &KernelTables, p: usize, number: u64) -> Life
    requires below { p < 64 }
    ensures next { result ≡ spec.next_life number tables.now p life.now }
{
    let state = state_of(tables, p);
    if life.state as u8 == state as u8 {
        return *life;
    }
    Life {
        state,
        since: number,
        tick: tables.ticks(),
        has_run: matches!(state, State::Current)
            || (life.has_run && !matches!(life.state, State::Free)),
    }
}

// The state of a process.
fn state_of(tables: &KernelTables, p: usize) -> State
    requires below { p < 64 }
    ensures state { result ≡ state_at tables.now p }
{
    tables.process(Pid::at(p)).state
}
