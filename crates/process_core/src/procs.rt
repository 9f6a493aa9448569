//! The process table, and what is read and written of one entry (book, chapter 4, `process.h`).
//!
//! It depends on nothing else of the crate. No fact is kept of it: what fits is said of it and the lists together.

ghost use Rattle.std.specs.Prelude.{◌≡◌, ◌↔◌, IsTrue, ◌<◌, IfOk, IfErr, drop, replicate, []};
ghost use Rattle.std.specs.List.{list_all};
ghost use Rattle.process_core.specs.Fits.{Fits};
ghost use Rattle.process_core.specs.Starts.{first_table};
ghost use Rattle.process_core.specs.Tables.{process_in, with_process, with_state};
ghost use Rattle.xinu_model.specs.Process.Scheduling.{is_current};
ghost use Rattle.xinu_model.specs.Process.Calls.{is_ready};
ghost use Rattle.xinu_model.specs.Tables.{is_free, no_process};

use crate::equality::are_equal;
use std::alloc::Global;
use std::marker::Model;
use xinu_base::{NoMemory, Pid, Process, QUANTUM, Rest, State};

/// The entries by process number, who runs now, for how many ticks it may go on, and the last number given. A clone is equal.
#[derive(Clone, Drop)]
pub struct Procs {
    // The processes, by number.
    pub(crate) entries: [Process; 64],
    // The current process.
    pub(crate) current: Pid,
    // The ticks that are left of the quantum.
    pub(crate) quantum: u8,
    // The last number given.
    pub(crate) last: Pid,
}

impl Model for Procs {
    ghost use Rattle.process_core.specs.Tables.{ProcessTable};

    ghost Value = { ProcessTable };

    ghost view = { λ p. record { processes = p.entries; current = p.current; quantum = p.quantum; last_process = p.last } };
}

impl Procs {
    /// The machine's table at the start: the null process alone, current, with priority 0 and the name `prnull`. It fits new lists, which
    /// are all empty. The table is part of the value, so there is always room for it, and this is never refused.
    pub fn new(_alloc: Global) -> Result<Self, NoMemory>
        ensures starts { IfOk result (λ s. s ≡ first_table) }
        ensures never { IfErr result (λ _. ⊥) }
        ensures fits { IfOk result (λ s. Fits (replicate 130 []) s.processes) }
    {
        let mut entries = [free_entry(); 64];
        entries[0].state = State::Current;
        entries[0].name = *b"prnull\0\0\0\0\0\0\0\0\0";
        Ok(Procs {
            entries,
            current: Pid::default(),
            quantum: QUANTUM,
            last: Pid::default(),
        })
    }

    /// Whether another table is equal: in all entries, the current process, what is left of the quantum, and the last number given.
    pub fn equals(&self, other: &Self) -> bool
        ensures equal { IsTrue result ↔ (self.now ≡ other.now) }
    {
        self.current == other.current
            && self.quantum == other.quantum
            && self.last == other.last
            && are_equal(&self.entries, &other.entries)
    }

    /// The current process.
    pub fn current(&self) -> Pid
        ensures current { result ≡ self.now.current }
    {
        self.current
    }

    /// The ticks that are left of the quantum.
    pub fn quantum(&self) -> u8
        ensures quantum { result ≡ self.now.quantum }
    {
        self.quantum
    }

    /// Whether no process is left but the null process.
    pub fn is_over(&self) -> bool
        ensures over { result ≡ list_all (λ x. is_free x.state) (drop 1 self.now.processes) }
    {
        let processes = &self.entries[..];
        are_free(&processes[1..])
    }

    /// The entry of `p`.
    pub fn process(&self, p: Pid) -> &Process
        ensures process { result.now ≡ process_in self.now.processes p }
    {
        &self.entries[p.index()]
    }

    /// Whether the current process is in state current: it neither waits nor is suspended or dead.
    pub fn is_running(&self) -> bool
        ensures running { result ≡ is_current (process_in self.now.processes self.now.current).state }
    {
        matches!(self.entries[self.current.index()].state, State::Current)
    }

    /// Sets what is left of the call of `p`, and nothing else.
    pub fn set_rest(&mut self, p: Pid, rest: Rest)
        ensures procs { self.new ≡ with_process p (record (process_in self.old.processes p) { rest = rest }) self.old }
    {
        self.entries[p.index()].rest = rest;
    }

    /// Puts `process` at the number of `p`.
    pub(crate) fn set_process(&mut self, p: Pid, process: Process)
        ensures procs { self.new ≡ with_process p process self.old }
    {
        self.entries[p.index()] = process;
    }

    /// Sets the state of `p`.
    pub(crate) fn set_state(&mut self, p: Pid, state: State)
        ensures procs { self.new ≡ with_state p state self.old }
    {
        self.entries[p.index()].state = state;
    }

    /// Makes `p` the current process, with a fresh quantum.
    pub(crate) fn set_current(&mut self, p: Pid)
        ensures procs { self.new ≡ record (with_state p State.Current self.old) { current = p; quantum = 2 } }
    {
        self.entries[p.index()].state = State::Current;
        self.current = p;
        self.quantum = QUANTUM;
    }

    /// Sets the priority of `p`, and leaves its key.
    pub(crate) fn set_key_priority(&mut self, p: Pid, priority: i16)
        ensures procs { self.new ≡ with_process p (record (process_in self.old.processes p) { priority = priority }) self.old }
    {
        self.entries[p.index()].priority = priority;
    }

    /// Whether the number of `p` is free.
    pub(crate) fn is_free(&self, p: Pid) -> bool
        ensures free { result ≡ is_free (process_in self.now.processes p).state }
    {
        matches!(self.entries[p.index()].state, State::Free)
    }

    /// Whether `p` is ready.
    pub(crate) fn is_ready(&self, p: Pid) -> bool
        ensures ready { result ≡ is_ready (process_in self.now.processes p).state }
    {
        matches!(self.entries[p.index()].state, State::Ready)
    }
}

/// What is at a free number.
pub(crate) fn free_entry() -> Process
    ensures entry { result ≡ no_process }
{
    Process {
        state: State::Free,
        priority: 0,
        parent: Pid::default(),
        name: [0; 15],
        stack: 0,
        stack_size: 0,
        rest: Rest::Nothing,
    }
}

// Whether the numbers of these are free.
fn are_free(processes: &[Process]) -> bool
    ensures free { result ≡ list_all (λ x. is_free x.state) processes.now }
{
    for process in processes {
        if !matches!(process.state, State::Free) {
            return false;
        }
    }
    true
}
