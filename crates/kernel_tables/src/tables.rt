//! The kernel's tables as one value, and what is read of them (book, chapters 4 to 8 and 13).
//!
//! It depends on lists, processes, semaphores, messages and the clock, and keeps true what holds of the abstract machine's tables at each
//! moment of an event. The crates above name no list. The moves are in `process_moves.rt`, `semaphore_moves.rt`, `message_moves.rt` and
//! `clock_moves.rt`.

ghost use Rattle.std.specs.List.{list_all};
ghost use Rattle.std.specs.Prelude.{◌≡◌, ◌≢◌, ◌↔◌, IsTrue, IfSome, IfNone, IfOk, drop};
ghost use Rattle.xinu_model.specs.Boot.{null_tables};
ghost use Rattle.xinu_model.specs.Process.Creation.{free_process};
ghost use Rattle.xinu_model.specs.Tables.{is_free, message_at, process_at, state_at};

use delta_clock::Clock;
use messages::Slots;
use process_core::Procs;
use queue_table::Lists;
use semaphores::Sems;
use std::alloc::Global;
use std::marker::Model;
use xinu_base::{NoMemory, Pid, Process, Rest, State};

/// The tables. A clause sees those of the abstract machine.
#[derive(Clone)]
pub struct KernelTables {
    /// The ready list, the waiters of each semaphore, and the sleepers.
    pub(crate) lists: Lists,
    /// The processes.
    pub(crate) procs: Procs,
    /// Whose each semaphore is, and its count.
    pub(crate) sems: Sems,
    /// The messages of the processes.
    pub(crate) slots: Slots,
    /// The ticks since the start.
    pub(crate) clock: Clock,
}

impl Drop for KernelTables {
    fn drop(self) {
        let KernelTables {
            lists: _lists,
            procs: _procs,
            sems: _sems,
            slots: _slots,
            clock: _clock,
        } = self;
    }
}

impl Model for KernelTables {
    ghost use Rattle.xinu_model.specs.Tables.{Tables};

    ghost Value = { Tables };

    ghost use Rattle.kernel_tables.specs.KernelTables.{kernel_tables, AreTables};

    ghost view = { kernel_tables };

    ghost invariant = { AreTables };
}

impl KernelTables {
    /// The tables at the start: the null process alone.
    ///
    /// # Errors
    ///
    /// `NoMemory` if there is no memory for the lists.
    pub fn new(alloc: Global) -> Result<Self, NoMemory>
        ensures starts { IfOk result (λ t. t ≡ null_tables) }
    {
        let lists = Lists::new(alloc)?;
        let procs = Procs::new(alloc)?;
        let sems = Sems::new(alloc)?;
        let slots = Slots::new(alloc)?;
        Ok(KernelTables {
            lists,
            procs,
            sems,
            slots,
            clock: Clock::new(),
        })
    }

    /// The current process.
    #[tactic(auto, unfolding(process_core::specs::Tables::tables_of))]
    pub fn current(&self) -> Pid
        ensures current { result ≡ self.now.current }
    {
        self.procs.current()
    }

    /// The ticks since the start.
    #[tactic(auto, unfolding(process_core::specs::Tables::tables_of))]
    pub fn ticks(&self) -> u32
        ensures ticks { result ≡ self.now.ticks }
    {
        self.clock.ticks()
    }

    /// The ticks that are left of the quantum.
    #[tactic(auto, unfolding(process_core::specs::Tables::tables_of))]
    pub fn quantum(&self) -> u8
        ensures quantum { result ≡ self.now.quantum }
    {
        self.procs.quantum()
    }

    /// Whether no process is left but the null process.
    #[tactic(auto, unfolding(process_core::specs::Tables::tables_of))]
    pub fn is_over(&self) -> bool
        ensures over { result ≡ list_all (λ x. is_free x.state) (drop 1 self.now.processes) }
    {
        self.procs.is_over()
    }

    /// The process that a word names. `None` if and only if there is none: the word isn't below 64, or the number is free.
    pub fn alive(&self, word: u32) -> Option<Pid>
        ensures named { IfSome result (λ p. p ≡ word) }
        ensures alive { IfSome result (λ p. state_at self.now p ≢ State.Free) }
        ensures free { IfNone result (state_at self.now word ≡ State.Free) }
    {
        let _ = &self.procs;
        let p = Pid::from_word(word)?;
        if matches!(self.process(p).state, State::Free) {
            return None;
        }
        Some(p)
    }

    /// The entry of `p`.
    #[tactic(auto, unfolding(process_core::specs::Tables::tables_of))]
    pub fn process(&self, p: Pid) -> &Process
        ensures process { result.now ≡ process_at self.now p }
    {
        self.procs.process(p)
    }

    /// The message that `p` holds.
    #[tactic(auto, unfolding(process_core::specs::Tables::tables_of))]
    pub fn message_of(&self, p: Pid) -> Option<u32>
        ensures message { result ≡ message_at self.now p }
    {
        self.slots.peek(p)
    }

    /// Whether nothing is left of the current process's call, so that its next step is an instruction.
    #[tactic(auto, unfolding(process_core::specs::Tables::tables_of))]
    pub fn is_done(&self) -> bool
        ensures done { IsTrue result ↔ ((process_at self.now self.now.current).rest ≡ Rest.Nothing) }
    {
        matches!(self.procs.process(self.procs.current()).rest, Rest::Nothing)
    }

    /// What is left of the current process's call.
    #[tactic(auto, unfolding(process_core::specs::Tables::tables_of))]
    pub fn rest(&self) -> Rest
        ensures rest { result ≡ (process_at self.now self.now.current).rest }
    {
        self.procs.process(self.procs.current()).rest
    }

    /// The free number that the next process gets. `None` if and only if there is none.
    pub fn place_free(&self) -> Option<Pid>
        ensures found { result ≡ free_process self.now }
    {
        self.procs.place_free()
    }
}
