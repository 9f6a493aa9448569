//! A run, and what it is watched for: its events are taken one by one, and what each printed is looked through.

ghost use Rattle.std.specs.Prelude.{◌≡◌, ◌≤◌, ◌==◌, ◌||◌, [], IfOk, List, None, OnOk, Some, false, nat_lt, true, ℕ};
ghost use Rattle.replayed_run.specs.Replayed.{IsSameRun, is_at_end};
ghost use Rattle.watched_run.specs.Moments as moments;
ghost use Rattle.watched_run.specs.Moments.{HasTaken, Stands, Takes, TakesSome, was_told};
ghost use Rattle.watched_run.specs.Windows.{TakesNext};
ghost use Rattle.watched_run.specs.Watching.{HaveSeen, areas_of, first_changed, with_area, with_point, without_area, without_point};

use crate::lines::{push_console, trap_in};
use crate::looking::{pc_of, ram_of, thread_process};
use crate::points::Points;
use host_port::HostFault;
use replayed_run::Replay;
use std::alloc::Global;
use xinu_base::{Cause, Pid};

/// A run, and what it is watched for.
pub struct WatchedRun {
    pub replay: Replay,
    pub(crate) points: Points,
    // How many events come before the one of which a trap was told.
    told: Option<u32>,
    // Up to here the bytes of the console were shown.
    shown: u32,
}

impl Drop for WatchedRun {
    fn drop(self) {
        let WatchedRun {
            replay: _replay,
            points: _points,
            told: _told,
            shown: _shown,
        } = self;
    }
}

impl WatchedRun {
    /// A run that is watched for nothing.
    pub fn new(alloc: Global, replay: Replay) -> WatchedRun
        ensures run { result.replay ≡ replay }
        ensures addresses { result.points.addresses.items ≡ [] }
        ensures areas { areas_of result.points.watches.items ≡ [] }
        ensures told { result.told ≡ None }
    {
        WatchedRun {
            replay,
            points: Points::new(alloc),
            told: None,
            shown: 0,
        }
    }

    /// The run is to stop ahead of an instruction at this address.
    ///
    /// # Errors
    /// Out of memory.
    pub fn set(&mut self, at: u32) -> Result<(), HostFault>
        ensures stays { self.new.replay ≡ self.old.replay }
        ensures set { OnOk result (self.new.points.addresses.items ≡ with_point at self.old.points.addresses.items) }
        ensures watches { self.new.points.watches ≡ self.old.points.watches }
        ensures told { self.new.told ≡ self.old.told }
    {
        self.points.set(at)?;
        Ok(())
    }

    /// The run is to stop after a change of these bytes. `false`, and nothing changes, if and only if they are more than eight.
    ///
    /// # Errors
    /// Out of memory.
    pub fn watch(&mut self, at: u32, count: u32) -> Result<bool, HostFault>
        ensures stays { self.new.replay ≡ self.old.replay }
        ensures few { IfOk result (λ done. done ≡ nat_lt count 9) }
        ensures watch { IfOk result (λ done. areas_of self.new.points.watches.items ≡ with_area done (record { at = at; count = count }) (areas_of self.old.points.watches.items)) }
        ensures addresses { self.new.points.addresses ≡ self.old.points.addresses }
        ensures told { self.new.told ≡ self.old.told }
    {
        Ok(self.points.watch(ram_of(&self.replay), at, count)?)
    }

    /// The run is no longer to stop ahead of an instruction at this address.
    pub fn clear(&mut self, at: u32)
        ensures stays { self.new.replay ≡ self.old.replay }
        ensures clear { self.new.points.addresses.items ≡ without_point at self.old.points.addresses.items }
        ensures watches { self.new.points.watches ≡ self.old.points.watches }
        ensures told { self.new.told ≡ self.old.told }
    {
        self.points.clear(at);
    }

    /// The run is no longer to stop after a change of these bytes.
    pub fn forget(&mut self, at: u32, count: u32)
        ensures stays { self.new.replay ≡ self.old.replay }
        ensures forget { areas_of self.new.points.watches.items ≡ without_area (record { at = at; count = count }) (areas_of self.old.points.watches.items) }
        ensures addresses { self.new.points.addresses ≡ self.old.points.addresses }
        ensures told { self.new.told ≡ self.old.told }
    {
        self.points.forget(at, count);
    }

    /// No trap was told.
    pub fn forget_trap(&mut self)
        ensures stays { self.new.replay ≡ self.old.replay }
        ensures points { self.new.points ≡ self.old.points }
        ensures told { self.new.told ≡ None }
    {
        self.told = None;
    }

    // A trap of the instruction after so many events is told.
    fn keep_trap(&mut self, number: u32)
        ensures stays { self.new.replay ≡ self.old.replay }
        ensures points { self.new.points ≡ self.old.points }
        ensures told { self.new.told ≡ Some number }
    {
        self.told = Some(number);
    }

    /// Whether the trap after so many events was told.
    pub(crate) fn was_told(&self, number: u32) -> bool
        ensures told { result ≡ was_told self.now.told number }
    {
        match self.told {
            Some(told) => told == number,
            None => false,
        }
    }

    /// Tells a trap of the instruction after so many events: the run stands ahead of it.
    ///
    /// # Errors
    /// Out of memory; `Failed` if an event printed something else when it was taken before.
    #[tactic(auto, using(replayed_run::proofs::SameRuns::again, replayed_run::proofs::SameRuns::still))]
    pub(crate) fn stand_before(&mut self, number: u32) -> Result<(), HostFault>
        ensures same { OnOk result (IsSameRun self.old.replay self.new.replay) }
        ensures stands { OnOk result (self.new.replay.taken ≡ number) }
        ensures points { self.new.points ≡ self.old.points }
        ensures told { self.new.told ≡ Some number }
    {
        self.keep_trap(number);
        self.seek(number)?;
        if self.replay.taken() != number {
            return Err(HostFault::Failed);
        }
        Ok(())
    }

    /// Takes an event that may print. Answers the cause of its trap, if it is one.
    ///
    /// # Errors
    /// Out of memory; `Failed` if an event printed something else when it was taken before.
    pub(crate) fn take_event(&mut self, console: &mut Vec<u8>) -> Result<Option<Cause>, HostFault>
        ensures same { OnOk result (IsSameRun self.old.replay self.new.replay) }
        ensures takes { IfOk result (λ trap. is_at_end self.old.replay ≡ false → HasTaken self.old.replay self.new.replay trap) }
        ensures points { self.new.points ≡ self.old.points }
        ensures told { self.new.told ≡ self.old.told }
    {
        let number = self.replay.taken();
        let taken = match self.replay.take() {
            Ok(Some(taken)) => taken,
            Ok(None) => return Ok(None),
            Err(fault) => return Err(HostFault::from(fault)),
        };
        self.show(number, taken.bytes(), console)?;
        Ok(trap_in(taken.bytes()))
    }

    // Appends the digits of what the console sent in the event after so many others, unless they were shown.
    fn show(&mut self, number: u32, lines: &[u8], console: &mut Vec<u8>) -> Result<(), HostFault>
        ensures stays { self.new.replay ≡ self.old.replay }
        ensures points { self.new.points ≡ self.old.points }
        ensures told { self.new.told ≡ self.old.told }
    {
        if number >= self.shown {
            self.shown = self.replay.taken();
            push_console(console, lines)?;
        }
        Ok(())
    }

    /// Takes the event that comes next. Answers the cause of its trap, if it is one.
    ///
    /// # Errors
    /// Out of memory; `Failed` if an event printed something else when it was taken before.
    #[tactic(auto, using(replayed_run::proofs::SameRuns::again, replayed_run::proofs::SameRuns::still))]
    pub(crate) fn take_next(&mut self, console: &mut Vec<u8>) -> Result<Option<Cause>, HostFault>
        ensures same { OnOk result (IsSameRun self.old.replay self.new.replay) }
        ensures takes { IfOk result (λ trap. is_at_end self.old.replay ≡ false → HasTaken self.old.replay self.new.replay trap) }
        ensures points { self.new.points ≡ self.old.points }
        ensures told { self.new.told ≡ self.old.told }
    {
        if self.take_step() {
            return Ok(None);
        }
        self.take_event(console)
    }

    /// Takes the event that comes next, and doesn't look at what it printed.
    ///
    /// # Errors
    /// Out of memory; `Failed` if an event printed something else when it was taken before.
    #[tactic(auto, using(replayed_run::proofs::SameRuns::again, replayed_run::proofs::SameRuns::still))]
    pub(crate) fn take_quietly(&mut self) -> Result<(), HostFault>
        ensures same { OnOk result (IsSameRun self.old.replay self.new.replay) }
        ensures takes { OnOk result (is_at_end self.old.replay ≡ false → TakesNext self.old.replay self.new.replay) }
        ensures points { self.new.points ≡ self.old.points }
        ensures told { self.new.told ≡ self.old.told }
    {
        if self.take_step() {
            return Ok(());
        }
        self.take_unseen()
    }

    // Takes an event that may print, and doesn't look at what it printed.
    fn take_unseen(&mut self) -> Result<(), HostFault>
        ensures same { OnOk result (IsSameRun self.old.replay self.new.replay) }
        ensures takes { OnOk result (is_at_end self.old.replay ≡ false → TakesNext self.old.replay self.new.replay) }
        ensures points { self.new.points ≡ self.old.points }
        ensures told { self.new.told ≡ self.old.told }
    {
        match self.replay.take() {
            Ok(Some(_)) | Ok(None) => Ok(()),
            Err(fault) => Err(HostFault::from(fault)),
        }
    }

    /// Takes a step that prints nothing, if that is the next event. Whether it did.
    pub(crate) fn take_step(&mut self) -> bool
        ensures same { IsSameRun self.old.replay self.new.replay }
        ensures step { result ≡ true → Takes self.old.replay self.new.replay [] }
        ensures still { result ≡ false → Stands self.old.replay self.new.replay }
        ensures points { self.new.points ≡ self.old.points }
        ensures told { self.new.told ≡ self.old.told }
    {
        self.replay.take_steps(1) != 0
    }

    /// Takes the steps that come next and print nothing.
    pub(crate) fn take_steps(&mut self)
        ensures same { IsSameRun self.old.replay self.new.replay }
        ensures steps { TakesSome self.old.replay self.new.replay }
        ensures points { self.new.points ≡ self.old.points }
        ensures told { self.new.told ≡ self.old.told }
    {
        let _ = self.replay.take_steps(u32::MAX);
    }

    /// Goes to where so many events were taken, or to its end if there are fewer.
    ///
    /// # Errors
    /// Out of memory; `Failed` if an event printed something else when it was taken before.
    pub fn seek(&mut self, count: u32) -> Result<(), HostFault>
        ensures same { OnOk result (IsSameRun self.old.replay self.new.replay) }
        ensures reached { OnOk result ((self.new.replay.taken == count || is_at_end self.new.replay) ≡ true) }
        ensures within { OnOk result (self.new.replay.taken ≤ count) }
        ensures points { self.new.points ≡ self.old.points }
        ensures told { self.new.told ≡ self.old.told }
    {
        match self.replay.seek(count) {
            Ok(()) => Ok(()),
            Err(fault) => Err(HostFault::from(fault)),
        }
    }

    /// Whether the next instruction of a process is at a point.
    pub(crate) fn is_at_point(&self, p: Pid) -> bool
        ensures point { result ≡ moments.is_at_point self.now.points.addresses.items self.now.replay.state p }
    {
        self.points.has(pc_of(&self.replay, p))
    }

    /// Whether a process is still there.
    pub(crate) fn is_left(&self, p: Pid) -> bool
        ensures left { result ≡ moments.is_left self.now.replay.state p }
    {
        thread_process(&self.replay, p.index() as u32 + 1).is_some()
    }

    /// Where the first watched bytes are that changed since they were last looked at.
    pub(crate) fn changed(&mut self) -> Option<u32>
        ensures stays { self.new.replay ≡ self.old.replay }
        ensures first { (memory : List ℕ) → HaveSeen memory self.old.points.watches.items → result ≡ first_changed memory self.old.replay.state.memory (areas_of self.old.points.watches.items) }
        ensures seen { HaveSeen self.old.replay.state.memory self.new.points.watches.items }
        ensures areas { areas_of self.new.points.watches.items ≡ areas_of self.old.points.watches.items }
        ensures addresses { self.new.points.addresses ≡ self.old.points.addresses }
        ensures told { self.new.told ≡ self.old.told }
    {
        self.points.changed(ram_of(&self.replay))
    }
}
