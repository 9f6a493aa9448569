//! A run that can be had again.

ghost use Rattle.std.specs.Prelude.{ℕ, IsErrOf, ◌&&◌, is_ok, ◌≡◌, ◌+◌, ◌≤◌, ◌<◌, ◌==◌, ◌||◌, IfOk, IfErr, IfSome, MatchOption, MatchResult, None, OnErr, OnOk, Some, false, true, is_some, length, map, not, slice_get};
ghost use Rattle.given_disks.specs.Disks.{disks_of};
ghost use Rattle.machine.specs.RunEnds.{end_of_go};
ghost use Rattle.replayed_run.specs.Progress.{EndsWith, PrintsOther, TakesEvent, TakesSteps};
ghost use Rattle.replayed_run.specs.Replayed as replayed;
ghost use Rattle.replayed_run.specs.Replayed.{HasInputs, IsReplayed, IsSameRun};
ghost use Rattle.replayed_run.specs.Texts.{HasNoMore, Keeps, WasOther, kept_at};
ghost use Rattle.run_inputs.specs.Starts.{IsBooted, IsRefused};
ghost use Rattle.run_inputs.specs.InputFaults.{have_fault};
ghost use Rattle.xinu_model.specs.Sound.State.{IsSound};
ghost use Rattle.xinu_model.specs.Text.{tables_of, text};

use crate::events::{Taken, tables, take_event};
use crate::printed::Printed;
use crate::texts::{ReplayFault, Texts};
use machine::{BootFault, Go, KernelState, Machine};
use run_inputs::Inputs;
use schedule_file::Schedule;
use std::alloc::Global;
use std::marker::Model;
use xinu_base::{Event, NoMemory};

/// A run after some of its events. A clause sees its inputs, how many events were taken, the state, whether one of them ended the run, and
/// what is known of what its events print.
pub struct Replay {
    alloc: Global,
    inputs: Inputs,
    machine: Machine,
    // The events that are left.
    left: Schedule,
    // How many were taken.
    taken: u32,
    // Whether one of them ended the run.
    has_ended: bool,
    // What its events printed, as far as it ever went.
    texts: Texts,
    // Whether that is known of all that were taken.
    is_known: bool,
}

impl Drop for Replay {
    fn drop(self) {
        let Replay {
            alloc: _alloc,
            inputs: _inputs,
            machine: _machine,
            left: _left,
            taken: _taken,
            has_ended: _has_ended,
            texts: _texts,
            is_known: _is_known,
        } = self;
    }
}

impl Model for Replay {
    ghost use Rattle.replayed_run.specs.Replayed.{Replayed};

    ghost Value = { Replayed };

    ghost use Rattle.replayed_run.specs.Replays.{replayed_of, IsReplay};

    ghost view = { replayed_of };

    ghost invariant = { IsReplay };
}

impl Replay {
    /// The run of these inputs before its first event. There are one to eight images, each of which loads, and at most 10^9 events.
    ///
    /// # Errors
    /// `Overlap` and `NoRoom` as [`Machine::boot`] says; `NoMemory`.
    pub fn new(alloc: Global, inputs: Inputs) -> Result<Replay, BootFault>
        requires some { 1 ≤ length inputs.images.items }
        requires few { length inputs.images.items ≤ 8 }
        requires good { have_fault (map (λ v. v.items) inputs.images.items) ≡ false }
        requires events { length inputs.schedule ≤ 1000000000 }
        ensures inputs { IfOk result (λ r. HasInputs (disks_of inputs.disk0 inputs.disk1) (map (λ v. v.items) inputs.images.items) inputs.schedule r) }
        ensures none { IfOk result (λ r. r.taken ≡ 0) }
        ensures goes_on { IfOk result (λ r. r.over ≡ false) }
        ensures known { IfOk result (λ r. r.known ≡ true) }
        ensures refused { IfErr result (λ f. IsRefused (disks_of inputs.disk0 inputs.disk1) (map (λ v. v.items) inputs.images.items) f) }
    {
        let Ok(left) = inputs.schedule.copy(alloc) else {
            return Err(BootFault::NoMemory);
        };
        let machine = inputs.boot(alloc)?;
        Ok(Replay {
            alloc,
            inputs,
            machine,
            left,
            taken: 0,
            has_ended: false,
            texts: Texts::new(alloc),
            is_known: true,
        })
    }

    /// A law: the images boot on the disks, and from there a run of the first events of the schedule, as many as were taken, leads to the
    /// state, and printed what is known of it.
    pub fn runs(&self)
        ensures runs { IsReplayed self.now }
    {
        let _taken = self.taken;
    }

    /// How many events were taken: at most as many as the schedule has.
    pub fn taken(&self) -> u32
        ensures taken { result ≡ self.now.taken }
        ensures within { result ≤ length self.now.events }
    {
        self.taken
    }

    /// The event that comes next; `None` if and only if one ended the run, or all were taken.
    pub fn next(&self) -> Option<Event>
        ensures next { MatchOption result (replayed.is_at_end self.now ≡ true) (λ event. slice_get self.now.events self.now.taken ≡ Some event) }
        ensures goes_on { IfSome result (λ _. self.now.over ≡ false) }
    {
        if self.has_ended {
            return None;
        }
        self.left.peek()
    }

    /// Whether no event comes next: one ended the run, or all were taken.
    pub fn is_at_end(&self) -> bool
        ensures end { result ≡ replayed.is_at_end self.now }
    {
        self.next().is_none()
    }

    /// The state, to be read part by part. It is sound, and at most 10^9 ticks have passed in it.
    pub fn state(&self) -> &KernelState
        ensures state { result.now.call.state ≡ self.now.state }
        ensures sound { IsSound self.now.state }
        ensures few { self.now.state.tables.ticks ≤ 1000000000 }
    {
        self.machine.state()
    }

    /// The files of its images.
    pub fn files(&self) -> &[Vec<u8>]
        ensures files { map (λ v. v.items) result.now ≡ self.now.files }
    {
        self.inputs.images.as_slice()
    }

    /// The lines of its tables.
    ///
    /// # Errors
    /// `NoMemory`.
    pub fn tables(&self) -> Result<Printed, NoMemory>
        ensures printed { IfOk result (λ printed. printed ≡ text (tables_of self.now.state)) }
    {
        match tables(self.alloc, &self.machine) {
            Ok(printed) => Ok(printed),
            Err(_) => Err(NoMemory),
        }
    }

    /// Takes the next event, and answers what it printed, and whether it ends the run. `None` if and only if none is left, as
    /// [`Replay::is_at_end`] says; then nothing changes.
    ///
    /// # Errors
    /// `NoMemory`, for the lines; `Differs` if it printed something else when it was taken before. The event happened.
    pub fn take(&mut self) -> Result<Option<Taken>, ReplayFault>
        ensures takes { IfOk result (λ t. MatchOption t (self.new ≡ self.old) (λ t. TakesEvent self.old self.new (Some t.printed))) }
        ensures ends { IfOk result (λ t. IfSome t (λ t. EndsWith self.old self.new (end_of_go t.go))) }
        ensures left { IfOk result (λ t. is_some t ≡ not (replayed.is_at_end self.old)) }
        ensures happened { OnErr result (TakesEvent self.old self.new None) }
        ensures differs { IsErrOf result ReplayFault.Differs → PrintsOther self.old self.new }
        ensures inputs { HasInputs self.old.disks self.old.files self.old.events self.new }
        ensures same { OnOk result (IsSameRun self.old self.new) }
    {
        let Some(event) = self.next() else {
            return Ok(None);
        };
        let (go, printed) = self.happen(event);
        match printed {
            Ok(printed) => Ok(Some(Taken { printed, go })),
            Err(fault) => Err(fault),
        }
    }

    /// Takes steps that come next and print nothing, at most so many, all at once, and answers how many it took. More of them may follow.
    pub fn take_steps(&mut self, most: u32) -> u32
        ensures steps { TakesSteps result self.old self.new }
        ensures most { result ≤ most }
        ensures inputs { HasInputs self.old.disks self.old.files self.old.events self.new }
        ensures same { IsSameRun self.old self.new }
    {
        if self.has_ended {
            return 0;
        }
        let ahead = most.min(self.left.steps_ahead());
        let count = self
            .machine
            .steps(self.texts.silent_from(self.taken, ahead));
        self.left.skip(count);
        pass(&mut self.texts, self.is_known, self.taken, count);
        self.taken += count;
        count
    }

    /// Goes to where so many events were taken, forward or back; to the run's end, if it has fewer.
    ///
    /// # Errors
    /// `NoMemory`; `Differs` if an event printed something else when it was taken before. The run is where it was, at its beginning, or on
    /// the way.
    pub fn seek(&mut self, count: u32) -> Result<(), ReplayFault>
        ensures reached { OnOk result ((self.new.taken == count || replayed.is_at_end self.new) ≡ true) }
        ensures within { OnOk result (self.new.taken ≤ count) }
        ensures inputs { HasInputs self.old.disks self.old.files self.old.events self.new }
        ensures same { OnOk result (IsSameRun self.old self.new) }
    {
        if count < self.taken() {
            self.rewind()?;
        }
        self.advance_to(count)
    }

    // Goes forward to where so many events were taken, or to the run's end.
    #[tactic(auto, using(crate::proofs::SameRuns::again, crate::proofs::SameRuns::still))]
    fn advance_to(&mut self, count: u32) -> Result<(), ReplayFault>
        requires ahead { self.old.taken ≤ count }
        ensures reached { OnOk result ((self.new.taken == count || replayed.is_at_end self.new) ≡ true) }
        ensures within { OnOk result (self.new.taken ≤ count) }
        ensures inputs { HasInputs self.old.disks self.old.files self.old.events self.new }
        ensures same { OnOk result (IsSameRun self.old self.new) }
    {
        while self.taken() < count {
            if self.is_at_end() {
                return Ok(());
            }
            self.advance(count - self.taken())?;
        }
        Ok(())
    }

    // Goes on by at least one event, and at most so many.
    fn advance(&mut self, most: u32) -> Result<(), ReplayFault>
        requires some { 1 ≤ most }
        requires goes_on { replayed.is_at_end self.old ≡ false }
        ensures further { OnOk result (self.old.taken < self.new.taken) }
        ensures within { OnOk result (self.new.taken ≤ self.old.taken + most) }
        ensures inputs { HasInputs self.old.disks self.old.files self.old.events self.new }
        ensures same { OnOk result (IsSameRun self.old self.new) }
    {
        if self.take_steps(most) < most {
            self.take()?;
        }
        Ok(())
    }

    // The event that comes next happens. What it means for the run, and what it printed.
    fn happen(&mut self, event: Event) -> (Go, Result<Printed, ReplayFault>)
        requires next { slice_get self.old.events self.old.taken ≡ Some event }
        requires goes_on { self.old.over ≡ false }
        ensures takes { MatchResult result.1 (λ printed. TakesEvent self.old self.new (Some printed)) (λ _. TakesEvent self.old self.new None) }
        ensures ends { EndsWith self.old self.new (end_of_go result.0) }
        ensures same { IfOk result.1 (λ _. IsSameRun self.old self.new) }
        ensures differs { IsErrOf result.1 ReplayFault.Differs → PrintsOther self.old self.new }
    {
        let (go, printed) = take_event(self.alloc, &mut self.machine, event);
        let told = tell(
            self.alloc,
            &mut self.texts,
            self.is_known,
            self.taken,
            printed,
        );
        self.left.skip(1);
        self.taken += 1;
        self.has_ended = is_end(go);
        self.is_known = are_known(self.is_known, &told);
        (go, told)
    }

    // Goes to where no event was taken.
    fn rewind(&mut self) -> Result<(), ReplayFault>
        ensures none { OnOk result (self.new.taken ≡ 0) }
        ensures inputs { HasInputs self.old.disks self.old.files self.old.events self.new }
        ensures same { OnOk result (IsSameRun self.old self.new) }
    {
        let Ok(left) = self.inputs.schedule.copy(self.alloc) else {
            return Err(ReplayFault::NoMemory);
        };
        let machine = self.booted()?;
        self.restart(machine, left);
        Ok(())
    }

    // The machine before the first event, booted anew.
    fn booted(&self) -> Result<Machine, ReplayFault>
        ensures booted { IfOk result (λ m. IsBooted self.now.disks self.now.files m) }
    {
        match self.inputs.boot(self.alloc) {
            Ok(machine) => Ok(machine),
            Err(BootFault::NoMemory) => Err(ReplayFault::NoMemory),
            Err(BootFault::Overlap(_)) => unreachable!(),
            Err(BootFault::NoRoom(_)) => unreachable!(),
        }
    }

    // The run before its first event, with a machine that was booted anew.
    fn restart(&mut self, machine: Machine, left: Schedule)
        requires booted { IsBooted self.old.disks self.old.files machine }
        requires all { left ≡ self.old.events }
        ensures starts { self.new ≡ record self.old { taken = 0; state = machine.state; over = false; known = true } }
    {
        self.machine = machine;
        self.left = left;
        self.taken = 0;
        self.has_ended = false;
        self.is_known = true;
    }
}

// What the event after so many others printed, once it is among the texts, if those of the events before it are.
fn tell(
    alloc: Global,
    texts: &mut Texts,
    is_known: bool,
    number: u32,
    printed: Option<Printed>,
) -> Result<Printed, ReplayFault>
    requires reached { is_known ≡ true → number ≤ texts.old.far }
    requires fits { number < 1000000000 }
    requires no_more { HasNoMore texts.old }
    ensures keeps { Keeps texts.old texts.new }
    ensures no_more { HasNoMore texts.new }
    ensures printed { IfOk result (λ p. printed ≡ Some p) }
    ensures told { IfOk result (λ p. is_known ≡ true → kept_at texts.new number ≡ p) }
    ensures far { IfOk result (λ p. is_known ≡ true → number < texts.new.far) }
    ensures differs { IsErrOf result ReplayFault.Differs → WasOther is_known texts.old number printed }
{
    let Some(printed) = printed else {
        return Err(ReplayFault::NoMemory);
    };
    if is_known {
        texts.tell(alloc, number, printed.bytes())?;
    }
    Ok(printed)
}

// Events after so many others printed nothing, which is kept if what those before them printed is known.
fn pass(texts: &mut Texts, is_known: bool, number: u32, count: u32)
    requires reached { is_known ≡ true → number ≤ texts.old.far }
    requires fits { number + count ≤ 1000000000 }
    requires no_more { HasNoMore texts.old }
    ensures keeps { Keeps texts.old texts.new }
    ensures no_more { HasNoMore texts.new }
    ensures same { (n : ℕ) → kept_at texts.new n ≡ kept_at texts.old n }
    ensures far { is_known ≡ true → number + count ≤ texts.new.far }
{
    if is_known {
        texts.pass(number, count);
    }
}

// Whether what the events printed is known after one event more.
fn are_known(is_known: bool, told: &Result<Printed, ReplayFault>) -> bool
    ensures known { result ≡ (is_known && is_ok told.now) }
{
    is_known && told.is_ok()
}

// Whether a run ended.
fn is_end(go: Go) -> bool
    ensures end { result ≡ is_some (end_of_go go) }
{
    match go {
        Go::Goes => false,
        Go::Done | Go::Panic => true,
    }
}
