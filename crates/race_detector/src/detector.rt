//! A detector that is told what a run does, call by call.

ghost use Rattle.std.specs.Prelude.{◌≡◌, ◌<◌, ◌≤◌, ◌+◌, ◌++◌, ◌∷◌, [], ◌==◌, ℕ, suc, List, IfOk, OnErr, OnOk, Some, if◌then◌else◌, length};
ghost use Rattle.happens_before.specs.Clocks.{Clock, clocks_after, knows_in, own, with_parts};
ghost use Rattle.happens_before.specs.Histories.{Access, Edge, Given, Moment};
ghost use Rattle.happens_before.specs.Races.{deed_at, time};
ghost use Rattle.race_clocks.specs.Edges.{edges_past, edges_to};
ghost use Rattle.race_clocks.specs.Rows.{count, kept, knows};
ghost use Rattle.race_detector.specs.Detects.{Detects, HasLearnt, IsAccess, IsSource, IsWithinMoment, Reaches};
ghost use Rattle.race_detector.specs.Acts.{AllStand, AllWithin, AreActs, IsAct, IsWithin};
ghost use Rattle.race_detector.specs.Sources.{AreSources, AreWithin};

use crate::act::Act;
use crate::known::Known;
use crate::pair::Pair;
use crate::telling::tell;
use race_clocks::Clocks;
use race_entries::{Entries, Entry};
use std::alloc::{AllocError, Global};

/// The clocks, the last accesses, and what is told so far.
#[derive(Drop)]
pub struct Detector {
    clocks: Clocks,
    entries: Entries,
    told: Vec<Pair>,
}

impl Detector {
    /// A detector of the history in which nothing happens.
    ///
    /// # Errors
    ///
    /// Out of memory.
    pub fn new(alloc: Global) -> Result<Detector, AllocError>
        ensures start { IfOk result (λ x. Detects [] x) }
    {
        let clocks = Clocks::new(alloc)?;
        let entries = Entries::new(alloc)?;
        let told = Vec::new(alloc);
        Ok(Detector {
            clocks,
            entries,
            told,
        })
    }

    /// How many clocks of parts are kept: their names are the numbers below.
    pub fn count(&self) -> usize
        ensures count { result ≡ count self.now.clocks }
    {
        self.clocks.count()
    }

    /// An edge comes to a process from the part whose clock has this name. The process is below 64, and the name below the count.
    pub fn learn(&mut self, process: usize, name: usize)
        requires process_in { process < 64 }
        requires name_in { name < count self.old.clocks }
        ensures learnt { (parts : ℕ → ℕ → Clock) (before : ℕ → Clock) (edges : List Edge) (e : Edge) → e.target ≡ process →
            IsSource parts e name self.old → HasLearnt parts before edges self.old → HasLearnt parts before (edges ++ e ∷ []) self.new }
        ensures kept { self.new.clocks.parts ≡ self.old.clocks.parts }
        ensures entries { self.new.entries ≡ self.old.entries }
        ensures told { self.new.told ≡ self.old.told }
    {
        self.clocks.learn(process, name);
    }

    /// Edges come, one after another, each as [`Detector::learn`] takes it.
    pub fn learn_all(&mut self, edges: &[Known])
        requires within { AreWithin edges.now self.old }
        ensures learnt { (parts : ℕ → ℕ → Clock) (before : ℕ → Clock) (done more : List Edge) →
            AreSources parts more edges.now self.old → HasLearnt parts before done self.old →
            HasLearnt parts before (done ++ more) self.new }
        ensures kept { self.new.clocks.parts ≡ self.old.clocks.parts }
        ensures entries { self.new.entries ≡ self.old.entries }
        ensures told { self.new.told ≡ self.old.told }
    {
        for edge in edges {
            self.learn(edge.process, edge.name);
        }
    }

    /// Keeps the clock of a process's part in event `n`, and answers its name, which is the count before. The process is below 64.
    ///
    /// # Errors
    ///
    /// Out of memory: all is as it was.
    pub fn keep(&mut self, n: u32, process: usize) -> Result<usize, AllocError>
        requires process_in { process < 64 }
        ensures kept { IfOk result (λ name. (k w : ℕ) → kept self.new.clocks k w ≡
            (if k == name then own n process (knows self.old.clocks process) w else kept self.old.clocks k w)) }
        ensures count { IfOk result (λ name. count self.new.clocks ≡ count self.old.clocks + 1) }
        ensures name { IfOk result (λ name. name ≡ count self.old.clocks) }
        ensures knows { self.new.clocks.processes ≡ self.old.clocks.processes }
        ensures entries { self.new.entries ≡ self.old.entries }
        ensures told { self.new.told ≡ self.old.told }
        ensures refused { OnErr result (self.new.clocks ≡ self.old.clocks) }
    {
        self.clocks.keep(n, process)
    }

    /// Keeps the clock of a process's part in event `n` under a name, in place of the clock that had it. The process is below 64, and the
    /// name below the count.
    pub fn keep_as(&mut self, name: usize, n: u32, process: usize)
        requires name_in { name < count self.old.clocks }
        requires process_in { process < 64 }
        ensures kept { (k w : ℕ) → kept self.new.clocks k w ≡
            (if k == name then own n process (knows self.old.clocks process) w else kept self.old.clocks k w) }
        ensures count { count self.new.clocks ≡ count self.old.clocks }
        ensures knows { self.new.clocks.processes ≡ self.old.clocks.processes }
        ensures entries { self.new.entries ≡ self.old.entries }
        ensures told { self.new.told ≡ self.old.told }
    {
        self.clocks.keep_as(name, n, process);
    }

    /// An access to a byte: tells what it races with, and enters it. The byte's address is below 1048576, and the process below 64.
    ///
    /// # Errors
    ///
    /// Out of memory: some may be told.
    pub fn access(&mut self, byte: usize, access: Entry) -> Result<(), AllocError>
        requires byte_in { byte < 1048576 }
        requires process_in { access.process < 64 }
        ensures reached { OnOk result ((h : List Moment) (n j : ℕ) (a : Access) → IsAccess h n j a byte access self.old.clocks →
            Reaches h n j self.old → Reaches h n (suc j) self.new) }
        ensures clocks { self.new.clocks ≡ self.old.clocks }
    {
        tell(&self.clocks, &self.entries, byte, access, &mut self.told)?;
        self.entries.enter(byte, access)?;
        Ok(())
    }

    /// So many bytes get a new owner, from the address `first` on. They end at 1048576 at most.
    pub fn give(&mut self, first: usize, count: usize)
        requires bytes_in { first + count ≤ 1048576 }
        ensures reached { (h : List Moment) (n j : ℕ) → deed_at h (time n j) ≡ Some (Given first count) →
            Reaches h n j self.old → Reaches h n (suc j) self.new }
        ensures clocks { self.new.clocks ≡ self.old.clocks }
    {
        self.entries.give(first, count);
    }

    /// A deed: an access, or bytes that get a new owner, as [`Detector::access`] and [`Detector::give`] take them.
    ///
    /// # Errors
    ///
    /// Out of memory: some may be told.
    pub fn act(&mut self, act: Act) -> Result<(), AllocError>
        requires within { IsWithin act }
        ensures reached { OnOk result ((h : List Moment) (n j : ℕ) → IsAct h n j act self.old.clocks →
            Reaches h n j self.old → Reaches h n (suc j) self.new) }
        ensures clocks { self.new.clocks ≡ self.old.clocks }
    {
        match act {
            Act::Touch(byte, entry) => self.access(byte, entry)?,
            Act::Gift(first, count) => self.give(first, count),
        }
        Ok(())
    }

    /// The deeds of an event, one after another, each as [`Detector::act`] takes it.
    ///
    /// # Errors
    ///
    /// Out of memory: some may be done.
    pub fn act_all(&mut self, acts: &[Act]) -> Result<(), AllocError>
        requires within { AllWithin acts.now }
        ensures reached { OnOk result ((h : List Moment) (n : ℕ) → AreActs h n acts.now self.old.clocks →
            Reaches h n 0 self.old → Reaches h n (length acts.now) self.new) }
        ensures clocks { self.new.clocks ≡ self.old.clocks }
    {
        for act in acts {
            self.act(*act)?;
        }
        Ok(())
    }

    /// Begins a moment: the edges to the process that steps come, and the deeds are done, as [`Detector::learn_all`] and
    /// [`Detector::act_all`] take them.
    ///
    /// # Errors
    ///
    /// Out of memory: some may be done.
    pub fn begin(&mut self, edges: &[Known], acts: &[Act]) -> Result<(), AllocError>
        requires edges_in { AreWithin edges.now self.old }
        requires acts_in { AllWithin acts.now }
        ensures begun { OnOk result ((h : List Moment) (m : Moment) →
            AreSources (with_parts (suc (length h)) (clocks_after h (length h)).knows (clocks_after h (length h)).kept)
            (edges_to m) edges.now self.old →
            AllStand (suc (length h)) acts.now m.deeds → Detects h self.old → IsWithinMoment h m (length acts.now) self.new) }
        ensures kept { self.new.clocks.parts ≡ self.old.clocks.parts }
    {
        self.learn_all(edges);
        self.act_all(acts)?;
        Ok(())
    }

    /// Ends a moment: the edges to the other processes come, as [`Detector::learn_all`] takes them. Then it is a detector of the history
    /// with that moment.
    pub fn end(&mut self, edges: &[Known])
        requires edges_in { AreWithin edges.now self.old }
        ensures ended { (h : List Moment) (m : Moment) →
            AreSources (with_parts (suc (length h)) (knows_in (suc (length h)) m (clocks_after h (length h)))
            (clocks_after h (length h)).kept) (edges_past m) edges.now self.old →
            IsWithinMoment h m (length m.deeds) self.old → Detects (h ++ m ∷ []) self.new }
        ensures kept { self.new.clocks.parts ≡ self.old.clocks.parts }
    {
        self.learn_all(edges);
    }

    /// What is told so far, in the order in which it was told.
    pub fn told(&self) -> &[Pair]
        ensures told { result.now ≡ self.now.told.items }
    {
        &self.told
    }
}
