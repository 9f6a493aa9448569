//! The races of a run, event by event.

ghost use Rattle.std.specs.Prelude.{◌≡◌, IfOk};
ghost use Rattle.race_detector.specs.Sources.{AreWithin};

use crate::ledger::{Dead, Ledger};
use event_acts::{Acts, Ahead, begin_event, begins, end_event, wakes};
use kernel_state::KernelState;
use race_detector::{Detector, Known, Pair};
use std::alloc::{AllocError, Global};
use xinu_base::{Event, Pid};

/// A detector of data races, which is told of the events of a run as they are taken.
#[derive(Drop)]
pub struct Watcher {
    alloc: Global,
    detector: Detector,
    ledger: Ledger,
    // How many events came so far, with the one that is taken.
    number: u32,
    // That event.
    event: Event,
    // Its deeds, and what was kept of the state ahead of it.
    acts: Acts,
    ahead: Option<Box<Ahead>>,
}

impl Watcher {
    /// Of no event.
    ///
    /// # Errors
    /// Out of memory.
    pub fn new(alloc: Global) -> Result<Watcher, AllocError> {
        let detector = Detector::new(alloc)?;
        let ledger = Ledger::new(alloc)?;
        Ok(Watcher {
            alloc,
            detector,
            ledger,
            number: 0,
            event: Event::Dump,
            acts: Acts::new(alloc),
            ahead: None,
        })
    }

    /// The pairs of accesses that race, as far as the detector told of them, in the order in which it did.
    pub fn told(&self) -> &[Pair] {
        self.detector.told()
    }

    /// So many steps of the null process were taken, which do nothing.
    pub fn pass_by(&mut self, steps: u32) {
        self.number = self.number.saturating_add(steps);
    }

    /// An event comes next, in this state. What is needed of the state is kept for [`Watcher::after`].
    ///
    /// # Errors
    /// Out of memory.
    pub fn ahead(&mut self, k: &KernelState, event: Event) -> Result<(), AllocError> {
        self.number = self.number.saturating_add(1);
        self.event = event;
        if begin_event(&mut self.acts, self.number, event, k)? {
            self.keep(k)?;
        }
        Ok(())
    }

    // Keeps what is needed of the state ahead of an event.
    #[inline(never)]
    fn keep(&mut self, k: &KernelState) -> Result<(), AllocError> {
        self.ahead = Some(Box::new(self.alloc, Ahead::of(k))?);
        Ok(())
    }

    /// The event of which [`Watcher::ahead`] was told was taken, and led to this state. The detector is told of its edges and its deeds.
    ///
    /// # Errors
    /// Out of memory.
    pub fn after(&mut self, k: &KernelState) -> Result<(), AllocError> {
        match self.ahead.take() {
            Some(ahead) => self.finish(&ahead, k),
            None => self.pass(),
        }
    }

    // Nothing but its deeds is to be told of an event.
    fn pass(&mut self) -> Result<(), AllocError> {
        self.detector.begin(&[], self.acts.as_slice())
    }

    // The rest is told of an event.
    #[inline(never)]
    fn finish(&mut self, ahead: &Ahead, k: &KernelState) -> Result<(), AllocError> {
        end_event(&mut self.acts, self.number, self.event, ahead, k)?;
        match (self.event, ahead.stepper()) {
            (Event::Step, Some(u)) => self.step(u, ahead, k),
            _ => self.pass(),
        }
    }

    // A step of a process: the edges to it, its deeds, and the edges to the others.
    fn step(&mut self, u: Pid, ahead: &Ahead, k: &KernelState) -> Result<(), AllocError> {
        let mut dead = self
            .ledger
            .keep_dead(&mut self.detector, self.number, u, ahead, k)?;
        let mut known = Vec::new(self.alloc);
        for w in 0..64 {
            if let Some(name) = dead[w] {
                known.push(Known {
                    process: u.index(),
                    name,
                })?;
            }
        }
        self.ledger.learn(&mut known, u, ahead, k)?;
        let known = within(self.alloc, known.as_slice(), &self.detector)?;
        self.detector.begin(known.as_slice(), self.acts.as_slice())?;
        let own = self.ledger.names.keep(&mut self.detector, self.number, u)?;
        if event_acts::dies(ahead, k, u) {
            self.ledger.names.add(own);
            dead[u.index()] = Some(own);
        }
        self.lead(own, u, ahead, k)?;
        self.ledger.note(own, &dead, ahead, k)?;
        self.release(own, &dead);
        Ok(())
    }

    // The edges to those who become ready, and to those who begin.
    fn lead(
        &mut self,
        own: usize,
        u: Pid,
        ahead: &Ahead,
        k: &KernelState,
    ) -> Result<(), AllocError> {
        let mut known = Vec::new(self.alloc);
        for v in 0..64 {
            let p = Pid::at(v);
            if v != u.index() && wakes(ahead, k, p) {
                known.push(Known {
                    process: v,
                    name: own,
                })?;
            }
        }
        for v in 0..64 {
            let p = Pid::at(v);
            if v != u.index() && begins(ahead, k, p) {
                known.push(Known {
                    process: v,
                    name: own,
                })?;
            }
        }
        let known = within(self.alloc, known.as_slice(), &self.detector)?;
        self.detector.end(known.as_slice());
        Ok(())
    }

    // The names that the event itself used are used no longer.
    fn release(&mut self, own: usize, dead: &Dead) {
        self.ledger.names.release(own);
        for w in 0..64 {
            if let Some(name) = dead[w] {
                self.ledger.names.release(name);
            }
        }
    }
}

// The edges of processes and names that there are.
fn within(alloc: Global, known: &[Known], detector: &Detector) -> Result<Vec<Known>, AllocError>
    ensures within { IfOk result (λ list. AreWithin list.items detector.now) }
{
    let mut list = Vec::new(alloc);
    for edge in known {
        if edge.process < 64 && edge.name < detector.count() {
            list.push(*edge)?;
        }
    }
    Ok(list)
}
