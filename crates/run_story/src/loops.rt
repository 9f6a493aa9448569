//! The few instructions that a process goes round in, if it does.

use std::alloc::{AllocError, Global};
use xinu_base::Pid;

/// How many places are kept of each process.
const KEPT: usize = 32;
/// How many places there are.
const PLACES: usize = 2048;
/// How many processes there are.
const PROCESSES: usize = 64;
/// From how many steps on it is told that a process executes nothing else.
const LONG: u32 = 1000;

/// The address of an instruction, and the event in which it was executed last; event 0 if none was.
#[derive(Clone, Copy)]
struct Place {
    pc: u32,
    event: u32,
}

/// Since which event a process executes nothing but what is kept of it, and how many steps that were.
#[derive(Clone, Copy)]
struct Round {
    since: u32,
    steps: u32,
}

/// Of each process the last places that differ, at most 32.
#[derive(Drop)]
pub struct Loops {
    places: Vec<Place>,
    rounds: Vec<Round>,
}

impl Loops {
    /// Of no step.
    ///
    /// # Errors
    /// Out of memory.
    pub fn new(alloc: Global) -> Result<Loops, AllocError> {
        Ok(Loops {
            places: vec![in alloc; Place { pc: 0, event: 0 }; PLACES]?,
            rounds: vec![in alloc; Round { since: 0, steps: 0 }; PROCESSES]?,
        })
    }

    /// A process executes the instruction at an address, in the event of this number.
    pub fn note(&mut self, process: Pid, pc: u32, event: u32) {
        let from = process.index() * KEPT;
        let mut oldest = from;
        for i in from..from + KEPT {
            let Some(place) = self.places.get(i).copied() else {
                return;
            };
            if place.pc == pc && place.event > 0 {
                return self.again(process, i, Place { pc, event });
            }
            if place.event < self.event_at(oldest) {
                oldest = i;
            }
        }
        self.anew(process, oldest, Place { pc, event });
    }

    /// How many instructions a process has gone round in for long, and since which event; `None` if it hasn't.
    pub fn round(&self, process: Pid) -> Option<(u32, u32)> {
        let round = self.rounds.get(process.index()).copied()?;
        if round.steps < LONG {
            return None;
        }
        let from = process.index() * KEPT;
        let mut count = 0u32;
        for i in from..from + KEPT {
            if self.event_at(i) > round.since {
                count = count.saturating_add(1);
            }
        }
        Some((count, round.since))
    }

    // The event of a place.
    fn event_at(&self, i: usize) -> u32 {
        match self.places.get(i) {
            Some(place) => place.event,
            None => 0,
        }
    }

    // A place that is kept is executed once more.
    fn again(&mut self, process: Pid, i: usize, place: Place) {
        self.keep(i, place);
        if let Some(round) = self.rounds.get_mut(process.index()) {
            round.steps = round.steps.saturating_add(1);
        }
    }

    // A place that isn't kept takes the place of another one.
    fn anew(&mut self, process: Pid, i: usize, place: Place) {
        self.keep(i, place);
        if let Some(round) = self.rounds.get_mut(process.index()) {
            *round = Round {
                since: place.event,
                steps: 0,
            };
        }
    }

    // Keeps a place.
    fn keep(&mut self, i: usize, place: Place) {
        if let Some(kept) = self.places.get_mut(i) {
            *kept = place;
        }
    }
}
