//! The base's events, and which placements of quantum ends in them are gone through.

ghost use Rattle.std.specs.Prelude.{◌≡◌, ◌<◌, ◌≤◌, length, IfOk, IfErr};
ghost use Rattle.std.specs.List.{count_by};
ghost use Rattle.preemptions.specs.Preempted.{is_step};
ghost use Rattle.races_command.specs.Judged as spec;

use crate::faults::{Fault, NO_MEMORY};
use preemptions::Stretch;
use schedule_file::Schedule;
use std::alloc::Global;
use xinu_base::Event;

/// The most events of a base.
const MOST_EVENTS: usize = 1_000_000;

/// At most how many quantum ends are put in, and where.
#[derive(Clone, Copy)]
pub struct Limits {
    /// At most how many quantum ends are put in.
    pub most: u32,
    /// Where they are.
    pub stretch: Stretch,
}

impl Limits {
    // How many placements there are, for the progress.
    pub(crate) fn placements(&self) -> u64 {
        let places = self.stretch.within.saturating_sub(self.stretch.after) as u64;
        let pairs = places.saturating_mul(places.saturating_sub(1)) / 2;
        let triples = pairs.saturating_mul(places.saturating_sub(2)) / 3;
        let of_size = [1, places, pairs, triples];
        let mut all = 0u64;
        for size in 0..4 {
            if size <= self.most {
                all = all.saturating_add(of_size[size as usize]);
            }
        }
        all
    }
}

/// The events of a schedule.
///
/// # Errors
/// `TooLong` if and only if it has more than 1000000; out of memory.
pub fn events_of(alloc: Global, schedule: &mut Schedule) -> Result<Vec<Event>, Fault<'static>>
    ensures events { IfOk result (λ events. events.items ≡ schedule.old) }
    ensures few { IfOk result (λ events. length events.items ≤ 1000000) }
    ensures cause { IfErr result (spec.IsLongOrMemory schedule.old) }
{
    let mut events = Vec::new(alloc);
    while let Some(event) = schedule.next_event() {
        if events.len() >= MOST_EVENTS {
            return Err(Fault::TooLong);
        }
        match events.push(event) {
            Ok(()) => {}
            Err(_) => return Err(NO_MEMORY),
        }
    }
    Ok(events)
}

/// Judges the numbers that were asked for: if they are accepted, they are the limits. The base has at most 1000000 events.
///
/// # Errors
/// `TooMany` if and only if there are more than three quantum ends; else `TooFar` if and only if the base has fewer steps.
pub fn judge(most: u64, from: u64, within: u64, base: &[Event]) -> Result<Limits, Fault<'static>>
    requires few { length base.now ≤ 1000000 }
    ensures judged { spec.IsJudged most from within (count_by is_step base.now) result }
{
    if most > 3 {
        return Err(Fault::TooMany);
    }
    if within > steps_in(base) as u64 {
        return Err(Fault::TooFar);
    }
    Ok(Limits {
        most: most as u32,
        stretch: Stretch {
            after: from.min(within) as u32,
            within: within as u32,
        },
    })
}

// How many of these events are steps.
fn steps_in(base: &[Event]) -> usize
    ensures steps { result ≡ count_by is_step base.now }
    ensures within { result ≤ length base.now }
{
    let mut steps = 0;
    for event in base {
        if matches!(*event, Event::Step) {
            steps += 1;
        }
    }
    steps
}
