//! Events with quantum ends put into them.

ghost use Rattle.std.specs.Prelude.{◌≡◌, ◌+◌, ◌<◌, IfOk};
ghost use Rattle.preemptions.specs.Placements.{IsAscending};
ghost use Rattle.preemptions.specs.Preempted as spec;
ghost use Rattle.preemptions.specs.Preempted.{preempted_at};
ghost use Rattle.preemptions.specs.Passes.{AreAhead, Steps};

use std::alloc::{AllocError, Global};
use xinu_base::Event;

/// The events with the end of a quantum at each of these places, which ascend: two ticks before the step that follows so many steps.
///
/// # Errors
/// Out of memory.
pub fn preempt(alloc: Global, base: &[Event], places: &[u32]) -> Result<Vec<Event>, AllocError>
    requires ascending { IsAscending places.now }
    ensures events { IfOk result (λ events. events.items ≡ preempted_at places.now base.now) }
{
    let mut events = Vec::new(alloc);
    let mut steps = 0;
    let mut rest = places;
    for event in base {
        if is_step(*event) {
            rest = push_step(&mut events, rest, steps)?;
            steps += 1;
        } else {
            events.push(*event)?;
        }
    }
    Ok(events)
}

// Appends the step that follows so many steps, with the end of a quantum before it if the first place is there, and answers the places after it.
fn push_step<'a>(
    events: &mut Vec<Event>,
    places: &'a [u32],
    steps: usize,
) -> Result<&'a [u32], AllocError>
    requires ahead { AreAhead steps places.now }
    ensures appended { IfOk result (λ left. Steps steps places.now left.now events.old.items events.new.items) }
{
    let [place, left @ ..] = places else {
        events.push(Event::Step)?;
        return Ok(places);
    };
    if *place as usize != steps {
        events.push(Event::Step)?;
        return Ok(places);
    }
    events.push(Event::Tick)?;
    events.push(Event::Tick)?;
    events.push(Event::Step)?;
    Ok(left)
}

// Whether an event is a step.
pub(crate) fn is_step(event: Event) -> bool
    ensures step { result ≡ spec.is_step event }
{
    match event {
        Event::Step => true,
        _ => false,
    }
}
