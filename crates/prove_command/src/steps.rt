//! Where a place leads, and what is known there.

ghost use Rattle.std.specs.Prelude.{◌<◌, ◌^◌};

use crate::causes::Cause;
use program_logic::{
    Act, Facts, Lock, Slot, Width, act_of, after_call, are_same, constant, given, is_constant,
    is_guarded, is_ticks, may_load, may_store, number_in, once_more, only_answers, slot_of,
};
use rv_isa::decode;

/// A place, by its program's first address and its number, and whether a process comes there with the lock.
#[derive(Clone, Copy)]
pub(crate) struct Spot {
    pub(crate) first: u32,
    pub(crate) place: u32,
    pub(crate) held: bool,
}

/// A place to which one leads, and what is known there.
#[derive(Clone, Copy)]
pub(crate) struct Way {
    pub(crate) place: u32,
    pub(crate) held: bool,
    pub(crate) facts: Facts,
}

/// The places to which one leads: one or two.
#[derive(Clone, Copy)]
pub(crate) struct Ways {
    pub(crate) first: Way,
    pub(crate) second: Option<Way>,
}

/// Where the word of a place leads.
///
/// # Errors
/// Why it isn't followed.
pub(crate) fn step(lock: &Lock, spot: Spot, word: u32, facts: &Facts) -> Result<Ways, Cause> {
    let Some(instruction) = decode(word) else {
        return Err(Cause::Instruction);
    };
    let pc = spot.first.wrapping_add(spot.place.wrapping_mul(4));
    match act_of(instruction, pc, facts) {
        Act::Sets(rd, value) => Ok(next(spot, given(facts, rd, value))),
        Act::Branches(offset, holds) => branch(spot, pc.wrapping_add(offset), holds, facts),
        Act::Jumps(rd, Some(target)) => {
            jump(
                spot,
                target,
                &given(facts, rd, constant(pc.wrapping_add(4))),
            )
        }
        Act::Jumps(_, None) => Err(Cause::Goes),
        Act::Loads(rd, width, address) => load(lock, spot, rd, width, address, facts),
        Act::Stores(width, value, address) => store(lock, spot, width, value, address, facts),
        Act::Passes => Ok(next(spot, *facts)),
        Act::Calls => call(lock, spot, facts),
        Act::Stops => Err(Cause::Instruction),
    }
}

// The next place alone.
fn next(spot: Spot, facts: Facts) -> Ways {
    only(onward(spot, spot.held, facts))
}

// One way.
fn only(first: Way) -> Ways {
    Ways {
        first,
        second: None,
    }
}

// The next place, with the lock or without.
fn onward(spot: Spot, held: bool, facts: Facts) -> Way {
    Way {
        place: spot.place.wrapping_add(1),
        held,
        facts,
    }
}

// A load: what is loaded is known of the guarded word alone.
fn load(
    lock: &Lock,
    spot: Spot,
    rd: u8,
    width: Width,
    address: Slot,
    facts: &Facts,
) -> Result<Ways, Cause> {
    if is_guarded(lock, width, address) {
        return if spot.held {
            Ok(next(spot, given(facts, rd, facts.word)))
        } else {
            Err(Cause::Reads)
        };
    }
    let number = number_in(address);
    if may_load(lock, spot.held, number, width) {
        return Ok(next(spot, given(facts, rd, Slot::Unknown)));
    }
    if may_load(lock, true, number, width) {
        return Err(Cause::Reads);
    }
    Err(Cause::ReadsAt(address))
}

// A store into the guarded word, or behind it.
fn store(
    lock: &Lock,
    spot: Spot,
    width: Width,
    value: Slot,
    address: Slot,
    facts: &Facts,
) -> Result<Ways, Cause> {
    if is_guarded(lock, width, address) {
        if !spot.held {
            return Err(Cause::Writes);
        }
        let mut after = *facts;
        after.word = value;
        return Ok(next(spot, after));
    }
    if may_store(lock, number_in(address), width) {
        Ok(next(spot, *facts))
    } else {
        Err(Cause::WritesAt(address))
    }
}

// The way to the place at an address.
fn far(spot: Spot, target: u32, facts: &Facts) -> Result<Way, Cause> {
    if target < spot.first || (target - spot.first) % 4 != 0 {
        return Err(Cause::Target(target));
    }
    Ok(Way {
        place: (target - spot.first) / 4,
        held: spot.held,
        facts: *facts,
    })
}

// A jump.
fn jump(spot: Spot, target: u32, facts: &Facts) -> Result<Ways, Cause> {
    match far(spot, target, facts) {
        Ok(first) => Ok(only(first)),
        Err(cause) => Err(cause),
    }
}

// A branch, of which it may be known whether it is taken.
fn branch(spot: Spot, target: u32, holds: Option<bool>, facts: &Facts) -> Result<Ways, Cause> {
    if let Some(false) = holds {
        return Ok(next(spot, *facts));
    }
    match far(spot, target, facts) {
        Ok(first) if holds.is_some() => Ok(only(first)),
        Ok(first) => Ok(Ways {
            first,
            second: Some(onward(spot, spot.held, *facts)),
        }),
        Err(cause) => Err(cause),
    }
}

// A call.
fn call(lock: &Lock, spot: Spot, facts: &Facts) -> Result<Ways, Cause> {
    let number = slot_of(facts, 17);
    let first = slot_of(facts, 10);
    let answered = given(facts, 10, constant(0));
    if is_constant(number, 18) || is_constant(number, 19) {
        if !is_constant(first, lock.sem) {
            return Err(Cause::OtherSemaphore(first));
        }
        return if is_constant(number, 18) {
            wait(lock, spot, facts)
        } else {
            signal(lock, spot, facts)
        };
    }
    if is_constant(number, 14) {
        return create(spot, first, facts);
    }
    if is_constant(number, 6) {
        return Ok(next(spot, answered));
    }
    if is_constant(number, 26) {
        return if is_ticks(first) {
            Ok(next(spot, answered))
        } else {
            Err(Cause::Sleeps(first))
        };
    }
    if only_answers(number) {
        return Ok(next(spot, given(facts, 10, Slot::Unknown)));
    }
    Err(Cause::Call(number))
}

// `wait`: the lock is granted, or it isn't made yet.
fn wait(lock: &Lock, spot: Spot, facts: &Facts) -> Result<Ways, Cause> {
    if spot.held {
        return Err(Cause::Waits);
    }
    let granted = after_call(facts, Slot::Known(lock.rule));
    let refused = given(facts, 10, constant(4294967295));
    Ok(Ways {
        first: onward(spot, true, granted),
        second: Some(onward(spot, false, refused)),
    })
}

// `signal`: the rule holds once more.
fn signal(lock: &Lock, spot: Spot, facts: &Facts) -> Result<Ways, Cause> {
    if !spot.held {
        return Err(Cause::Gives);
    }
    if !are_same(facts.word, Slot::Known(once_more(lock.rule))) {
        return Err(Cause::Leaves(facts.word));
    }
    Ok(only(onward(spot, false, after_call(facts, Slot::Unknown))))
}

// `semcreate`.
fn create(spot: Spot, count: Slot, facts: &Facts) -> Result<Ways, Cause> {
    if spot.held {
        return Err(Cause::Makes);
    }
    if !is_constant(count, 1) {
        return Err(Cause::Count(count));
    }
    Ok(next(spot, given(facts, 10, Slot::Unknown)))
}
