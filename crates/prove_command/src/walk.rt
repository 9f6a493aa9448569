//! The walk through a program: what is known at each place, found from the lock alone.
//!
//! It begins at the first place without the lock and with nothing known. What is known where several ways meet is what is known on each. A
//! place is looked at again when less is known there than before, until nothing changes. It owes no proof, since the check is the judge.

ghost use Rattle.std.specs.Prelude.{◌<◌, ◌≤◌, ◌+◌, vec_len};

use crate::causes::{Cause, Fault};
use crate::steps::{Spot, Way, step};
use program_logic::{Facts, Lock, Place, Slot, are_same};
use rv_hart::Ram;
use std::alloc::AllocError;

/// The most places of all programs.
const MOST_PLACES: usize = 4096;
/// The most times that all places of a program are looked at.
const MOST_PASSES: u32 = 300_000;

/// What comes of looking at a place, or at all of them.
#[derive(Clone, Copy)]
enum Found {
    Same,
    Changed,
    Stopped(Fault),
}

/// The program of an image that is walked: the number of the image, its first address, and where its places begin in the table.
#[derive(Clone, Copy)]
pub(crate) struct Program {
    pub(crate) image: u8,
    pub(crate) first: u32,
    pub(crate) start: usize,
}

/// Adds the places of a program to a table, with what is known at each. The fault at which the walk stopped, if it did.
///
/// # Errors
/// Out of memory.
pub(crate) fn walk(
    ram: &Ram,
    lock: &Lock,
    program: Program,
    table: &mut Vec<Place>,
) -> Result<Option<Fault>, AllocError> {
    let begin = Way {
        place: 0,
        held: false,
        facts: Facts {
            registers: [Slot::Unknown; 32],
            word: Slot::Unknown,
        },
    };
    if let Found::Stopped(fault) = reach(ram, lock, program, &begin, table)? {
        return Ok(Some(fault));
    }
    for _ in 0..MOST_PASSES {
        match pass(ram, lock, program, table)? {
            Found::Same => return Ok(None),
            Found::Changed => {}
            Found::Stopped(fault) => return Ok(Some(fault)),
        }
    }
    Ok(Some(stopped(program, 0, false, Cause::TooLong)))
}

// Looks at each place of the program.
fn pass(
    ram: &Ram,
    lock: &Lock,
    program: Program,
    table: &mut Vec<Place>,
) -> Result<Found, AllocError> {
    let mut all = Found::Same;
    for place in 0..MOST_PLACES {
        match look(ram, lock, program, place as u32, false, table)? {
            Found::Same => {}
            Found::Changed => all = Found::Changed,
            Found::Stopped(fault) => return Ok(Found::Stopped(fault)),
        }
        match look(ram, lock, program, place as u32, true, table)? {
            Found::Same => {}
            Found::Changed => all = Found::Changed,
            Found::Stopped(fault) => return Ok(Found::Stopped(fault)),
        }
    }
    Ok(all)
}

// Looks at a place, with the lock or without, if it is reached so.
fn look(
    ram: &Ram,
    lock: &Lock,
    program: Program,
    place: u32,
    held: bool,
    table: &mut Vec<Place>,
) -> Result<Found, AllocError> {
    let Some(here) = place_in(table.as_slice(), program.start, place) else {
        return Ok(Found::Same);
    };
    let side = if held { here.held } else { here.free };
    let Some(facts) = side else {
        return Ok(Found::Same);
    };
    let spot = Spot {
        first: program.first,
        place,
        held,
    };
    match step(lock, spot, here.word, &facts) {
        Ok(ways) => {
            let first = reach(ram, lock, program, &ways.first, table)?;
            let second = match &ways.second {
                Some(second) => reach(ram, lock, program, second, table)?,
                None => Found::Same,
            };
            Ok(both(first, second))
        }
        Err(cause) => Ok(Found::Stopped(stopped(program, place, held, cause))),
    }
}

// A place of a program in the table.
fn place_in(table: &[Place], start: usize, place: u32) -> Option<Place> {
    let at = start.checked_add(place as usize)?;
    if at < table.len() {
        Some(table[at])
    } else {
        None
    }
}

// What comes of two.
fn both(first: Found, second: Found) -> Found {
    match first {
        Found::Stopped(fault) => Found::Stopped(fault),
        Found::Same => second,
        Found::Changed => match second {
            Found::Stopped(fault) => Found::Stopped(fault),
            _ => Found::Changed,
        },
    }
}

// A fault at a place.
fn stopped(program: Program, place: u32, held: bool, cause: Cause) -> Fault {
    Fault {
        image: program.image,
        address: program.first.wrapping_add(place.wrapping_mul(4)),
        held,
        cause,
    }
}

// A place is reached on a way: the table has it then, with what is known on all ways so far.
fn reach(
    ram: &Ram,
    lock: &Lock,
    program: Program,
    way: &Way,
    table: &mut Vec<Place>,
) -> Result<Found, AllocError> {
    if way.place as usize >= MOST_PLACES {
        return Ok(Found::Stopped(stopped(program, 0, way.held, Cause::TooLong)));
    }
    for _ in 0..MOST_PLACES {
        let many = table.len().saturating_sub(program.start);
        if many > way.place as usize {
            break;
        }
        let address = program.first.wrapping_add((many as u32).wrapping_mul(4));
        match word_at(ram, lock, address) {
            Some(word) => table.push(unreached(word))?,
            None => return Ok(Found::Stopped(stopped(program, way.place, way.held, Cause::NoWord))),
        }
    }
    let Some(at) = program.start.checked_add(way.place as usize) else {
        return Ok(Found::Same);
    };
    Ok(learn(table.as_mut_slice(), at, way))
}

// A place to which no way is known yet.
fn unreached(word: u32) -> Place {
    Place {
        word,
        free: None,
        held: None,
    }
}

// The word of a program: it lies below the guarded word.
fn word_at(ram: &Ram, lock: &Lock, address: u32) -> Option<u32> {
    if address >= lock.word || lock.word - address < 4 {
        return None;
    }
    ram.read32(address)
}

// What is known at a place is known on this way too.
fn learn(table: &mut [Place], at: usize, way: &Way) -> Found {
    if at >= table.len() {
        return Found::Same;
    }
    let place = table[at];
    let side = if way.held { place.held } else { place.free };
    let Some(known) = side else {
        table[at] = with_side(place, way.held, way.facts);
        return Found::Changed;
    };
    let met = meet(&known, &way.facts);
    if has_all(&met, &known) {
        return Found::Same;
    }
    table[at] = with_side(place, way.held, met);
    Found::Changed
}

// A place with what is known there, with the lock or without.
fn with_side(place: Place, held: bool, facts: Facts) -> Place {
    if held {
        Place {
            word: place.word,
            free: place.free,
            held: Some(facts),
        }
    } else {
        Place {
            word: place.word,
            free: Some(facts),
            held: place.held,
        }
    }
}

// What is known both times.
fn meet(a: &Facts, b: &Facts) -> Facts {
    let mut met = *a;
    for i in 0..32usize {
        if !are_same(a.registers[i], b.registers[i]) {
            met.registers[i] = Slot::Unknown;
        }
    }
    if !are_same(a.word, b.word) {
        met.word = Slot::Unknown;
    }
    met
}

// Whether as much is known as before.
fn has_all(met: &Facts, known: &Facts) -> bool {
    for i in 0..32usize {
        if is_known(known.registers[i]) && !is_known(met.registers[i]) {
            return false;
        }
    }
    is_known(met.word) || !is_known(known.word)
}

fn is_known(slot: Slot) -> bool {
    matches!(slot, Slot::Known(_))
}
