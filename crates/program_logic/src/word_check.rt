//! What the word of a place leads to.

ghost use Rattle.std.specs.Prelude.{◌≡◌, ◌<◌, ◌+◌, ◌*◌, ◌^◌, length};
ghost use Rattle.program_logic.specs.PlaceCheck as places;

use crate::acts::{Act, act_of};
use crate::call_check::call_checks;
use crate::knowledge::{Facts, given};
use crate::outline::{Lock, Place, follows, leads};
use crate::transfer_check::{load_checks, store_checks};
use crate::values::constant;
use rv_isa::{Instr, decode};

// A branch, whose condition may be known.
fn branch_checks(
    first: u32,
    table: &[Place],
    k: usize,
    held: bool,
    offset: u32,
    holds: Option<bool>,
    facts: &Facts,
) -> bool
    requires within { k < length table.now }
    requires low { first + 4 * length table.now < 2 ^ 32 }
    ensures { result ≡ places.branch_checks first table.now k held offset holds facts.now }
{
    let pc = first + 4 * (k as u32);
    let target = pc.wrapping_add(offset);
    match holds {
        Some(true) => leads(first, table, held, target, facts),
        Some(false) => follows(table, held, k + 1, facts),
        None => { leads(first, table, held, target, facts) && follows(table, held, k + 1, facts) }
    }
}

// A jump, whose target may be known.
fn jump_checks(
    first: u32,
    table: &[Place],
    k: usize,
    held: bool,
    rd: u8,
    target: Option<u32>,
    facts: &Facts,
) -> bool
    requires within { k < length table.now }
    requires low { first + 4 * length table.now < 2 ^ 32 }
    ensures { result ≡ places.jump_checks first table.now k held rd target facts.now }
{
    let pc = first + 4 * (k as u32);
    match target {
        Some(target) => leads(
            first,
            table,
            held,
            target,
            &given(facts, rd, constant(pc.wrapping_add(4))),
        ),
        None => false,
    }
}

// What an instruction does leads to places.
fn act_checks(
    lock: &Lock,
    first: u32,
    table: &[Place],
    k: usize,
    held: bool,
    act: Act,
    facts: &Facts,
) -> bool
    requires within { k < length table.now }
    requires low { first + 4 * length table.now < 2 ^ 32 }
    ensures { result ≡ places.act_checks lock.now first table.now k held act facts.now }
{
    match act {
        Act::Sets(rd, value) => follows(table, held, k + 1, &given(facts, rd, value)),
        Act::Branches(offset, holds) => {
            branch_checks(first, table, k, held, offset, holds, facts)
        }
        Act::Jumps(rd, target) => jump_checks(first, table, k, held, rd, target, facts),
        Act::Loads(rd, width, address) => {
            load_checks(lock, table, k, held, rd, width, address, facts)
        }
        Act::Stores(width, value, address) => {
            store_checks(lock, table, k, held, width, value, address, facts)
        }
        Act::Passes => follows(table, held, k + 1, facts),
        Act::Calls => call_checks(lock, table, k, held, facts),
        Act::Stops => false,
    }
}

fn checks_instr(
    lock: &Lock,
    first: u32,
    table: &[Place],
    k: usize,
    held: bool,
    instruction: Option<Instr>,
    facts: &Facts,
) -> bool
    requires within { k < length table.now }
    requires low { first + 4 * length table.now < 2 ^ 32 }
    ensures { result ≡ places.checks_instr lock.now first table.now k held instruction facts.now }
{
    let pc = first + 4 * (k as u32);
    match instruction {
        None => false,
        Some(instruction) => {
            let act = act_of(instruction, pc, facts);
            act_checks(lock, first, table, k, held, act, facts)
        }
    }
}

fn side_checks(
    lock: &Lock,
    first: u32,
    table: &[Place],
    k: usize,
    held: bool,
    word: u32,
    facts: &Option<Facts>,
) -> bool
    requires within { k < length table.now }
    requires low { first + 4 * length table.now < 2 ^ 32 }
    ensures { result ≡ places.side_checks lock.now first table.now k held word facts.now }
{
    match facts {
        None => true,
        Some(facts) => checks_instr(lock, first, table, k, held, decode(word), facts),
    }
}

// Whether what is known where the word of a place leads is known there, without the token and with it.
pub(crate) fn place_checks(
    lock: &Lock,
    first: u32,
    table: &[Place],
    k: usize,
    place: &Place,
) -> bool
    requires within { k < length table.now }
    requires low { first + 4 * length table.now < 2 ^ 32 }
    ensures { result ≡ places.place_checks lock.now first table.now k place.now }
{
    side_checks(lock, first, table, k, false, place.word, &place.free)
        && side_checks(lock, first, table, k, true, place.word, &place.held)
}
