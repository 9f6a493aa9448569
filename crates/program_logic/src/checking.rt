//! The check of programs: whether they keep to a lock.

ghost use Rattle.std.specs.Prelude.{◌≡◌, ◌<◌, ◌≤◌, ◌+◌, ◌*◌, ◌^◌, None, false, length, true};
ghost use Rattle.program_logic.specs.Claims.{outlines_of};
ghost use Rattle.program_logic.specs.Kept.{AlwaysKeeps, program_at, programs_in};
ghost use Rattle.program_logic.specs.Obeying.{IsSystem};
ghost use Rattle.program_logic.specs.PlaceCheck as places;
ghost use Rattle.program_logic.specs.SystemCheck as systems;
ghost use Rattle.program_logic.specs.Terms.{nothing};

use crate::knowledge::Facts;
use crate::outline::{Lock, Place, Range, follows};
use crate::values::Slot;
use crate::word_check::place_checks;

/// Whether these programs, each a range of the table, pass the check. If the answer is `true` all their outlines hold on every schedule:
/// from the start on, on any disks, the programs keep the rule of the lock, and each of them stays alive. `false` tells nothing of what
/// they do.
#[tactic(auto, using(crate::proofs::Tables::all_check))]
pub fn check(lock: &Lock, table: &[Place], ranges: &[Range]) -> bool
    ensures checks { result ≡ true → systems.system_checks lock.now (programs_in table.now ranges.now) ≡ true }
    ensures obeys { result ≡ true → IsSystem (outlines_of lock.now (programs_in table.now ranges.now)) }
    ensures keeps { result ≡ true → AlwaysKeeps lock.now (programs_in table.now ranges.now) }
{
    lock_checks(lock, ranges.len()) && ranges_check(lock, table, ranges)
}

#[tactic(auto, using(crate::proofs::Tables::range_step, crate::proofs::Tables::range_ends))]
fn ranges_check(lock: &Lock, table: &[Place], ranges: &[Range]) -> bool
    ensures { result ≡ true → systems.programs_check lock.now (programs_in table.now ranges.now) ≡ true }
{
    for i in 0..ranges.len() {
        if !range_checks(lock, table, &ranges[i]) {
            return false;
        }
    }
    true
}

fn range_checks(lock: &Lock, table: &[Place], range: &Range) -> bool
    ensures { result ≡ true → systems.program_checks lock.now (program_at table.now range.now) ≡ true }
{
    if range.start > range.after || range.after > table.len() {
        return false;
    }
    program_checks(lock, range.first, &table[range.start..range.after])
}

// Whether a program keeps to the lock.
fn program_checks(lock: &Lock, first: u32, table: &[Place]) -> bool
    ensures { result ≡ true → systems.program_checks lock.now (record { first = first; places = table.now }) ≡ true }
{
    if first % 4 != 0 || !lies_below(lock, first, table) || !begins(table) {
        return false;
    }
    match first_fault(lock, first, table) {
        Some(_) => false,
        None => true,
    }
}

// The first place that does not check.
#[tactic(auto, using(crate::proofs::Tables::table_step, crate::proofs::Tables::table_ends))]
fn first_fault(lock: &Lock, first: u32, table: &[Place]) -> Option<usize>
    requires { first + 4 * length table.now < 2 ^ 32 }
    ensures { result ≡ None → places.places_check lock.now first table.now 0 table.now ≡ true }
{
    for k in 0..table.len() {
        if !place_checks(lock, first, table, k, &table[k]) {
            return Some(k);
        }
    }
    None
}

// Whether a process may begin at the first place, knowing nothing.
fn begins(table: &[Place]) -> bool
    ensures { result ≡ places.follows table.now false 0 nothing }
{
    follows(
        table,
        false,
        0,
        &Facts {
            registers: [Slot::Unknown; 32],
            word: Slot::Unknown,
        },
    )
}

// Whether a program lies below the guarded word.
fn lies_below(lock: &Lock, first: u32, table: &[Place]) -> bool
    ensures below { result ≡ true → first + 4 * length table.now ≤ lock.now.word }
    ensures small { result ≡ true → first + 4 * length table.now < 2 ^ 32 }
{
    first <= lock.word && table.len() <= ((lock.word - first) / 4) as usize
}

// Whether there can be such a lock, for this many processes.
fn lock_checks(lock: &Lock, many: usize) -> bool
    ensures { result ≡ true → systems.lock_checks lock.now many ≡ true }
{
    lock.word % 4 == 0 && lock.word <= 1048572 && many < 64 && lock.sem >= 4 && lock.sem < 128
}
