//! The judgment of what a walk found: it checks, and the images are these programs.

ghost use Rattle.std.specs.Prelude.{◌≡◌, ◌≤◌, ◌+◌, ◌*◌, ◌==◌, length, map, true};
ghost use Rattle.image_loader.specs.Images.{loaded_of};
ghost use Rattle.program_logic.specs.Kept.{program_at, programs_in};
ghost use Rattle.program_logic.specs.SystemCheck as systems;
ghost use Rattle.program_logic.specs.Terms.{value};
ghost use Rattle.xinu_model.specs.Memory.{number_at};

use image_loader::Image;
use program_logic::{Lock, Place, Range, check};

/// Whether these programs keep the rule of the lock, and the images, which are in this memory, are they.
pub(crate) fn are_proved(
    memory: &[u8],
    images: &[Image<'_>],
    lock: &Lock,
    table: &[Place],
    ranges: &[Range],
) -> bool
    ensures checks { result ≡ true → systems.system_checks lock.now (programs_in table.now ranges.now) ≡ true }
    ensures begins { result ≡ true → systems.begin_there (programs_in table.now ranges.now) (map loaded_of images.now) ≡ true }
    ensures there { result ≡ true → systems.ram_checks memory.now lock.now (programs_in table.now ranges.now) ≡ true }
{
    check(lock, table, ranges)
        && all_begin(images, table, ranges)
        && is_there(memory, lock, table, ranges)
}

// Whether each image begins at its program's first word.
fn all_begin(images: &[Image<'_>], table: &[Place], ranges: &[Range]) -> bool
    ensures { result ≡ true → systems.begin_there (programs_in table.now ranges.now) (map loaded_of images.now) ≡ true }
{
    match (images, ranges) {
        ([], []) => true,
        ([image, images @ ..], [range, ranges @ ..]) => {
            image.entry == range.first && all_begin(images, table, ranges)
        }
        _ => false,
    }
}

// Whether the lock is the first semaphore that is made, the rule holds before anything runs, and the programs lie there.
fn is_there(memory: &[u8], lock: &Lock, table: &[Place], ranges: &[Range]) -> bool
    ensures { result ≡ true → systems.ram_checks memory.now lock.now (programs_in table.now ranges.now) ≡ true }
{
    if lock.sem != 4 || !begins_by_the_rule(memory, lock) {
        return false;
    }
    all_lie(memory, table, ranges)
}

// Whether the rule holds before anything runs.
#[tactic(auto, using(crate::proofs::WordsThere::rule_of_none))]
fn begins_by_the_rule(memory: &[u8], lock: &Lock) -> bool
    ensures { result ≡ true → (number_at memory.now lock.now.word 4 == value lock.now.rule 0) ≡ true }
{
    let at = lock.word as usize;
    if memory.len() < 4 || at > memory.len() - 4 {
        return false;
    }
    word_at(memory, at) == lock.rule.plus
}

// Whether the programs lie there.
fn all_lie(memory: &[u8], table: &[Place], ranges: &[Range]) -> bool
    ensures { result ≡ true → systems.all_there memory.now (programs_in table.now ranges.now) ≡ true }
{
    match ranges {
        [] => true,
        [range, ranges @ ..] => { one_lies(memory, table, range) && all_lie(memory, table, ranges) }
    }
}

// Whether a program lies there.
fn one_lies(memory: &[u8], table: &[Place], range: &Range) -> bool
    ensures { result ≡ true → systems.lie_there memory.now range.now.first (systems.words_in (program_at table.now range.now).places) ≡ true }
{
    if range.start > range.after || range.after > table.len() {
        return false;
    }
    let first = range.first as usize;
    let places = &table[range.start..range.after];
    if first > memory.len() || places.len() > (memory.len() - first) / 4 {
        return false;
    }
    words_lie(memory, range.first, places)
}

// Whether the words of these places lie there from an address on.
#[tactic(auto, using(crate::proofs::WordsThere::lie_step, crate::proofs::WordsThere::lie_ends))]
fn words_lie(memory: &[u8], first: u32, places: &[Place]) -> bool
    requires { first + 4 * length places.now ≤ length memory.now }
    ensures { result ≡ true → systems.lie_there memory.now first (systems.words_in places.now) ≡ true }
{
    for k in 0..places.len() {
        if word_at(memory, first as usize + 4 * k) != places[k].word {
            return false;
        }
    }
    true
}

// The word at an address.
fn word_at(memory: &[u8], a: usize) -> u32
    requires { a + 4 ≤ length memory.now }
    ensures { result ≡ number_at memory.now a 4 }
{
    memory[a] as u32
        + 256
            * (memory[a + 1] as u32
                + 256 * (memory[a + 1 + 1] as u32 + 256 * (memory[a + 1 + 1 + 1] as u32)))
}
