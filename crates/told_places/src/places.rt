//! Places in functions and variables.

ghost use Rattle.std.specs.Prelude.{◌≡◌, ◌++◌, OnOk, map};
ghost use Rattle.elf_symbols.specs.CodePlaces.{seen_place};
ghost use Rattle.told_places.specs.Places as spec;

use elf_symbols::{Place, function_at, variable_at};
use itoa::Buffer;
use printed_runs::Text;
use std::alloc::AllocError;
use std::str;
use xinu_base::RAM_SIZE;

/// Appends the function in which an address is, after some words, and how far the address is from its beginning: nothing if it is in none of
/// the functions of the files, or after the end of RAM.
///
/// # Errors
/// Out of memory.
#[tactic(auto, unfolding(crate::specs::Places::function_text))]
pub fn push_function(
    told: &mut Vec<u8>,
    words: &str,
    files: &[Vec<u8>],
    address: u32,
) -> Result<(), AllocError>
    ensures function { OnOk result (told.new.items ≡ told.old.items ++ spec.function_text words.now (map (λ v. v.items) files.now) address) }
{
    if address < RAM_SIZE {
        push_place(told, words, nearest_function(files, address))
    } else {
        Ok(())
    }
}

// Appends a function after some words, and how far a place is from its beginning.
#[tactic(auto, unfolding(crate::specs::Places::place_text))]
fn push_place(told: &mut Vec<u8>, words: &str, place: Option<Place<'_>>) -> Result<(), AllocError>
    ensures place { OnOk result (told.new.items ≡ told.old.items ++ spec.place_text words.now (seen_place place.entry)) }
{
    match place {
        Some(place) => {
            let mut digits = Buffer::new();
            told.extend_from_slice(words.as_bytes())?;
            told.extend_from_slice(shown(place.name).as_bytes())?;
            told.extend_from_slice(b"+")?;
            told.extend_from_slice(digits.format(place.offset).as_bytes())
        }
        None => Ok(()),
    }
}

/// Adds the function in which an address is, after some words, and how far the address is from its beginning: nothing if it is in none of
/// the functions of the files, or after the end of RAM. The text remembers if memory ran out.
pub fn add_function(text: &mut Text, words: &str, files: &[Vec<u8>], address: u32) {
    if address < RAM_SIZE {
        if let Some(place) = nearest_function(files, address) {
            text.put(words);
            text.put(shown(place.name));
            text.numbered("+", place.offset as u64);
        }
    }
}

/// The place of an address after the function, or label of assembler, that begins nearest before it, of all files; of several as near, that
/// of the first file. `None` if and only if no file has one.
pub fn nearest_function(files: &[Vec<u8>], address: u32) -> Option<Place<'_>>
    ensures place { seen_place result ≡ spec.nearest_function (map (λ v. v.items) files.now) address }
{
    let mut best: Option<Place<'_>> = None;
    let mut left = files.len();
    while left > 0 {
        left -= 1;
        best = nearer(function_at(files[left].as_slice(), address), best);
    }
    best
}

/// The place of an address in the variable that has the byte there: of several, also of several files, the one that begins nearest before it.
pub fn nearest_variable(files: &[Vec<u8>], address: u32) -> Option<Place<'_>> {
    let mut best: Option<Place<'_>> = None;
    for file in files {
        best = nearer(best, variable_at(file.as_slice(), address));
    }
    best
}

// Of two places the one that is nearer to its beginning, and the first if both are as near.
fn nearer<'a>(best: Option<Place<'a>>, other: Option<Place<'a>>) -> Option<Place<'a>>
    ensures place { seen_place result ≡ spec.nearer (seen_place best.entry) (seen_place other.entry) }
{
    match (best, other) {
        (Some(best), Some(other)) => {
            if other.offset < best.offset {
                Some(other)
            } else {
                Some(best)
            }
        }
        (Some(best), None) => Some(best),
        (None, other) => other,
    }
}

/// Bytes as a text; empty if they aren't one.
pub fn shown(bytes: &[u8]) -> &str
    ensures shown { result.now ≡ spec.shown bytes.now }
{
    match str::from_utf8(bytes) {
        Ok(text) => text,
        Err(_) => "",
    }
}
