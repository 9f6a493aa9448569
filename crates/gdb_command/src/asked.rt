//! What the debugger's `monitor` asks for.

ghost use Rattle.std.specs.Prelude.{◌≡◌, IfOk};
ghost use Rattle.gdb_command.specs.Monitor as spec;
ghost use Rattle.gdb_packets.specs.Commands.{monitor_words};

use gdb_packets::monitor_words;
use std::alloc::{AllocError, Global};

/// What `monitor` asks for.
#[derive(Clone, Copy)]
pub(crate) enum Asked {
    /// How many events were taken, and which comes next.
    Event,
    /// The tables.
    Tables,
    /// The lines of the events that were taken.
    Transcript,
    /// To go to where so many events were taken.
    Goto(u32),
    /// What can be asked for.
    Help,
}

/// What a packet asks `monitor` for.
///
/// # Errors
/// Out of memory.
pub(crate) fn asked_by(alloc: Global, payload: &[u8]) -> Result<Asked, AllocError>
    ensures asked { IfOk result (λ asked. asked ≡ spec.asked_by (monitor_words payload.now)) }
{
    match monitor_words(alloc, payload)? {
        Some(words) => Ok(asked_in(words.as_slice())),
        None => Ok(Asked::Help),
    }
}

// What words ask for.
fn asked_in(words: &[u8]) -> Asked
    ensures asked { result ≡ spec.asked_in words.now }
{
    if words == b"event".as_slice() {
        Asked::Event
    } else if words == b"tables".as_slice() {
        Asked::Tables
    } else if words == b"transcript".as_slice() {
        Asked::Transcript
    } else {
        going_to(words)
    }
}

// How many events are to be taken, if words ask for that.
fn going_to(words: &[u8]) -> Asked
    ensures asked { result ≡ spec.going_to words.now }
{
    match words.strip_prefix(b"goto ".as_slice()) {
        Some(digits) => place(digits),
        None => Asked::Help,
    }
}

// So many events are to be taken, if digits write a number.
fn place(digits: &[u8]) -> Asked
    ensures asked { result ≡ spec.place_by (spec.count_in digits.now) }
{
    match count_in(digits) {
        Some(count) => Asked::Goto(count),
        None => Asked::Help,
    }
}

// The number that decimal digits write, if there is a digit and the number has 32 bits.
fn count_in(digits: &[u8]) -> Option<u32>
    ensures count { result ≡ spec.count_in digits.now }
{
    if digits.is_empty() {
        return None;
    }
    let mut count = 0;
    for digit in digits {
        match one_more(count, *digit) {
            Some(next) => count = next,
            None => return None,
        }
    }
    Some(count)
}

// A number, and a digit after it.
fn one_more(count: u32, digit: u8) -> Option<u32>
    ensures next { result ≡ spec.one_more count digit }
{
    if !digit.is_ascii_digit() {
        return None;
    }
    let next = 10 * count as u64 + (digit - b'0') as u64;
    if next < 4_294_967_296 {
        Some(next as u32)
    } else {
        None
    }
}
