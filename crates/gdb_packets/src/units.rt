//! What an input begins with: a packet, an answer to one, a byte that interrupts, or noise.

ghost use Rattle.std.specs.Prelude.{ℕ, ◌≡◌, ◌≤◌, ◌∷◌, ◌++◌, List, IfOk, length};
ghost use Rattle.std.specs.List.{position, position_or_len};
ghost use Rattle.gdb_packets.specs.SeenUnits.{seen};
ghost use Rattle.gdb_packets.specs.Units as spec;

use crate::digits::{byte_of, is_hexadecimal};
use crate::framing::sum_of;
use std::alloc::{AllocError, Global};

/// How many bytes a packet that isn't whole may have before it is given up.
const MOST_BYTES: usize = 16_384;

/// What an input begins with.
#[derive(Clone, Copy, Drop)]
pub enum InputUnit<'a> {
    /// A packet with the right sum: the bytes between its `$` and its `#`, as they were sent.
    Packet(&'a [u8]),
    /// A packet with another sum, or without digits of a sum, or with too many bytes before it was whole. It is to come again.
    Damaged,
    /// `+`: the last packet that was sent came.
    Accepted,
    /// `-`: the last packet that was sent is to be sent again.
    Refused,
    /// The byte 3: the run is to stop.
    Interrupt,
    /// Any other byte, or a packet that another one cut off.
    Noise,
    /// Nothing, or a packet that isn't whole yet.
    Partial,
}

/// What an input begins with, and what comes after that. If it begins with nothing, or with a packet that isn't whole yet, all of it comes
/// after that.
pub fn first_unit(input: &[u8]) -> (InputUnit<'_>, &[u8])
    ensures unit { spec.first_unit input.now ≡ (seen result.0, result.1.now) }
{
    match input {
        [b'$', rest @ ..] => packet_in(input, rest),
        [b'+', rest @ ..] => (InputUnit::Accepted, rest),
        [b'-', rest @ ..] => (InputUnit::Refused, rest),
        [3, rest @ ..] => (InputUnit::Interrupt, rest),
        [_, rest @ ..] => (InputUnit::Noise, rest),
        [] => (InputUnit::Partial, input),
    }
}

// The packet that begins with a `$`, by what comes after it.
fn packet_in<'a>(input: &'a [u8], bytes: &'a [u8]) -> (InputUnit<'a>, &'a [u8])
    ensures unit { spec.packet_in input.now bytes.now ≡ (seen result.0, result.1.now) }
{
    let count = mark_in(bytes);
    closed(input, &bytes[..count], &bytes[count..])
}

// The place of the first byte that ends the bytes of a packet; how many bytes there are, if none does.
fn mark_in(bytes: &[u8]) -> usize
    ensures place { result ≡ position_or_len spec.is_mark bytes.now }
    ensures within { result ≤ length bytes.now }
{
    match first_mark(bytes) {
        Some(place) => place,
        None => bytes.len(),
    }
}

// The place of the first byte that ends the bytes of a packet.
fn first_mark(bytes: &[u8]) -> Option<usize>
    ensures place { result ≡ position (λ b. spec.is_mark b) bytes.now }
{
    bytes.iter().position(|b| is_mark(*b))
}

// Whether a byte ends the bytes of a packet.
fn is_mark(b: u8) -> bool
    ensures mark { result ≡ spec.is_mark b }
{
    b == b'#' || b == b'$'
}

// The bytes of a packet, and what comes from its mark on.
fn closed<'a>(input: &'a [u8], bytes: &'a [u8], rest: &'a [u8]) -> (InputUnit<'a>, &'a [u8])
    ensures unit { spec.closed input.now bytes.now rest.now ≡ (seen result.0, result.1.now) }
{
    match rest {
        [] => {
            if bytes.len() > MOST_BYTES {
                (InputUnit::Damaged, rest)
            } else {
                (InputUnit::Partial, input)
            }
        }
        [b'$', ..] => (InputUnit::Noise, rest),
        [_, digits @ ..] => summed(input, bytes, digits),
    }
}

// The bytes of a packet, and what comes after its `#`.
fn summed<'a>(input: &'a [u8], bytes: &'a [u8], digits: &'a [u8]) -> (InputUnit<'a>, &'a [u8])
    ensures unit { spec.summed input.now bytes.now digits.now ≡ (seen result.0, result.1.now) }
{
    match digits {
        [high, low, rest @ ..] => {
            if is_hexadecimal(*high) && is_hexadecimal(*low) {
                (judged(bytes, *high, *low), rest)
            } else {
                (InputUnit::Damaged, digits)
            }
        }
        _ => (InputUnit::Partial, input),
    }
}

// A packet of these bytes with these two digits.
fn judged(bytes: &[u8], high: u8, low: u8) -> InputUnit<'_>
    ensures unit { spec.judged bytes.now high low ≡ seen result }
{
    if byte_of(high, low) == Some(sum_of(bytes)) {
        InputUnit::Packet(bytes)
    } else {
        InputUnit::Damaged
    }
}

/// The bytes that a packet says, by the bytes that were sent.
///
/// # Errors
/// Out of memory.
pub fn unescaped(alloc: Global, bytes: &[u8]) -> Result<Vec<u8>, AllocError>
    ensures said { IfOk result (λ said. said.items ≡ spec.unescaped bytes.now) }
{
    let mut said = Vec::new(alloc);
    let mut is_escaped = false;
    for byte in bytes {
        is_escaped = say(&mut said, is_escaped, *byte)?;
    }
    if is_escaped {
        said.push(b'}')?;
    }
    Ok(said)
}

// Appends what a byte says, after a `}` or not, and answers whether it escapes the next.
fn say(said: &mut Vec<u8>, is_escaped: bool, byte: u8) -> Result<bool, AllocError>
    ensures said { IfOk result (λ escapes. (rest : List ℕ) → said.old.items ++ spec.unescaped_after is_escaped (byte ∷ rest) ≡ said.new.items ++ spec.unescaped_after escapes rest) }
{
    if is_escaped {
        said.push(byte ^ 0x20)?;
        return Ok(false);
    }
    if byte == b'}' {
        return Ok(true);
    }
    said.push(byte)?;
    Ok(false)
}
