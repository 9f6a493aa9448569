//! Hexadecimal digits as they are read: numbers and bytes.

ghost use Rattle.std.specs.Prelude.{◌≡◌, ◌≤◌, ◌<◌, length, min, MatchOption, IfSome, IfOk, None, Some};
ghost use Rattle.std.specs.Char.{digit_value};
ghost use Rattle.std.specs.List.{position, position_or_len};
ghost use Rattle.std.specs.Str.Parse.{digits_value};
ghost use Rattle.gdb_packets.specs.Digits as spec;

use std::alloc::{AllocError, Global};

/// The least number that has more than 32 bits.
const TOO_LARGE: u64 = 0x1_0000_0000;

/// The number with which bytes begin, if it has at most 32 bits, and the bytes after its digits.
pub(crate) fn number_in(bytes: &[u8]) -> Option<(u32, &[u8])>
    ensures number { MatchOption result (spec.number_in bytes.now ≡ None) (λ cut. spec.number_in bytes.now ≡ Some (cut.0, cut.1.now)) }
{
    let count = digit_count(bytes);
    let digits = &bytes[..count];
    let number = value_of(digits);
    if digits.is_empty() || number >= TOO_LARGE {
        return None;
    }
    Some((number as u32, &bytes[count..]))
}

// The place of the first byte that is no digit; how many bytes there are, if none is.
fn digit_count(bytes: &[u8]) -> usize
    ensures place { result ≡ position_or_len spec.ends_number bytes.now }
    ensures within { result ≤ length bytes.now }
{
    match end_of_digits(bytes) {
        Some(place) => place,
        None => bytes.len(),
    }
}

// The place of the first byte that is no digit.
fn end_of_digits(bytes: &[u8]) -> Option<usize>
    ensures place { result ≡ position (λ b. spec.ends_number b) bytes.now }
{
    bytes.iter().position(|b| ends_number(*b))
}

// Whether a byte ends the digits of a number.
fn ends_number(b: u8) -> bool
    ensures ends { result ≡ spec.ends_number b }
{
    !is_hexadecimal(b)
}

// The number that digits write, or the least that is too large.
fn value_of(digits: &[u8]) -> u64
    ensures value { result ≡ min 4294967296 (digits_value 16 digits.now) }
    ensures bound { result ≤ 4294967296 }
{
    let mut number = 0;
    for digit in digits {
        number = (number * 16 + digit_value(*digit)).min(TOO_LARGE);
    }
    number
}

// The value of a digit or a letter.
fn digit_value(b: u8) -> u64
    ensures value { result ≡ digit_value b }
    ensures small { result ≤ 36 }
{
    match b {
        b'0'..=b'9' => (b - b'0') as u64,
        b'A'..=b'Z' => (b - b'A' + 10) as u64,
        b'a'..=b'z' => (b - b'a' + 10) as u64,
        _ => 36,
    }
}

/// Whether a byte is a hexadecimal digit, in either case.
pub(crate) fn is_hexadecimal(b: u8) -> bool
    ensures digit { result ≡ spec.is_hexadecimal b }
{
    is_between(b'0', b'9', b) || is_between(b'a', b'f', b) || is_between(b'A', b'F', b)
}

// Whether a byte lies between two others.
fn is_between(low: u8, high: u8, b: u8) -> bool
    ensures between { result ≡ spec.is_between low high b }
{
    low <= b && b <= high
}

// The value of a hexadecimal digit.
fn value_in(digit: u8) -> Option<u8>
    ensures value { result ≡ spec.value_in digit }
    ensures small { IfSome result (λ n. n < 16) }
{
    match digit {
        b'0'..=b'9' => Some(digit - b'0'),
        b'a'..=b'f' => Some(digit - b'a' + 10),
        b'A'..=b'F' => Some(digit - b'A' + 10),
        _ => None,
    }
}

/// The byte that two digits write, the higher one first.
pub(crate) fn byte_of(high: u8, low: u8) -> Option<u8>
    ensures byte { result ≡ spec.byte_of high low }
{
    Some(16 * value_in(high)? + value_in(low)?)
}

/// The bytes that digits write, two digits a byte.
///
/// # Errors
/// Out of memory.
pub(crate) fn bytes_of(alloc: Global, digits: &[u8]) -> Result<Option<Vec<u8>>, AllocError>
    ensures bytes { IfOk result (λ found. MatchOption found (spec.bytes_of digits.now ≡ None) (λ bytes. spec.bytes_of digits.now ≡ Some bytes.items)) }
{
    let mut bytes = Vec::new(alloc);
    let mut rest = digits;
    while !rest.is_empty() {
        let Some((byte, next)) = first_byte(rest) else {
            return Ok(None);
        };
        bytes.push(byte)?;
        rest = next;
    }
    Ok(Some(bytes))
}

// The byte that the first two digits write, and the digits after them.
fn first_byte(digits: &[u8]) -> Option<(u8, &[u8])>
    requires something { 0 < length digits.now }
    ensures bytes { MatchOption result (spec.bytes_of digits.now ≡ None) (λ cut. spec.bytes_of digits.now ≡ spec.in_front (Some cut.0) (spec.bytes_of cut.1.now)) }
    ensures shorter { IfSome result (λ cut. length cut.1.now < length digits.now) }
{
    match digits {
        [high, low, rest @ ..] => match byte_of(*high, *low) {
            Some(byte) => Some((byte, rest)),
            None => None,
        },
        _ => None,
    }
}
