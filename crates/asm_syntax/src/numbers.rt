//! The numbers that words write.

ghost use Rattle.std.specs.Prelude.{◌≡◌, ◌≤◌, ◌≤ℤ◌, ◌+◌, ◌*◌, min, pos, negsuc, IfSome, Some};
ghost use Rattle.std.specs.Char.{digit_value};
ghost use Rattle.std.specs.List.{list_all};
ghost use Rattle.std.specs.Str.Parse.{digits_value};
ghost use Rattle.asm_syntax.specs.Numbers as spec;

use crate::words::is_within;

/// Greater than each number that may be written anywhere.
const TOO_LARGE: u64 = 0x1_0000_0000;

/// The number that a word is: decimal, perhaps with a `-` before it, or hexadecimal after `0x`. One whose magnitude is over 4294967296
/// is given as one of that magnitude, which is too large everywhere.
pub(crate) fn number_in(word: &[u8]) -> Option<i64>
    ensures number { result ≡ spec.number_in word.now }
    ensures low { IfSome result (λ n. negsuc 4294967295 ≤ℤ n) }
    ensures high { IfSome result (λ n. n ≤ℤ pos 4294967296) }
{
    match word {
        [b'-', digits @ ..] => match decimal(digits) {
            Some(n) => Some(-(n as i64)),
            None => None,
        },
        [b'0', b'x', digits @ ..] => match hexadecimal(digits) {
            Some(n) => Some(n as i64),
            None => None,
        },
        _ => match decimal(word) {
            Some(n) => Some(n as i64),
            None => None,
        },
    }
}

// The number of decimal digits.
fn decimal(digits: &[u8]) -> Option<u64>
    ensures number { result ≡ spec.digits_in 10 spec.is_digit digits.now }
    ensures bound { IfSome result (λ n. n ≤ 4294967296) }
{
    if digits.is_empty() || !are_decimal(digits) {
        return None;
    }
    Some(decimal_value(digits))
}

// The number of hexadecimal digits.
fn hexadecimal(digits: &[u8]) -> Option<u64>
    ensures number { result ≡ spec.digits_in 16 spec.is_hexadecimal digits.now }
    ensures bound { IfSome result (λ n. n ≤ 4294967296) }
{
    if digits.is_empty() || !are_hexadecimal(digits) {
        return None;
    }
    Some(hexadecimal_value(digits))
}

// Whether each byte is a decimal digit.
fn are_decimal(bytes: &[u8]) -> bool
    ensures digits { result ≡ list_all spec.is_digit bytes.now }
{
    bytes.iter().all(|b| is_digit(*b))
}

// Whether each byte is a hexadecimal digit.
fn are_hexadecimal(bytes: &[u8]) -> bool
    ensures digits { result ≡ list_all spec.is_hexadecimal bytes.now }
{
    bytes.iter().all(|b| is_hexadecimal(*b))
}

// Whether a byte is a decimal digit.
fn is_digit(b: u8) -> bool
    ensures digit { result ≡ spec.is_digit b }
{
    is_within(b'0', b'9', b)
}

// Whether a byte is a hexadecimal digit, in either case.
fn is_hexadecimal(b: u8) -> bool
    ensures digit { result ≡ spec.is_hexadecimal b }
{
    is_digit(b) || is_within(b'a', b'f', b) || is_within(b'A', b'F', b)
}

// The value of a digit or a letter.
fn value_of(b: u8) -> u64
    ensures value { result ≡ digit_value b }
    ensures small { result ≤ 36 }
{
    match b {
        b'0'..=b'9' => (b - b'0') as u64,
        b'A'..=b'Z' => (b - b'A' + 10) as u64,
        b'a'..=b'z' => (b - b'a' + 10) as u64,
        _ => 36,
    }
}

// The value of decimal digits, or the least number that is too large.
fn decimal_value(digits: &[u8]) -> u64
    ensures value { result ≡ min 4294967296 (digits_value 10 digits.now) }
    ensures bound { result ≤ 4294967296 }
{
    let mut number = 0;
    for digit in digits {
        number = (number * 10 + value_of(*digit)).min(TOO_LARGE);
    }
    number
}

// The value of hexadecimal digits, or the least number that is too large.
fn hexadecimal_value(digits: &[u8]) -> u64
    ensures value { result ≡ min 4294967296 (digits_value 16 digits.now) }
    ensures bound { result ≤ 4294967296 }
{
    let mut number = 0;
    for digit in digits {
        number = (number * 16 + value_of(*digit)).min(TOO_LARGE);
    }
    number
}
