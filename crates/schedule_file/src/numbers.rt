//! The numbers that tokens stand for: counts in decimal, and bytes in hexadecimal.

ghost use Rattle.std.specs.Prelude.{◌≡◌, ◌≤◌, ◌<◌, true, length, IfSome};
ghost use Rattle.std.specs.List.{list_all};
ghost use Rattle.std.specs.Str.Parse.{digits_value};
ghost use Rattle.schedule_file.specs.Numbers as numbers;

/// The most events of a schedule.
pub(crate) const MOST_EVENTS: u32 = 1_000_000_000;

/// The number that one to ten decimal digits stand for, if it is from 1 to the most events. Zeros may lead it.
pub(crate) fn count_written(digits: &[u8]) -> Option<u32>
    ensures count { result ≡ numbers.count_written digits.now }
    ensures some { IfSome result (λ n. 0 < n) }
{
    if digits.is_empty() || digits.len() > 10 || !are_digits(digits) {
        return None;
    }
    let number = number_of(digits);
    if number < 1 || number > MOST_EVENTS as u64 {
        return None;
    }
    Some(number as u32)
}

/// The byte that a token of two hexadecimal digits stands for.
pub(crate) fn byte_in(token: &[u8]) -> Option<u8>
    ensures byte { result ≡ numbers.byte_in token.now }
{
    match token {
        [high, low] => Some(16 * hex_value(*high)? + hex_value(*low)?),
        _ => None,
    }
}

// The value of a hexadecimal digit in lower or upper case.
fn hex_value(digit: u8) -> Option<u8>
    ensures value { result ≡ numbers.hex_value digit }
    ensures small { IfSome result (λ n. n < 16) }
{
    match digit {
        b'0'..=b'9' => Some(digit - b'0'),
        b'a'..=b'f' => Some(digit - b'a' + 10),
        b'A'..=b'F' => Some(digit - b'A' + 10),
        _ => None,
    }
}

// Whether each byte is a decimal digit.
fn are_digits(bytes: &[u8]) -> bool
    ensures digits { result ≡ list_all numbers.is_digit bytes.now }
{
    bytes.iter().all(|b| *b >= b'0' && *b <= b'9')
}

// The number that at most ten decimal digits write.
fn number_of(digits: &[u8]) -> u64
    requires digits { list_all numbers.is_digit digits.now ≡ true }
    requires few { length digits.now ≤ 10 }
    ensures number { result ≡ digits_value 10 digits.now }
{
    let mut number = 0;
    for digit in digits {
        number = number * 10 + (*digit - b'0') as u64;
    }
    number
}
