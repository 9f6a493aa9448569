//! The names of processes in the lines of tables, as texts.

ghost use Rattle.std.specs.Prelude.{◌≡◌, ◌++◌, ◌<◌, ◌≤◌, drop, OnOk, true};
ghost use Rattle.printed_runs.specs.Names as specs;
ghost use Rattle.printed_runs.specs.Notes.{first_word};
ghost use Rattle.text_lines.specs.Lines.{tokens_of};

use crate::notes::cut_word;
use std::alloc::AllocError;

/// Appends a line of tables, and the name of a process as a text after it if the line tells one of printable characters.
///
/// # Errors
/// Out of memory.
pub fn push_named(text: &mut Vec<u8>, line: &[u8]) -> Result<(), AllocError>
    ensures named { OnOk result (text.new.items ≡ text.old.items ++ specs.named_line line.now) }
{
    if line.contains(&b'"') {
        text.push(b'"')?;
        return text.extend_from_slice(line);
    }
    text.extend_from_slice(line)?;
    push_name(text, line)
}

// Appends the name that a line tells, if it can be shown.
fn push_name(text: &mut Vec<u8>, line: &[u8]) -> Result<(), AllocError>
    ensures name { OnOk result (text.new.items ≡ text.old.items ++ specs.name_text (tokens_of line.now)) }
{
    let (kind, _) = cut_word(line);
    if kind != b"proc".as_slice() {
        return Ok(());
    }
    let digits = name_word(line);
    if !is_name(digits) {
        return Ok(());
    }
    text.extend_from_slice(b" \"")?;
    push_bytes(text, digits)?;
    text.extend_from_slice(b"\"")
}

// The digits of the name in a line of the process table.
fn name_word(line: &[u8]) -> &[u8]
    ensures word { result.now ≡ specs.name_word (tokens_of line.now) }
{
    let mut rest = line;
    for _ in 0..6u32 {
        rest = cut_word(rest).1;
    }
    cut_word(rest).0
}

// Whether digits are those of a name that can be shown.
fn is_name(digits: &[u8]) -> bool
    ensures is { result ≡ specs.is_name digits.now }
{
    let mut left = digits;
    while left.len() >= 2 {
        if !is_pair(left[0], left[1]) {
            return false;
        }
        left = left.split_at(2).1;
    }
    left.is_empty()
}

// Whether two characters are the digits of a byte that can be shown.
fn is_pair(high: u8, low: u8) -> bool
    ensures is { result ≡ specs.is_pair high low }
{
    is_digit(high) && is_digit(low) && is_shown(byte_of(high, low))
}

// Whether a byte is a hexadecimal digit in lower case.
fn is_digit(b: u8) -> bool
    ensures is { result ≡ specs.is_digit b }
{
    (48 <= b && b <= 57) || (97 <= b && b <= 102)
}

// Whether a byte of a name can be shown.
fn is_shown(b: u8) -> bool
    ensures is { result ≡ specs.is_shown b }
{
    32 <= b && b <= 126 && b != b'"'
}

// The byte of two digits.
fn byte_of(high: u8, low: u8) -> u8
    requires high { specs.is_digit high ≡ true }
    requires low { specs.is_digit low ≡ true }
    ensures byte { result ≡ specs.byte_of high low }
{
    16 * digit_value(high) + digit_value(low)
}

// The value of a hexadecimal digit.
fn digit_value(b: u8) -> u8
    requires digit { specs.is_digit b ≡ true }
    ensures value { result ≡ specs.digit_value b }
    ensures small { result < 16 }
{
    if b <= 57 { b - 48 } else { b - 87 }
}

// Appends the bytes of a name.
fn push_bytes(text: &mut Vec<u8>, digits: &[u8]) -> Result<(), AllocError>
    requires name { specs.is_name digits.now ≡ true }
    ensures bytes { OnOk result (text.new.items ≡ text.old.items ++ specs.name_of digits.now) }
{
    let mut left = digits;
    while left.len() >= 2 {
        text.push(byte_of(left[0], left[1]))?;
        left = left.split_at(2).1;
    }
    Ok(())
}
