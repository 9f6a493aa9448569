//! The bytes that the console sent, as they are shown.

ghost use Rattle.std.specs.Prelude.{◌≡◌, ◌++◌, ◌<◌, OnOk, IfSome};
ghost use Rattle.schedule_file.specs.Numbers as numbers;
ghost use Rattle.races_command.specs.Shown as spec;
ghost use Rattle.text_lines.specs.Lines.{tokens_of};
ghost use Rattle.xinu_base.specs.Hexadecimal as digit;

use std::alloc::AllocError;
use text_lines::{first_line, first_token};

/// Appends the bytes of lines `con 61`: printable ones as they are, and others behind a backslash.
pub(crate) fn push_console(text: &mut Vec<u8>, lines: &[u8]) -> Result<(), AllocError>
    ensures console { OnOk result (text.new.items ≡ text.old.items ++ spec.shown_console lines.now) }
{
    let mut rest = lines;
    while !rest.is_empty() {
        let (line, next) = first_line(rest);
        push_line(text, line)?;
        rest = next;
    }
    Ok(())
}

// Appends the byte of one line.
fn push_line(text: &mut Vec<u8>, line: &[u8]) -> Result<(), AllocError>
    ensures line { OnOk result (text.new.items ≡ text.old.items ++ spec.shown_line (tokens_of line.now)) }
{
    let Some((_, rest)) = first_token(line) else {
        return Ok(());
    };
    let Some((digits, _)) = first_token(rest) else {
        return Ok(());
    };
    match byte_in(digits) {
        Some(b) => push_byte(text, b),
        None => Ok(()),
    }
}

// Appends a byte as it is shown.
#[tactic(auto, unfolding(crate::specs::Shown::shown_byte))]
fn push_byte(text: &mut Vec<u8>, b: u8) -> Result<(), AllocError>
    ensures byte { OnOk result (text.new.items ≡ text.old.items ++ spec.shown_byte b) }
{
    if b == b'\n' {
        text.extend_from_slice(b"\\n")
    } else if b == b'\r' {
        text.extend_from_slice(b"\\r")
    } else if b == b'"' {
        text.extend_from_slice(b"\\\"")
    } else if b == b'\\' {
        text.extend_from_slice(b"\\\\")
    } else if 32 <= b && b <= 126 {
        text.extend_from_slice(&[b])
    } else {
        text.extend_from_slice(&[b'\\', b'x', hex_digit(b / 16), hex_digit(b % 16)])
    }
}

// The character of a hexadecimal digit.
fn hex_digit(d: u8) -> u8
    requires digit { d < 16 }
    ensures digit { result ≡ digit.hex_digit d }
{
    if d < 10 { b'0' + d } else { b'a' + (d - 10) }
}

// The byte that a token of two hexadecimal digits stands for.
fn byte_in(token: &[u8]) -> Option<u8>
    ensures byte { result ≡ numbers.byte_in token.now }
{
    match token {
        [high, low] => Some(16 * hex_value(*high)? + hex_value(*low)?),
        _ => None,
    }
}

// The value of a hexadecimal digit in lower or upper case.
fn hex_value(digit: u8) -> Option<u8>
    ensures value { result ≡ numbers.hex_value digit }
    ensures small { IfSome result (λ n. n < 16) }
{
    match digit {
        b'0'..=b'9' => Some(digit - b'0'),
        b'a'..=b'f' => Some(digit - b'a' + 10),
        b'A'..=b'F' => Some(digit - b'A' + 10),
        _ => None,
    }
}
