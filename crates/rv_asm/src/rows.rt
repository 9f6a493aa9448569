//! The rows of a listing as text.

ghost use Rattle.std.specs.Prelude.{◌≡◌, ◌<◌, ◌++◌, ◌∷◌, [], OnOk};
ghost use Rattle.xinu_base.specs.Hexadecimal as digits;
ghost use Rattle.rv_asm.specs.Listings as spec;

use itoa::Buffer;
use std::alloc::AllocError;

/// Appends a row: the number of the line, the address and the content, or nothing if there is no content.
#[tactic(auto, unfolding(crate::specs::Listings::row_text))]
pub(crate) fn push_row(
    text: &mut Vec<u8>,
    line: u32,
    at: u64,
    is_code: bool,
    bytes: &[u8],
) -> Result<(), AllocError>
    ensures row { OnOk result (text.new.items ≡ text.old.items ++ spec.row_text (record { line = line; at = at; code = is_code; bytes = bytes.now })) }
{
    if bytes.len() == 0 {
        return Ok(());
    }
    let mut number = Buffer::new();
    text.extend_from_slice(number.format(line).as_bytes())?;
    text.extend_from_slice(b" ")?;
    push_digits(text, at)?;
    push_content(text, is_code, bytes)?;
    text.extend_from_slice(b"\n")
}

// Appends the eight digits of a word.
fn push_digits(text: &mut Vec<u8>, number: u64) -> Result<(), AllocError>
    ensures digits { OnOk result (text.new.items ≡ text.old.items ++ spec.word_digits number) }
{
    push_bytes_of_word(
        text,
        (number / 16_777_216 % 256) as u8,
        (number / 65536 % 256) as u8,
        (number / 256 % 256) as u8,
        (number % 256) as u8,
    )
}

// Appends two digits for each of four bytes.
fn push_bytes_of_word(text: &mut Vec<u8>, a: u8, b: u8, c: u8, d: u8) -> Result<(), AllocError>
    ensures digits { OnOk result (text.new.items ≡ text.old.items ++ digits.hex_of (a ∷ b ∷ c ∷ d ∷ [])) }
{
    text.extend_from_slice(&[
        digit_of(a / 16),
        digit_of(a % 16),
        digit_of(b / 16),
        digit_of(b % 16),
        digit_of(c / 16),
        digit_of(c % 16),
        digit_of(d / 16),
        digit_of(d % 16),
    ])
}

// The character of a hexadecimal digit.
fn digit_of(value: u8) -> u8
    requires { value < 16 }
    ensures digit { result ≡ digits.hex_digit value }
{
    if value < 10 {
        b'0' + value
    } else {
        b'a' + (value - 10)
    }
}

// Appends the content of a row.
fn push_content(text: &mut Vec<u8>, is_code: bool, bytes: &[u8]) -> Result<(), AllocError>
    ensures content { OnOk result (text.new.items ≡ text.old.items ++ spec.content_text is_code bytes.now) }
{
    if is_code {
        push_words(text, bytes)
    } else {
        push_bytes(text, bytes)
    }
}

// Appends words, each behind a blank.
fn push_words(text: &mut Vec<u8>, bytes: &[u8]) -> Result<(), AllocError>
    ensures words { OnOk result (text.new.items ≡ text.old.items ++ spec.words_text bytes.now) }
{
    let mut rest = bytes;
    while let [a, b, c, d, next @ ..] = rest {
        text.extend_from_slice(b" ")?;
        push_bytes_of_word(text, *d, *c, *b, *a)?;
        rest = next;
    }
    push_bytes(text, rest)
}

// Appends bytes, each behind a blank.
fn push_bytes(text: &mut Vec<u8>, bytes: &[u8]) -> Result<(), AllocError>
    ensures bytes { OnOk result (text.new.items ≡ text.old.items ++ spec.bytes_text bytes.now) }
{
    let mut rest = bytes;
    while let [byte, next @ ..] = rest {
        text.extend_from_slice(&[b' ', digit_of(*byte / 16), digit_of(*byte % 16)])?;
        rest = next;
    }
    Ok(())
}
