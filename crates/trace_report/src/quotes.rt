//! Lines of a text in quotes.

ghost use Rattle.std.specs.Prelude.{◌≡◌, ◌++◌, ◌==◌, ◌≤◌, ◌<◌, length, map, IfSome, OnOk};
ghost use Rattle.std.specs.List.{position};
ghost use Rattle.trace_report.specs.Reports as spec;

use itoa::Buffer;
use std::alloc::AllocError;

/// The most bytes of a line that are shown.
const MOST_SHOWN: usize = 60;

/// Appends words, and a number after them.
pub(crate) fn push_numbered(text: &mut Vec<u8>, words: &str, number: u64) -> Result<(), AllocError>
    ensures numbered { OnOk result (text.new.items ≡ text.old.items ++ spec.numbered words.now number) }
{
    let mut digits = Buffer::new();
    text.extend_from_slice(words.as_bytes())?;
    text.extend_from_slice(digits.format(number).as_bytes())
}

/// Appends what a text has from its mistake on: a line, one without a line feed, or nothing.
#[tactic(auto, unfolding(crate::specs::Reports::found_text))]
pub(crate) fn push_found(text: &mut Vec<u8>, rest: &[u8]) -> Result<(), AllocError>
    ensures found { OnOk result (text.new.items ≡ text.old.items ++ spec.found_text rest.now) }
{
    if rest.is_empty() {
        return text.extend_from_slice(b"ends");
    }
    text.extend_from_slice(b"has ")?;
    push_quoted(text, rest)?;
    push_unended(text, rest)
}

// Appends what is said of a line that has no line feed.
#[tactic(auto, unfolding(crate::specs::Reports::unended))]
fn push_unended(text: &mut Vec<u8>, rest: &[u8]) -> Result<(), AllocError>
    ensures unended { OnOk result (text.new.items ≡ text.old.items ++ spec.unended rest.now) }
{
    if line_end(rest) == rest.len() {
        text.extend_from_slice(b" without a line feed")
    } else {
        Ok(())
    }
}

/// Appends the first line of bytes in quotes.
#[tactic(auto, unfolding(crate::specs::Reports::quoted))]
pub(crate) fn push_quoted(text: &mut Vec<u8>, bytes: &[u8]) -> Result<(), AllocError>
    ensures quoted { OnOk result (text.new.items ≡ text.old.items ++ spec.quoted bytes.now) }
{
    text.extend_from_slice(b"\"")?;
    push_line(text, &bytes[..line_end(bytes)])?;
    text.extend_from_slice(b"\"")
}

// The place of the first line feed, or of the end.
fn line_end(bytes: &[u8]) -> usize
    ensures end { result ≡ spec.line_end bytes.now }
    ensures within { result ≤ length bytes.now }
{
    match line_feed(bytes) {
        Some(place) => place,
        None => bytes.len(),
    }
}

// The place of the first line feed.
fn line_feed(bytes: &[u8]) -> Option<usize>
    ensures feed { result ≡ position (λ b. b == 10) bytes.now }
    ensures within { IfSome result (λ place. place < length bytes.now) }
{
    bytes.iter().position(|b| *b == b'\n')
}

// Appends a line, cut after some bytes.
fn push_line(text: &mut Vec<u8>, line: &[u8]) -> Result<(), AllocError>
    ensures line { OnOk result (text.new.items ≡ text.old.items ++ spec.shown_line line.now) }
{
    if line.len() <= MOST_SHOWN {
        return push_shown(text, line);
    }
    let most = MOST_SHOWN;
    push_shown(text, &line[..most])?;
    text.extend_from_slice(b"..")
}

// Appends bytes as they are shown.
fn push_shown(text: &mut Vec<u8>, line: &[u8]) -> Result<(), AllocError>
    ensures shown { OnOk result (text.new.items ≡ text.old.items ++ map spec.shown_byte line.now) }
{
    for byte in line {
        text.push(shown_byte(*byte))?;
    }
    Ok(())
}

// A byte as it is shown.
fn shown_byte(byte: u8) -> u8
    ensures shown { result ≡ spec.shown_byte byte }
{
    if 32 <= byte && byte < 127 { byte } else { b'?' }
}
