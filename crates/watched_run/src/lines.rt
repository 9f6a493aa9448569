//! The lines that an event printed: whether its instruction was trapped, and what the console sent.

ghost use Rattle.std.specs.Prelude.{◌≡◌, List};
ghost use Rattle.watched_run.specs.Traps as traps;
ghost use Rattle.xinu_base.specs.declared.lines.TranscriptLine.{TranscriptLine};
ghost use Rattle.xinu_model.specs.Text.{text};

use std::alloc::AllocError;
use xinu_base::Cause;

/// The cause of the trap that these lines tell of, if they do.
pub(crate) fn trap_in(lines: &[u8]) -> Option<Cause>
    ensures trap { (all : List TranscriptLine) → lines.now ≡ text all → result ≡ traps.trap_in all }
{
    match lines.strip_prefix(b"trap ".as_slice()) {
        Some(rest) => cause_of(after_blank(rest)),
        None => None,
    }
}

// What comes after the first blank.
fn after_blank(bytes: &[u8]) -> &[u8]
    ensures after { result.now ≡ traps.after_blank bytes.now }
{
    for (i, b) in bytes.iter().enumerate() {
        if *b == b' ' {
            return &bytes[i + 1..];
        }
    }
    &[]
}

// The cause with whose word a line ends.
fn cause_of(word: &[u8]) -> Option<Cause>
    ensures cause { result ≡ traps.cause_of word.now }
{
    match word {
        [b'f', ..] => Some(Cause::Fetch),
        [b'i', ..] => Some(Cause::Illegal),
        [b'b', ..] => Some(Cause::Break),
        [b't', ..] => Some(Cause::Target),
        [b'l', ..] => Some(Cause::Load),
        [b's', ..] => Some(Cause::Store),
        _ => None,
    }
}

/// Appends the two digits of each byte that these lines say that the console sent.
///
/// # Errors
/// Out of memory.
pub(crate) fn push_console(digits: &mut Vec<u8>, lines: &[u8]) -> Result<(), AllocError> {
    for line in lines.split(|b| *b == b'\n') {
        if let Some(sent) = line.strip_prefix(b"con ".as_slice()) {
            digits.extend_from_slice(sent)?;
        }
    }
    Ok(())
}
