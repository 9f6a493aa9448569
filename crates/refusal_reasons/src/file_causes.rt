//! Why a file's name or a mode isn't one (book, chapter 19).

ghost use Rattle.std.specs.List.{list_all};
ghost use Rattle.std.specs.Prelude.{◌≡◌, ◌==◌, not};
ghost use Rattle.refusal_reasons.specs.Causes.{first_reason};
ghost use Rattle.refusal_reasons.specs.Files as specs;
ghost use Rattle.xinu_model.specs.Files.Modes as modes;

use crate::reasons::{Cause, Reason, first_of};

// The letters that ask for an old file and for a new one.
const LF_MODE_O: u8 = b'o';

const LF_MODE_N: u8 = b'n';

/// A text isn't a file's name.
pub(crate) fn name_reason(name: &[u8]) -> Option<Reason>
    ensures reason { result ≡ first_reason (specs.name_causes name.now) }
{
    first_of(&[
        Cause::new(Reason::EmptyName, !(0 < name.len())),
        Cause::new(Reason::NameTooLong, !(name.len() <= 27)),
        Cause::new(Reason::ZeroInName, !has_no_zero(name)),
    ])
}

// Whether no byte is 0.
fn has_no_zero(name: &[u8]) -> bool
    ensures none { result ≡ list_all (λ b. not (b == 0)) name.now }
{
    for b in name {
        if *b == 0 {
            return false;
        }
    }
    true
}

/// A text isn't a mode.
pub(crate) fn mode_reason(mode: &[u8]) -> Option<Reason>
    ensures reason { result ≡ first_reason (specs.mode_causes mode.now) }
{
    let old = mode.contains(&LF_MODE_O);
    let new = mode.contains(&LF_MODE_N);
    first_of(&[
        Cause::new(Reason::NoModeLetter, !are_letters(mode)),
        Cause::new(Reason::LetterTwice, !are_apart(mode)),
        Cause::new(Reason::OldAndNew, old && new),
    ])
}

// Whether each byte is a letter of a mode.
fn are_letters(mode: &[u8]) -> bool
    ensures letters { result ≡ list_all modes.is_mode_letter mode.now }
{
    for b in mode {
        if !is_letter(*b) {
            return false;
        }
    }
    true
}

// Whether a byte is one.
fn is_letter(b: u8) -> bool
    ensures letter { result ≡ modes.is_mode_letter b }
{
    (b == b'r' || b == b'w') || (b == LF_MODE_O || b == LF_MODE_N)
}

// Whether no byte comes twice.
fn are_apart(mode: &[u8]) -> bool
    ensures apart { result ≡ modes.are_apart mode.now }
{
    for i in 0..mode.len() {
        let b = mode[i];
        if mode[i + 1..].contains(&b) {
            return false;
        }
    }
    true
}

/// `open` of a file, with a name and a mode.
#[tactic(auto, using(crate::proofs::Chained::first_of_first, crate::proofs::Chained::first_of_second))]
pub(crate) fn file_reason(name: &[u8], mode: &[u8]) -> Option<Reason>
    ensures reason { result ≡ first_reason (specs.file_causes name.now mode.now) }
{
    let named = name_reason(name);
    if named.is_some() {
        return named;
    }
    mode_reason(mode)
}
