//! What one line of a schedule asks for.

ghost use Rattle.std.specs.Prelude.{◌≡◌, ◌+◌, ◌≤◌, ◌<◌, ◌^◌, ◌++◌, Some, None, length, map, MatchOption, IfSome, OnOk};
ghost use Rattle.std.specs.List.{All};
ghost use Rattle.xinu_base.specs.declared.events.Event.TheVariants.{Key};
ghost use Rattle.text_lines.specs.Lines.{tokens_of};
ghost use Rattle.schedule_file.specs.LineKinds.{line_events, events_by};
ghost use Rattle.schedule_file.specs.Numbers as numbers;
ghost use Rattle.schedule_file.specs.Repeats.{events_of, HasEvents, IsRepeat, repeats_events};

use crate::kinds::{Kind, kind_of};
use crate::numbers::{byte_in, count_written};
use crate::repeats::Repeat;
use arrayvec::ArrayVec;
use std::alloc::AllocError;
use text_lines::first_token;
use xinu_base::Event;

/// What a line asks for.
#[derive(Drop)]
pub(crate) enum LineEvents {
    /// No event: a comment or a line of blanks.
    Nothing,
    /// One repeat.
    Repeated(Repeat),
    /// These characters are typed.
    Typed(ArrayVec<u8, 64>),
}

impl LineEvents {
    /// How many events these are.
    pub(crate) fn count(&self) -> u64
        ensures count { result ≡ length (events_of self.now) }
        ensures small { result < 2 ^ 43 }
    {
        match self {
            LineEvents::Nothing => 0,
            LineEvents::Repeated(repeat) => repeat.length(),
            LineEvents::Typed(bytes) => bytes.len() as u64,
        }
    }

    /// Appends the events to those of other repeats.
    ///
    /// # Errors
    /// `AllocError`, and some of them may have been appended.
    pub(crate) fn push_to(&self, repeats: &mut Vec<Repeat>) -> Result<(), AllocError>
        requires repeats { All IsRepeat repeats.old.items }
        requires some { HasEvents self.now }
        requires most { length (events_of self.now) ≤ 1000000000 }
        ensures events { OnOk result (repeats_events repeats.new.items ≡ repeats_events repeats.old.items ++ events_of self.now) }
        ensures repeats { OnOk result (All IsRepeat repeats.new.items) }
    {
        match self {
            LineEvents::Nothing => Ok(()),
            LineEvents::Repeated(repeat) => {
                repeats.push(*repeat)?;
                Ok(())
            }
            LineEvents::Typed(bytes) => push_keys(repeats, bytes.as_slice()),
        }
    }
}

/// What a line asks for; `None` if it is of none of the forms.
pub(crate) fn line_events_of(line: &[u8]) -> Option<LineEvents>
    ensures line { MatchOption result (line_events line.now ≡ None) (λ found. line_events line.now ≡ Some (events_of found)) }
    ensures some { IfSome result HasEvents }
{
    let Some((name, tokens)) = first_token(line) else {
        return Some(LineEvents::Nothing);
    };
    if name[0] == b'#' {
        return Some(LineEvents::Nothing);
    }
    events_after(kind_of(name)?, tokens)
}

// What the tokens after a name of this kind ask for.
fn events_after(kind: Kind, tokens: &[u8]) -> Option<LineEvents>
    ensures line { MatchOption result (events_by kind (tokens_of tokens.now) ≡ None) (λ found. events_by kind (tokens_of tokens.now) ≡ Some (events_of found)) }
    ensures some { IfSome result HasEvents }
{
    match kind {
        Kind::Counted(event) => {
            let count = counted(tokens)?;
            Some(LineEvents::Repeated(Repeat::Same(event, count)))
        }
        Kind::Rounds => {
            let count = counted(tokens)?;
            Some(LineEvents::Repeated(Repeat::Rounds(count)))
        }
        Kind::Typed => {
            let bytes = typed(tokens)?;
            Some(LineEvents::Typed(bytes))
        }
        Kind::Once(event) => match first_token(tokens) {
            Some(_) => None,
            None => Some(LineEvents::Repeated(Repeat::Same(event, 1))),
        },
    }
}

// The count, if it is the one token.
fn counted(tokens: &[u8]) -> Option<u32>
    ensures count { result ≡ numbers.one_count (tokens_of tokens.now) }
    ensures some { IfSome result (λ n. 0 < n) }
{
    let (token, rest) = first_token(tokens)?;
    match first_token(rest) {
        Some(_) => None,
        None => count_written(token),
    }
}

// The 1 to 64 characters that the tokens stand for.
#[tactic(auto, using(crate::proofs::TypedLemmas::typed_all))]
fn typed(tokens: &[u8]) -> Option<ArrayVec<u8, 64>>
    ensures bytes { MatchOption result (numbers.typed_in (tokens_of tokens.now) ≡ None) (λ bytes. numbers.typed_in (tokens_of tokens.now) ≡ Some bytes.items) }
{
    let mut bytes = ArrayVec::new();
    let mut rest = tokens;
    while let Some((token, next)) = first_token(rest) {
        if bytes.is_full() {
            return None;
        }
        bytes.push(byte_in(token)?);
        rest = next;
    }
    if bytes.is_empty() { None } else { Some(bytes) }
}

// Appends a key event for each character to the repeats.
fn push_keys(repeats: &mut Vec<Repeat>, bytes: &[u8]) -> Result<(), AllocError>
    requires { All IsRepeat repeats.old.items }
    ensures events { OnOk result (repeats_events repeats.new.items ≡ repeats_events repeats.old.items ++ map Key bytes.now) }
    ensures repeats { OnOk result (All IsRepeat repeats.new.items) }
{
    for byte in bytes {
        repeats.push(Repeat::Same(Event::Key(*byte), 1))?;
    }
    Ok(())
}
