//! What a text tells of the choice in the event with which it begins: how many calls on files take effect. A text is asked only in an event
//! that leaves a choice: one in which a call on files is made and no other is under way, or in which the disk with files completes well. So
//! whatever the text is, an event that prints nothing reads nothing of it.

ghost use Rattle.std.specs.Prelude.{◌≡◌, ◌≤◌, Some, None, MatchOption, length};
ghost use Rattle.reference_check.specs.Places as places;
ghost use Rattle.transcript_laws.specs.Choices as choices;
ghost use Rattle.transcript_laws.specs.Reading as reading;
ghost use Rattle.xinu_base.specs.declared.events.Event.TheVariants.{Disk1};
ghost use Rattle.xinu_model.specs.Files.Syscalls.{files_of};

use crate::machines::{calls_of, least_of};
use crate::reading::{after_bytes, after_line};
use reference_state::{FileRequest, Machine};
use xinu_base::{FileMoment, Pid, TranscriptLine};

/// How many calls on files more than have to take effect at a good completion of the disk, by the text that begins with what that prints.
pub(crate) fn more_told(machine: &Machine, text: &[u8]) -> usize
    ensures told { result ≡ choices.told machine.now.state Disk1 text.now }
    ensures most { result ≤ length (files_of machine.now.state).calls }
{
    let told = effects_told(calls_of(machine), text);
    told.saturating_sub(least_of(machine))
}

// How many of these calls a text says took effect at a good completion of the disk.
fn effects_told(calls: &[FileRequest], text: &[u8]) -> usize
    ensures told { result ≡ choices.effects_told calls.now text.now }
    ensures most { result ≤ length calls.now }
{
    let Some((first, others)) = calls.split_first() else {
        return 0;
    };
    match after_moment(FileMoment::Finished, first, text) {
        None => 0,
        Some(rest) => 1 + nexts_told(others, rest),
    }
}

// How many of these calls a text says took effect, each as it became the first.
fn nexts_told(calls: &[FileRequest], text: &[u8]) -> usize
    ensures told { result ≡ choices.nexts_told calls.now text.now }
    ensures most { result ≤ length calls.now }
{
    let mut rest = text;
    let mut told = 0usize;
    for call in calls {
        let Some(more) = after_moment(FileMoment::Next, call, rest) else {
            return told;
        };
        rest = more;
        told += 1;
    }
    told
}

// What is left of a text after the line of what happened to a call on files.
fn after_moment<'a>(moment: FileMoment, call: &FileRequest, text: &'a [u8]) -> Option<&'a [u8]>
    ensures left { MatchOption result (places.after_bytes (choices.moment_text moment call.now) (Some text.now) ≡ None)
        (λ rest. places.after_bytes (choices.moment_text moment call.now) (Some text.now) ≡ Some rest.now) }
{
    let caller = call.caller.unwrap_or(Pid::default());
    after_line(&TranscriptLine::File(caller, moment), text)
}

/// Whether a text begins with the line of a call and then that of a call on files that took effect.
pub(crate) fn says_done(text: &[u8]) -> bool
    ensures says { result ≡ choices.says_done text.now }
{
    begins(b"call ", text) && begins_done(without_line(text))
}

// Whether a text begins with the line of a call on files that took effect.
fn begins_done(text: &[u8]) -> bool
    ensures begins { result ≡ choices.begins_done text.now }
{
    match after_bytes(b"file ", text) {
        None => false,
        Some(rest) => begins(b"done\n", without_word(rest)),
    }
}

// Whether a text begins with these bytes.
fn begins(bytes: &[u8], text: &[u8]) -> bool
    ensures begins { result ≡ reading.starts_with bytes.now text.now }
{
    text.starts_with(bytes)
}

// A text without its first line.
fn without_line(text: &[u8]) -> &[u8]
    ensures left { result.now ≡ choices.after_line text.now }
{
    let mut rest = text;
    while let Some((b, more)) = rest.split_first() {
        rest = more;
        if *b == b'\n' {
            return rest;
        }
    }
    rest
}

// A text without its first word and the blank after that.
fn without_word(text: &[u8]) -> &[u8]
    ensures left { result.now ≡ choices.after_blank text.now }
{
    let mut rest = text;
    while let Some((b, more)) = rest.split_first() {
        rest = more;
        if *b == b' ' {
            return rest;
        }
    }
    rest
}
