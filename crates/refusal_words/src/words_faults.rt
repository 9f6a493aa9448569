//! What is wrong with the words of a command, in words.

ghost use Rattle.std.specs.Prelude.{◌≡◌, ◌++◌, OnOk};
ghost use Rattle.command_words.specs.ToolNames.{cause_of, fault_of};
ghost use Rattle.refusal_words.specs.WordsFaults as spec;

use command_words::{Kind, ReadingFault, WordsFault};
use itoa::Buffer;
use std::alloc::AllocError;

/// Appends what is wrong with words.
#[tactic(auto, unfolding(crate::specs::WordsFaults::words_text))]
pub(crate) fn push_words_fault(text: &mut Vec<u8>, fault: WordsFault<'_>) -> Result<(), AllocError>
    ensures fault { OnOk result (text.new.items ≡ text.old.items ++ spec.words_text (cause_of fault.entry)) }
{
    match fault {
        WordsFault::Unreadable(fault) => push_reading_fault(text, fault),
        WordsFault::BadValue { name, kind } => {
            push_option(text, name, " is ")?;
            push_kind(text, kind)?;
            text.extend_from_slice(b"\n")
        }
        WordsFault::Missing(name) => push_option(text, name, " is missing\n"),
        WordsFault::GoesWith { name, other } => {
            push_option(text, name, " goes with --")?;
            text.extend_from_slice(other.as_bytes())?;
            text.extend_from_slice(b"\n")
        }
        WordsFault::NotWith { name, other } => {
            push_option(text, name, " doesn't go with --")?;
            text.extend_from_slice(other.as_bytes())?;
            text.extend_from_slice(b"\n")
        }
        WordsFault::NoImage => text.extend_from_slice(b"no image is named\n"),
        WordsFault::ManyImages => text.extend_from_slice(b"over eight images are named\n"),
        WordsFault::NamelessImage => text.extend_from_slice(b"the name of an image is empty\n"),
    }
}

// Appends why words can't be read.
#[tactic(auto, unfolding(crate::specs::WordsFaults::reading_text))]
fn push_reading_fault(text: &mut Vec<u8>, fault: ReadingFault<'_>) -> Result<(), AllocError>
    ensures fault { OnOk result (text.new.items ≡ text.old.items ++ spec.reading_text (fault_of fault.entry)) }
{
    match fault {
        ReadingFault::Unknown(arg) => push_joined(text, "there is no option ", arg, "\n"),
        ReadingFault::Twice(name) => push_option(text, name, " is given twice\n"),
        ReadingFault::NoValue(name) => push_option(text, name, " has no value\n"),
        ReadingFault::TakesNone(name) => push_option(text, name, " takes no value\n"),
    }
}

// Appends an option, and what is said of it.
fn push_option(text: &mut Vec<u8>, name: &str, said: &str) -> Result<(), AllocError>
    ensures option { OnOk result (text.new.items ≡ text.old.items ++ spec.option_text name.now said.now) }
{
    push_joined(text, "--", name, said)
}

/// Appends three parts of a line.
pub(crate) fn push_joined(
    text: &mut Vec<u8>,
    before: &str,
    middle: &str,
    after: &str,
) -> Result<(), AllocError>
    ensures joined { OnOk result (text.new.items ≡ text.old.items ++ spec.joined before.now middle.now after.now) }
{
    text.extend_from_slice(before.as_bytes())?;
    text.extend_from_slice(middle.as_bytes())?;
    text.extend_from_slice(after.as_bytes())
}

// Appends what the value of an option has to be.
#[tactic(auto, unfolding(crate::specs::WordsFaults::kind_text))]
fn push_kind(text: &mut Vec<u8>, kind: Kind) -> Result<(), AllocError>
    ensures kind { OnOk result (text.new.items ≡ text.old.items ++ spec.kind_text kind) }
{
    match kind {
        Kind::File => text.extend_from_slice(b"the name of a file"),
        Kind::Number { least, most } => {
            push_around(text, "a number from ", least, " to ")?;
            push_around(text, "", most, "")
        }
        Kind::Span { greatest, most } => {
            push_around(text, "A..B, two numbers from 1 to ", greatest, ", at most ")?;
            push_around(text, "", most, " events")
        }
        Kind::Title { most } => push_around(text, "a text of 1 to ", most as u64, " bytes"),
        Kind::Flag => text.extend_from_slice(b"nothing"),
    }
}

// Appends a number in a text.
#[tactic(auto, unfolding(crate::specs::WordsFaults::around))]
fn push_around(text: &mut Vec<u8>, before: &str, n: u64, after: &str) -> Result<(), AllocError>
    ensures around { OnOk result (text.new.items ≡ text.old.items ++ spec.around before.now n after.now) }
{
    let mut digits = Buffer::new();
    text.extend_from_slice(before.as_bytes())?;
    text.extend_from_slice(digits.format(n).as_bytes())?;
    text.extend_from_slice(after.as_bytes())
}
