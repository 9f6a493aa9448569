//! The line of a process that is left.

ghost use Rattle.std.specs.Prelude.{◌≡◌, ◌++◌, OnOk};
ghost use Rattle.told_left.specs.Lines as spec;

use itoa::Buffer;
use std::alloc::AllocError;
use xinu_base::State;

/// Appends the line that tells of a process in this state, by its number, its name, the word for what it waits for, the event since which it does
/// so, and what else is told.
///
/// # Errors
/// Out of memory.
#[tactic(auto, unfolding(crate::specs::Lines::left_line))]
pub(crate) fn push_left(
    told: &mut Vec<u8>,
    process: u32,
    state: State,
    name: &[u8],
    awaited: &[u8],
    since: u64,
    more: &[u8],
) -> Result<(), AllocError>
    ensures left { OnOk result (told.new.items ≡ told.old.items ++ spec.left_line process state name.now awaited.now since more.now) }
{
    push_who(told, "  ", process, name)?;
    push_state(told, state, awaited)?;
    push_since(told, " since event ", since, more, ".\n")
}

// Appends the number and the name of a process.
#[tactic(auto, unfolding(crate::specs::Lines::who_text))]
fn push_who(told: &mut Vec<u8>, before: &str, process: u32, name: &[u8]) -> Result<(), AllocError>
    ensures who { OnOk result (told.new.items ≡ told.old.items ++ spec.who_text before.now process name.now) }
{
    let mut digits = Buffer::new();
    told.extend_from_slice(before.as_bytes())?;
    told.extend_from_slice(digits.format(process).as_bytes())?;
    told.extend_from_slice(name)
}

// Appends what a process in a state does.
#[tactic(auto, unfolding(crate::specs::Lines::state_text))]
fn push_state(told: &mut Vec<u8>, state: State, awaited: &[u8]) -> Result<(), AllocError>
    ensures state { OnOk result (told.new.items ≡ told.old.items ++ spec.state_text state awaited.now) }
{
    match state {
        State::Free => Ok(()),
        State::Current => told.extend_from_slice(b" runs,"),
        State::Ready => told.extend_from_slice(b" is ready"),
        State::Receiving | State::Timed => told.extend_from_slice(b" waits for a message"),
        State::Sleeping => told.extend_from_slice(b" sleeps"),
        State::Suspended => told.extend_from_slice(b" is suspended"),
        State::Waiting => push_both(told, " waits for ", awaited),
    }
}

// Appends two words.
fn push_both(told: &mut Vec<u8>, before: &str, after: &[u8]) -> Result<(), AllocError>
    ensures both { OnOk result (told.new.items ≡ told.old.items ++ (before.now ++ after.now)) }
{
    told.extend_from_slice(before.as_bytes())?;
    told.extend_from_slice(after)
}

// Appends since which event a process does what it does, and what else is told.
#[tactic(auto, unfolding(crate::specs::Lines::since_text))]
fn push_since(
    told: &mut Vec<u8>,
    before: &str,
    since: u64,
    more: &[u8],
    after: &str,
) -> Result<(), AllocError>
    ensures since { OnOk result (told.new.items ≡ told.old.items ++ spec.since_text before.now since more.now after.now) }
{
    let mut digits = Buffer::new();
    told.extend_from_slice(before.as_bytes())?;
    told.extend_from_slice(digits.format(since).as_bytes())?;
    told.extend_from_slice(more)?;
    told.extend_from_slice(after.as_bytes())
}
