//! How a run ended, and after how many events a state is told.

ghost use Rattle.std.specs.Prelude.{◌≡◌, ◌++◌, OnOk};
ghost use Rattle.run_story.specs.Endings as spec;

use itoa::Buffer;
use std::alloc::AllocError;
use xinu_base::End;

/// Appends the line that tells how a run ended after so many events, at this tick. If the kernel panicked, it did in this call.
///
/// # Errors
/// Out of memory.
#[tactic(auto, unfolding(crate::specs::Endings::ending_line))]
pub fn push_ending(
    told: &mut Vec<u8>,
    end: End,
    events: u32,
    tick: u32,
    call: &[u8],
) -> Result<(), AllocError>
    ensures ending { OnOk result (told.new.items ≡ told.old.items ++ spec.ending_line end events tick call.now) }
{
    match end {
        End::Schedule => push_counts(
            told,
            "The schedule ended after ",
            events,
            " events, at tick ",
            tick,
            ".\n",
        ),
        End::Done => push_counts(
            told,
            "The run was done after ",
            events,
            " events, at tick ",
            tick,
            ": no process is left.\n",
        ),
        End::Panic => {
            push_counts(
                told,
                "The kernel panicked in event ",
                events,
                ", at tick ",
                tick,
                ": ",
            )?;
            push_both(told, call, " found a hundred messages in all ports.\n")
        }
    }
}

/// Appends the line before what is told of the state after so many events, at this tick.
///
/// # Errors
/// Out of memory.
#[tactic(auto, unfolding(crate::specs::Endings::after_line))]
pub fn push_state_head(told: &mut Vec<u8>, events: u32, tick: u32) -> Result<(), AllocError>
    ensures after { OnOk result (told.new.items ≡ told.old.items ++ spec.after_line events tick) }
{
    push_counts(told, "After ", events, " events, at tick ", tick, ":\n")
}

// Appends two numbers in a text.
#[tactic(auto, unfolding(crate::specs::Endings::counts))]
fn push_counts(
    told: &mut Vec<u8>,
    before: &str,
    n: u32,
    between: &str,
    m: u32,
    after: &str,
) -> Result<(), AllocError>
    ensures counts { OnOk result (told.new.items ≡ told.old.items ++ spec.counts before.now n between.now m after.now) }
{
    let mut digits = Buffer::new();
    told.extend_from_slice(before.as_bytes())?;
    told.extend_from_slice(digits.format(n).as_bytes())?;
    told.extend_from_slice(between.as_bytes())?;
    told.extend_from_slice(digits.format(m).as_bytes())?;
    told.extend_from_slice(after.as_bytes())
}

// Appends bytes, and words after them.
fn push_both(told: &mut Vec<u8>, bytes: &[u8], words: &str) -> Result<(), AllocError>
    ensures both { OnOk result (told.new.items ≡ told.old.items ++ bytes.now ++ words.now) }
{
    told.extend_from_slice(bytes)?;
    told.extend_from_slice(words.as_bytes())
}
