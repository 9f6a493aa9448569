//! The line that tells how a run ended.

ghost use Rattle.std.specs.Prelude.{◌≡◌, ◌++◌, ◌<◌, OnOk, length};
ghost use Rattle.explain_command.specs.Ends as specs;
ghost use Rattle.run_story.specs.Endings.{after_line, ending_line};

use crate::sights::Sight;
use crate::steps::call_line;
use machine::KernelState;
use replayed_run::Replay;
use run_story::{push_ending, push_state_head};
use std::alloc::AllocError;
use xinu_base::End;

/// Appends the line that tells how a run ended, if it ended so: after how many events, at which tick, and if the kernel panicked in which call, by
/// what was seen ahead of it.
///
/// # Errors
/// Out of memory.
pub(crate) fn push_end(
    told: &mut Vec<u8>,
    replay: &Replay,
    end: End,
    panicked: Option<Sight>,
) -> Result<(), AllocError>
    ensures end { OnOk result (told.new.items ≡ told.old.items ++ ending_line end replay.now.taken replay.now.state.tables.ticks (specs.call_text panicked)) }
{
    let tick = tick_of(replay);
    match panicked {
        Some(seen) => {
            let line = call_line(&seen);
            push_ending(told, end, replay.taken(), tick, without_feed(line.bytes()))
        }
        None => push_ending(told, end, replay.taken(), tick, b""),
    }
}

/// Appends the line that tells after how many events a state is told, and its tick.
///
/// # Errors
/// Out of memory.
pub(crate) fn push_after(told: &mut Vec<u8>, replay: &Replay) -> Result<(), AllocError>
    ensures after { OnOk result (told.new.items ≡ told.old.items ++ after_line replay.now.taken replay.now.state.tables.ticks) }
{
    push_state_head(told, replay.taken(), tick_of(replay))
}

// The tick of a run.
fn tick_of(replay: &Replay) -> u32
    ensures tick { result ≡ replay.now.state.tables.ticks }
{
    tick_in(replay.state())
}

// The tick of a state.
fn tick_in(k: &KernelState) -> u32
    ensures tick { result ≡ k.now.call.state.tables.ticks }
{
    k.tables.ticks()
}

// A line without the line feed at its end.
fn without_feed(line: &[u8]) -> &[u8]
    requires { 0 < length line.now }
    ensures { result.now ≡ specs.without_feed line.now }
{
    &line[..line.len() - 1]
}
