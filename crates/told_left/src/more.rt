//! What else is told of a process that is left.

ghost use Rattle.std.specs.Prelude.{◌≡◌, ◌≤◌, ◌++◌, OnOk};
ghost use Rattle.told_left.specs.More as spec;
ghost use Rattle.xinu_model.specs.Tables.{state_at};

use itoa::Buffer;
use kernel_tables::KernelTables;
use process_lives::Life;
use process_waits::wake_of;
use std::alloc::AllocError;
use xinu_base::{Pid, State};

/// From how many ticks on it is told that a process is ready and doesn't run.
const LONG: u32 = 4;

/// Appends what else is told of a process by its life, and by how what it waits for was used. At most 1000000000 ticks have passed.
pub(crate) fn push_more(
    told: &mut Vec<u8>,
    tables: &KernelTables,
    process: Pid,
    life: &Life,
    usage: &[u8],
) -> Result<(), AllocError>
    requires few { tables.now.ticks ≤ 1000000000 }
    ensures more { OnOk result (told.new.items ≡ told.old.items ++ spec.more_text (state_at tables.now process) tables.now process life.now usage.now) }
{
    match tables.process(process).state {
        State::Timed => push_wake(told, ", at most to tick ", wake_of(tables, process)),
        State::Sleeping => push_wake(told, ", to tick ", wake_of(tables, process)),
        State::Ready => push_ready(told, tables.ticks().saturating_sub(life.tick), life.has_run),
        State::Waiting => told.extend_from_slice(usage),
        _ => Ok(()),
    }
}

// Appends the tick at which a process wakes, after a text.
fn push_wake(told: &mut Vec<u8>, before: &str, wake: Option<u32>) -> Result<(), AllocError>
    ensures wake { OnOk result (told.new.items ≡ told.old.items ++ spec.wake_text before.now wake) }
{
    match wake {
        Some(tick) => push_between(told, before, tick, ""),
        None => Ok(()),
    }
}

// Appends for how many ticks a process is ready, if that is long, and whether it never ran.
fn push_ready(told: &mut Vec<u8>, ticks: u32, has_run: bool) -> Result<(), AllocError>
    ensures ready { OnOk result (told.new.items ≡ told.old.items ++ spec.ready_text ticks has_run) }
{
    if ticks < LONG {
        return Ok(());
    }
    push_between(told, ": it was ready for ", ticks, ran_text(has_run))
}

// Whether a process that is ready for long ran before, in words.
fn ran_text(has_run: bool) -> &'static str
    ensures ran { result.now ≡ spec.ran_text has_run }
{
    if has_run {
        " ticks and didn't run"
    } else {
        " ticks and never ran"
    }
}

// Appends a number between two texts.
#[tactic(auto, unfolding(crate::specs::More::between))]
fn push_between(
    told: &mut Vec<u8>,
    before: &str,
    number: u32,
    after: &str,
) -> Result<(), AllocError>
    ensures between { OnOk result (told.new.items ≡ told.old.items ++ spec.between before.now number after.now) }
{
    let mut digits = Buffer::new();
    told.extend_from_slice(before.as_bytes())?;
    told.extend_from_slice(digits.format(number).as_bytes())?;
    told.extend_from_slice(after.as_bytes())
}
