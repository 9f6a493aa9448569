//! The table as text.

ghost use Rattle.std.specs.Prelude.{◌≡◌, ◌<◌, ◌≤◌, ◌+◌, ◌++◌, length, map, IfOk, OnOk};
ghost use Rattle.std.specs.List.{All, sum};
ghost use Rattle.races_command.specs.Printed as spec;

use crate::console::push_console;
use crate::stuck::is_stuck;
use crate::texts::{push_listed, push_moments, push_number, push_number_of, push_places};
use preemptions::Stretch;
use race_tables::{Outcome, Row};
use std::alloc::{AllocError, Global};
use xinu_base::Event;

/// The table of the placements with at most `most` quantum ends in a stretch of the steps of the base, or of the first of them. It says *every run* if
/// nothing was chosen in them.
///
/// # Errors
/// Out of memory.
#[tactic(auto, unfolding(crate::specs::Printed::table_text))]
pub(crate) fn table_text(
    alloc: Global,
    table: &[Row],
    most: u32,
    stretch: Stretch,
    base: &[Event],
    are_all: bool,
    are_forced: bool,
) -> Result<Vec<u8>, AllocError>
    requires fits { sum (map (λ row. row.count) table.now) < 18446744073709551616 }
    requires base { length base.now ≤ 1000000 }
    requires few { All (λ row. length row.first ≤ 3) table.now }
    ensures text { IfOk result (λ text. text.items ≡ spec.table_text are_all are_forced most stretch base.now table.now) }
{
    let mut text = Vec::new(alloc);
    push_rows(&mut text, base, table)?;
    let runs = runs_in(table);
    push_last(
        &mut text,
        runs,
        most,
        stretch,
        table.len() as u64,
        are_all,
        are_forced,
    )?;
    Ok(text)
}

// Appends the rows, numbered from 1 on.
fn push_rows(text: &mut Vec<u8>, base: &[Event], table: &[Row]) -> Result<(), AllocError>
    requires base { length base.now ≤ 1000000 }
    requires few { All (λ row. length row.first ≤ 3) table.now }
    ensures rows { OnOk result (text.new.items ≡ text.old.items ++ spec.rows_text base.now 1 table.now) }
{
    for i in 0..table.len() {
        let row = &table[i];
        push_row(text, base, i as u64 + 1, row)?;
    }
    Ok(())
}

// Appends a row with its number.
fn push_row(text: &mut Vec<u8>, base: &[Event], number: u64, row: &Row) -> Result<(), AllocError>
    requires base { length base.now ≤ 1000000 }
    requires few { length row.now.first ≤ 3 }
    ensures row { OnOk result (text.new.items ≡ text.old.items ++ spec.row_text base.now number row.now) }
{
    push_head(text, base, number, row.count(), row.first())?;
    push_outcome(text, row.outcome())?;
    Ok(())
}

// Appends the first line of a row: how many schedules had the outcome, and of the first of them the places, and when its preemptions come.
#[tactic(auto, unfolding(crate::specs::Printed::head_text))]
fn push_head(
    text: &mut Vec<u8>,
    base: &[Event],
    number: u64,
    count: u64,
    places: &[u32],
) -> Result<(), AllocError>
    requires base { length base.now ≤ 1000000 }
    requires few { length places.now ≤ 3 }
    ensures head { OnOk result (text.new.items ≡ text.old.items ++ spec.head_text base.now number count places.now) }
{
    text.extend_from_slice(b"outcome ")?;
    push_number(text, number)?;
    text.extend_from_slice(b": ")?;
    push_number_of(text, count, "schedule")?;
    text.extend_from_slice(b", first with preemptions after")?;
    push_places(text, places)?;
    push_moments(text, base, places)?;
    text.extend_from_slice(b"\n")?;
    Ok(())
}

// Appends an outcome: what the console sent, how the run ended, the traps, and the processes that are left with what they wait for.
#[tactic(auto, unfolding(crate::specs::Printed::outcome_text))]
fn push_outcome(text: &mut Vec<u8>, outcome: &Outcome) -> Result<(), AllocError>
    ensures outcome { OnOk result (text.new.items ≡ text.old.items ++ spec.outcome_text outcome.now) }
{
    text.extend_from_slice(b"  \"")?;
    push_console(text, outcome.console())?;
    text.extend_from_slice(b"\" end ")?;
    text.extend_from_slice(outcome.end().name().as_bytes())?;
    push_stuck(text, is_stuck(outcome))?;
    text.extend_from_slice(b"\n")?;
    push_listed(text, outcome.traps())?;
    push_listed(text, outcome.left())?;
    Ok(())
}

// Appends what is added to the end of a run that can't go on.
fn push_stuck(text: &mut Vec<u8>, stuck: bool) -> Result<(), AllocError>
    ensures stuck { OnOk result (text.new.items ≡ text.old.items ++ spec.stuck_text stuck) }
{
    if stuck {
        return text.extend_from_slice(b", stuck");
    }
    Ok(())
}

// Appends the last line: how many schedules were run, which, and how many outcomes there are.
#[tactic(auto, unfolding(crate::specs::Printed::last_line))]
fn push_last(
    text: &mut Vec<u8>,
    runs: u64,
    most: u32,
    stretch: Stretch,
    outcomes: u64,
    are_all: bool,
    are_forced: bool,
) -> Result<(), AllocError>
    ensures last { OnOk result (text.new.items ≡ text.old.items ++ spec.last_line are_all are_forced runs most stretch outcomes) }
{
    push_began(text, are_all, are_forced)?;
    push_number_of(text, runs, "schedule")?;
    push_bounds(text, most, stretch)?;
    text.extend_from_slice(b": ")?;
    push_number_of(text, outcomes, "outcome")?;
    text.extend_from_slice(b"\n")?;
    Ok(())
}

// Appends which placements are gone through.
fn push_bounds(text: &mut Vec<u8>, most: u32, stretch: Stretch) -> Result<(), AllocError>
    ensures bounds { OnOk result (text.new.items ≡ text.old.items ++ spec.bounds_text most stretch) }
{
    text.extend_from_slice(b", with at most ")?;
    push_number_of(text, most as u64, "preemption")?;
    push_stretch(text, stretch)?;
    Ok(())
}

// Appends where the places of a stretch are.
fn push_stretch(text: &mut Vec<u8>, stretch: Stretch) -> Result<(), AllocError>
    ensures stretch { OnOk result (text.new.items ≡ text.old.items ++ spec.stretch_text stretch) }
{
    if stretch.after == 0 {
        text.extend_from_slice(b" in the first ")?;
    } else {
        push_after(text, stretch.after)?;
    }
    push_number_of(text, stretch.within as u64, "step")
}

// Appends after how many steps the places begin.
fn push_after(text: &mut Vec<u8>, after: u32) -> Result<(), AllocError>
    ensures after { OnOk result (text.new.items ≡ text.old.items ++ spec.after_text after) }
{
    text.extend_from_slice(b" after the first ")?;
    push_number(text, after as u64)?;
    text.extend_from_slice(b" of ")
}

// Appends how the last line begins.
fn push_began(text: &mut Vec<u8>, are_all: bool, are_forced: bool) -> Result<(), AllocError>
    ensures began { OnOk result (text.new.items ≡ text.old.items ++ spec.began are_all are_forced) }
{
    if !are_all {
        return text.extend_from_slice(b"out of memory after runs of ");
    }
    if are_forced {
        return text.extend_from_slice(b"every run of each of ");
    }
    text.extend_from_slice(b"a run of each of ")
}

// How many runs a table counts.
fn runs_in(table: &[Row]) -> u64
    requires fits { sum (map (λ row. row.count) table.now) < 18446744073709551616 }
    ensures runs { result ≡ sum (map (λ row. row.count) table.now) }
{
    let mut runs = 0;
    for i in 0..table.len() {
        let row = &table[i];
        runs += row.count();
    }
    runs
}
