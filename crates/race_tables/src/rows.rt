//! The rows of the table, and a run that is counted in them.

ghost use Rattle.std.specs.Prelude.{◌≡◌, ◌<◌, ◌≤◌, ◌++◌, ◌∷◌, [], List, length, map, OnOk, OnErr};
ghost use Rattle.std.specs.List.{sum};
ghost use Rattle.race_tables.specs.Rows as spec;

use crate::outcomes::Outcome;
use std::alloc::{AllocError, Global};
use std::marker::Model;

/// A row of the table: an outcome, how many runs had it, and the placement of the first of them.
#[derive(Drop)]
pub struct Row {
    outcome: Outcome,
    count: u64,
    first: Vec<u32>,
}

impl Model for Row {
    ghost use Rattle.race_tables.specs.Rows as seen;

    ghost Value = { seen.Row };

    ghost view = { λ r. record { outcome = r.outcome; count = r.count; first = r.first.items } };
}

impl Row {
    // The row that a run begins.
    fn new(outcome: Outcome, first: Vec<u32>) -> Row
        ensures row { result ≡ record { outcome = outcome; count = 1; first = first.items } }
    {
        Row {
            outcome,
            count: 1,
            first,
        }
    }

    /// The outcome.
    pub fn outcome(&self) -> &Outcome
        ensures outcome { result.now ≡ self.now.outcome }
    {
        &self.outcome
    }

    /// How many runs had it.
    pub fn count(&self) -> u64
        ensures count { result ≡ self.now.count }
    {
        self.count
    }

    /// The placement of the first of them.
    pub fn first(&self) -> &[u32]
        ensures first { result.now ≡ self.now.first }
    {
        &self.first
    }

    // Counts one run more.
    fn count_one(&mut self)
        requires fits { self.old.count < 18446744073709551615 }
        ensures counted { self.new ≡ spec.counted self.old }
    {
        self.count += 1;
    }
}

/// Counts a run after others in their table: its outcome, and the placement of its quantum ends. The runs before it must be fewer than the
/// greatest `u64`.
///
/// # Errors
/// Out of memory; the table stays.
pub fn count_run(
    alloc: Global,
    table: &mut Vec<Row>,
    outcome: Outcome,
    places: &[u32],
) -> Result<(), AllocError>
    requires fits { sum (map (λ row. row.count) table.old.items) < 18446744073709551615 }
    ensures added { OnOk result ((runs : List spec.Run) → table.old.items ≡ spec.rows runs → table.new.items ≡ spec.rows (runs ++ record { places = places.now; outcome = outcome } ∷ [])) }
    ensures kept { OnErr result (table.new.items ≡ table.old.items) }
{
    let place = place_of(table.as_slice(), &outcome);
    if place < table.len() {
        count_at(table.as_mut_slice(), place);
        return Ok(());
    }
    let first = Vec::from_slice(alloc, places)?;
    table.push(Row::new(outcome, first))?;
    Ok(())
}

// The place of the row with this outcome; the number of rows if there is none.
fn place_of(table: &[Row], outcome: &Outcome) -> usize
    ensures inside { result ≤ length table.now }
    ensures place { result ≡ spec.place_of outcome.now table.now }
{
    for i in 0..table.len() {
        let row = &table[i];
        if row.outcome().equals(outcome) {
            return i;
        }
    }
    table.len()
}

// Counts one run more in the row at this place.
fn count_at(table: &mut [Row], place: usize)
    requires inside { place < length table.old }
    requires fits { sum (map (λ row. row.count) table.old) < 18446744073709551615 }
    ensures counted { table.new ≡ spec.counted_at place table.old }
{
    let row = &mut table[place];
    row.count_one();
}
