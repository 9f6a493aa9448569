//! The remainder of a run: what comes of a machine through given events.

ghost use Rattle.std.specs.Prelude.{◌≡◌, ◌+◌, ◌++◌, ◌≤◌, false, length, IfOk};
ghost use Rattle.race_runs.specs.Remainders.{GoesOn};
ghost use Rattle.race_tables.specs.Outcomes.{outcome_in};

use crate::runs::{Ran, print_events, print_tables};
use machine::Machine;
use race_tables::Outcome;
use std::alloc::Global;
use std::marker::Model;
use xinu_base::{End, Event, NoMemory};

/// The text that the remainder of a run prints, that of the tables after it, how it ends, and whether nothing is chosen in it.
pub(crate) struct Remainder {
    printed: Vec<u8>,
    tables: Vec<u8>,
    end: End,
    is_forced: bool,
}

impl Drop for Remainder {
    fn drop(self) {
        let Remainder {
            printed: _printed,
            tables: _tables,
            end: _end,
            is_forced: _is_forced,
        } = self;
    }
}

impl Model for Remainder {
    ghost use Rattle.race_runs.specs.Remainders as seen;

    ghost Value = { seen.Remainder };

    ghost view = { λ r. record { printed = r.printed.items; tables = r.tables.items; end = r.end; is_forced = r.is_forced } };
}

impl Remainder {
    /// Runs a machine through these events.
    pub(crate) fn of(
        alloc: Global,
        machine: &mut Machine,
        events: &[Event],
    ) -> Result<Remainder, NoMemory>
        requires over { machine.old.over ≡ false }
        requires few { machine.old.events + length events.now ≤ 1000000000 }
        ensures goes { IfOk result (λ rest. GoesOn machine.old.state events.now rest) }
    {
        let taken = print_events(alloc, machine, events)?;
        let tables = print_tables(alloc, machine)?;
        Ok(Remainder {
            printed: taken.text,
            tables,
            end: taken.end,
            is_forced: taken.is_forced,
        })
    }

    /// The outcome of a run that printed this text before its remainder, and whether nothing is chosen in the remainder.
    pub(crate) fn after(&self, alloc: Global, printed: &[u8]) -> Result<Ran, NoMemory>
        ensures outcome { IfOk result (λ r. r.outcome ≡ outcome_in (printed.now ++ self.now.printed) self.now.tables self.now.end) }
        ensures forced { IfOk result (λ r. r.is_forced ≡ self.now.is_forced) }
    {
        let whole = joined(alloc, printed, &self.printed)?;
        let outcome = Outcome::new(alloc, &whole, &self.tables, self.end)?;
        Ok(Ran {
            outcome,
            is_forced: self.is_forced,
        })
    }
}

// Two texts as one.
fn joined(alloc: Global, one: &[u8], other: &[u8]) -> Result<Vec<u8>, NoMemory>
    ensures joined { IfOk result (λ whole. whole.items ≡ one.now ++ other.now) }
{
    let Ok(mut whole) = Vec::from_slice(alloc, one) else {
        return Err(NoMemory);
    };
    match whole.extend_from_slice(other) {
        Ok(()) => Ok(whole),
        Err(_) => Err(NoMemory),
    }
}
