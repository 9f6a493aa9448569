//! Machines from which the remainder of a run is known: of equal ones it is run once.

ghost use Rattle.std.specs.Prelude.{◌≡◌, ◌+◌, ◌≤◌, false, length, IfOk, IfSome, List};
ghost use Rattle.std.specs.List.{All, slice_get};
ghost use Rattle.xinu_base.specs.declared.events.Event as declared;
ghost use Rattle.race_runs.specs.Forced.{Forces};
ghost use Rattle.race_runs.specs.Remainders.{IsFinished, IsKnown};

use crate::remainders::Remainder;
use crate::runs::Ran;
use machine::Machine;
use std::alloc::Global;
use std::marker::Model;
use xinu_base::{Event, NoMemory};

// How many are kept at most: each has its RAM and its disks.
const MOST: usize = 8;

/// A machine, and what the remainder of a run comes to from it.
pub(crate) struct Known {
    machine: Machine,
    rest: Remainder,
}

impl Drop for Known {
    fn drop(self) {
        let Known {
            machine: _machine,
            rest: _rest,
        } = self;
    }
}

impl Model for Known {
    ghost use Rattle.race_runs.specs.Remainders as seen;

    ghost Value = { seen.Known };

    ghost view = { λ k. record { machine = k.machine; rest = k.rest } };
}

impl Known {
    // A copy of this machine, and what comes of the machine through these events.
    fn of(alloc: Global, machine: &mut Machine, events: &[Event]) -> Result<Known, NoMemory>
        requires over { machine.old.over ≡ false }
        requires few { machine.old.events + length events.now ≤ 1000000000 }
        ensures machine { IfOk result (λ known. known.machine ≡ machine.old) }
        ensures known { IfOk result (λ known. IsKnown events.now known) }
    {
        let Ok(copy) = machine.clone() else {
            return Err(NoMemory);
        };
        let rest = Remainder::of(alloc, machine, events)?;
        Ok(Known {
            machine: copy,
            rest,
        })
    }
}

/// The outcome of a run that printed this text and came to this machine, and whose remainder takes these events; and whether nothing is chosen in
/// the remainder. That is looked up if an equal machine is known, else run, and then known.
///
/// # Errors
/// `NoMemory`.
pub(crate) fn finish(
    alloc: Global,
    machine: &mut Machine,
    printed: &[u8],
    events: &[Event],
    known: &mut Vec<Known>,
) -> Result<Ran, NoMemory>
    requires over { machine.old.over ≡ false }
    requires few { machine.old.events + length events.now ≤ 1000000000 }
    requires known { All (λ k. IsKnown events.now k) known.old.items }
    ensures known { All (λ k. IsKnown events.now k) known.new.items }
    ensures outcome { IfOk result (λ r. IsFinished printed.now machine.old.state events.now r.outcome) }
    ensures forced { IfOk result (λ r. Forces r.is_forced machine.old.state events.now) }
{
    let place = place_of(known.as_slice(), machine);
    if place < known.len() {
        let entry = &known[place];
        return entry.rest.after(alloc, printed);
    }
    let entry = Known::of(alloc, machine, events)?;
    let ran = entry.rest.after(alloc, printed)?;
    remember(known, entry)?;
    Ok(ran)
}

// The place of a known machine that is equal; the number of known ones if there is none.
fn place_of(known: &[Known], machine: &Machine) -> usize
    ensures inside { result ≤ length known.now }
    ensures equal { IfSome (slice_get known.now result) (λ k. k.machine ≡ machine.now) }
{
    for i in 0..known.len() {
        let entry = &known[i];
        if entry.machine.equals(machine) {
            return i;
        }
    }
    known.len()
}

// Keeps one more. Once they are as many as are kept at most, the others are forgotten.
fn remember(known: &mut Vec<Known>, entry: Known) -> Result<(), NoMemory>
    ensures known { (events : List declared.Event) → All (λ k. IsKnown events k) known.old.items → IsKnown events entry → All (λ k. IsKnown events k) known.new.items }
{
    if known.len() >= MOST {
        known.clear();
        return add(known, entry);
    }
    add(known, entry)
}

// Adds one.
fn add(known: &mut Vec<Known>, entry: Known) -> Result<(), NoMemory>
    ensures known { (events : List declared.Event) → All (λ k. IsKnown events k) known.old.items → IsKnown events entry → All (λ k. IsKnown events k) known.new.items }
{
    let Ok(()) = known.push(entry) else {
        return Err(NoMemory);
    };
    Ok(())
}
