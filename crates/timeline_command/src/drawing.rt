//! The run that is drawn: its events are taken, and the picture is told of each.

ghost use Rattle.std.specs.Prelude.{◌≡◌, ◌≤◌, ◌+◌, false, length, map};
ghost use Rattle.run_inputs.specs.InputFaults.{have_fault};

use crate::parts::Drawing;
use crate::words::Part;
use host_port::HostFault;
use machine::{Go, Machine};
use replayed_run::{start, tables, take};
use run_inputs::{Inputs, Refusal};
use run_picture::Ending;
use schedule_file::Schedule;
use std::alloc::Global;

/// The picture of a part of the run of these inputs, with a title if one is given. There are one to eight images.
///
/// # Errors
/// `Overlap(i)` or `NoRoom(i)` if the machine doesn't boot with them; `NoMemory`.
pub(crate) fn picture_of(
    alloc: Global,
    inputs: Inputs,
    part: Part,
    title: Option<&str>,
) -> Result<String, Refusal>
    requires some { 1 ≤ length inputs.images.items }
    requires few { length inputs.images.items ≤ 8 }
    requires good { have_fault (map (λ v. v.items) inputs.images.items) ≡ false }
    requires events { length inputs.schedule ≤ 1000000000 }
{
    let mut machine = inputs.boot(alloc)?;
    let mut schedule = inputs.schedule;
    match draw(alloc, &mut machine, &mut schedule, part, title) {
        Ok(picture) => Ok(picture),
        Err(fault) => Err(Refusal::from(fault)),
    }
}

// The picture of a part of the run of a machine through the events of a schedule.
fn draw(
    alloc: Global,
    machine: &mut Machine,
    schedule: &mut Schedule,
    part: Part,
    title: Option<&str>,
) -> Result<String, HostFault>
    requires over { machine.old.over ≡ false }
    requires few { machine.old.events + length schedule.old ≤ 1000000000 }
{
    let mut drawing = Drawing::new(alloc, part);
    draw_run(alloc, machine, schedule, &mut drawing, title)
}

// The same, with nothing drawn so far.
fn draw_run(
    alloc: Global,
    machine: &mut Machine,
    schedule: &mut Schedule,
    drawing: &mut Drawing,
    title: Option<&str>,
) -> Result<String, HostFault>
    requires over { machine.old.over ≡ false }
    requires few { machine.old.events + length schedule.old ≤ 1000000000 }
{
    let first = start(alloc, machine)?;
    drawing.begin(first.lines(), tables(alloc, machine)?.lines());
    let ending = take_events(alloc, machine, schedule, drawing)?;
    drawing.finish(tables(alloc, machine)?.lines(), ending);
    Ok(drawing.picture(title)?)
}

// Takes the events until the picture is full or the run ends.
#[inline(never)]
fn take_events(
    alloc: Global,
    machine: &mut Machine,
    schedule: &mut Schedule,
    drawing: &mut Drawing,
) -> Result<Ending, HostFault>
    requires over { machine.old.over ≡ false }
    requires few { machine.old.events + length schedule.old ≤ 1000000000 }
{
    while let Some(event) = schedule.next_event() {
        if drawing.is_full() {
            return Ok(Ending::GoesOn);
        }
        let taken = take(alloc, machine, event)?;
        let lines = taken.lines();
        if drawing.needs_tables(event, lines) {
            drawing.event(event, lines, tables(alloc, machine)?.lines());
        } else {
            drawing.quiet(event, lines);
        }
        match taken.go {
            Go::Goes => {}
            Go::Done => return Ok(Ending::Done),
            Go::Panic => return Ok(Ending::Panic),
        }
    }
    Ok(Ending::Schedule)
}
