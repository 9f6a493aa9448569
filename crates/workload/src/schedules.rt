//! The schedule, as a text.

ghost use Rattle.std.specs.Prelude.{◌≡◌, ◌*◌, ◌≤◌, ◌++◌, ◌∷◌, [], length, IfOk};
ghost use Rattle.schedule_file.specs.ScheduleFiles.{Reads, reading};
ghost use Rattle.workload.specs.Schedules as spec;

use crate::draws::Draws;
use host_port::Line;
use std::alloc::{AllocError, Global};
use xinu_base::{Event, NoMemory};

/// How many events a schedule has.
const EVENTS: u32 = 200_000;

/// The text of a schedule. It reads as the 200,000 events that are drawn, and has at most 2,000,000 bytes.
///
/// # Errors
/// `NoMemory`.
pub fn schedule_text(alloc: Global, draws: &mut Draws) -> Result<Vec<u8>, NoMemory>
    ensures reads { IfOk result (λ text. reading text.items ≡ Reads (spec.events_in spec.event_count draws.old)) }
    ensures size { IfOk result (λ text. length text.items ≤ 2000000) }
{
    match text_of(alloc, draws, EVENTS) {
        Ok(text) => Ok(text),
        Err(_) => Err(NoMemory),
    }
}

// The text of so many events.
fn text_of(alloc: Global, draws: &mut Draws, count: u32) -> Result<Vec<u8>, AllocError>
    ensures text { IfOk result (λ text. text.items ≡ spec.text_of (spec.events_in count draws.old)) }
    ensures size { IfOk result (λ text. length text.items ≤ 10 * count) }
{
    let mut text = Vec::new(alloc);
    for _ in 0..count {
        let line = line_of(draw_event(draws));
        text.extend_from_slice(line.bytes())?;
    }
    Ok(text)
}

// Draws an event.
#[tactic(auto, unfolding(crate::specs::Schedules::event_in, crate::specs::Schedules::after_event))]
fn draw_event(draws: &mut Draws) -> Event
    ensures event { result ≡ spec.event_in draws.old }
    ensures draws { draws.new ≡ spec.after_event draws.old }
{
    let number = draws.draw(64);
    if number < 52 {
        Event::Step
    } else if number < 54 {
        Event::Tick
    } else if number < 55 {
        Event::Key(draws.draw(128) as u8)
    } else if number < 58 {
        Event::Tx
    } else if number < 63 {
        Event::Disk1
    } else {
        Event::Fail1
    }
}

// An event as a line of a schedule.
fn line_of(event: Event) -> Line
    ensures line { result ≡ spec.line_of event ++ 10 ∷ [] }
    ensures size { length result ≤ 10 }
{
    let mut line = Line::new();
    match event {
        Event::Step => line.word("step 1"),
        Event::Tick => line.word("tick 1"),
        Event::Key(byte) => {
            line.word("type ");
            line.hex2(byte);
        }
        Event::Tx => line.word("tx 1"),
        Event::Disk0 => line.word("disk0 1"),
        Event::Disk1 => line.word("disk1 1"),
        Event::Fail0 => line.word("fail0"),
        Event::Fail1 => line.word("fail1"),
        Event::Dump => line.word("dump"),
    }
    line.end();
    line
}
