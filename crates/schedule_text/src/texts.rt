//! The text of a schedule.

ghost use Rattle.std.specs.Prelude.{◌≡◌, ◌*◌, ◌+◌, ◌≤◌, ◌<◌, ◌++◌, true, length, replicate, Some, IfOk, OnOk};
ghost use Rattle.xinu_base.specs.declared.events.Event.{Event};
ghost use Rattle.schedule_file.specs.ScheduleFiles.{events_in};
ghost use Rattle.schedule_text.specs.Written as spec;

use crate::lines::{is_joined, line_of};
use std::alloc::{AllocError, Global};
use xinu_base::{Event, NoMemory};

/// The text of a schedule file with these events, at most 1000000000 of them. It reads as these events and no others, and takes at most 18
/// bytes for each.
///
/// # Errors
/// `NoMemory`.
pub fn schedule_text(alloc: Global, events: &[Event]) -> Result<Vec<u8>, NoMemory>
    requires most { length events.now ≤ 1000000000 }
    ensures text { IfOk result (λ text. text.items ≡ spec.schedule_text events.now) }
    ensures reads { IfOk result (λ text. events_in text.items ≡ Some events.now) }
    ensures size { IfOk result (λ text. length text.items ≤ 18 * length events.now) }
{
    match text_of(alloc, events) {
        Ok(text) => Ok(text),
        Err(_) => Err(NoMemory),
    }
}

// The text of these events.
fn text_of(alloc: Global, events: &[Event]) -> Result<Vec<u8>, AllocError>
    requires most { length events.now ≤ 1000000000 }
    ensures text { IfOk result (λ text. text.items ≡ spec.schedule_text events.now) }
    ensures written { IfOk result (λ _. spec.AreWritten events.now) }
    ensures size { IfOk result (λ text. length text.items ≤ 18 * length events.now) }
{
    let mut text = Vec::new(alloc);
    let mut event = Event::Step;
    let mut count = 0;
    for next in events {
        if is_joined(event, *next) {
            count += 1;
        } else {
            push_repeat(&mut text, event, count)?;
            event = *next;
            count = 1;
        }
    }
    push_repeat(&mut text, event, count)?;
    Ok(text)
}

// Appends the line of an event that comes so often; none, if it doesn't come.
fn push_repeat(text: &mut Vec<u8>, event: Event, count: u32) -> Result<(), AllocError>
    requires counts { 1 < count → spec.is_joined event event ≡ true }
    ensures text { OnOk result (text.new.items ≡ text.old.items ++ spec.schedule_text (replicate count event)) }
    ensures size { OnOk result (length text.new.items ≤ length text.old.items + 18 * count) }
{
    if count > 0 {
        text.extend_from_slice(line_of(event, count).bytes())?;
    }
    Ok(())
}
