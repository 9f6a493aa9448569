//! Events in words.

ghost use Rattle.std.specs.Prelude.{◌≡◌, ◌++◌, OnOk};
ghost use Rattle.trace_report.specs.EventNames as names;
ghost use Rattle.trace_report.specs.Reports as spec;

use crate::quotes::push_numbered;
use std::alloc::AllocError;
use trace_places::When;
use xinu_base::{Event, Pid};

/// The name of an event, as a schedule has it.
#[tactic(auto, unfolding(crate::specs::EventNames::event_name))]
pub fn event_name(event: Event) -> &'static str
    ensures name { result.now ≡ names.event_name event }
{
    match event {
        Event::Step => "step",
        Event::Tick => "tick",
        Event::Key(_) => "type",
        Event::Tx => "tx",
        Event::Disk0 => "disk0",
        Event::Fail0 => "fail0",
        Event::Disk1 => "disk1",
        Event::Fail1 => "fail1",
        Event::Dump => "dump",
    }
}

/// Appends when a run prints a line.
#[tactic(auto, unfolding(crate::specs::Reports::when_text))]
pub(crate) fn push_when(text: &mut Vec<u8>, when: &When) -> Result<(), AllocError>
    ensures when { OnOk result (text.new.items ≡ text.old.items ++ spec.when_text when.now) }
{
    match when {
        When::Start => text.extend_from_slice(b" (before the first event)"),
        When::In(moment) => {
            push_numbered(text, " (event ", moment.number)?;
            push_happening(text, moment.event, moment.process)?;
            text.extend_from_slice(b")")
        }
        When::End => text.extend_from_slice(b" (after the last event)"),
    }
}

// Appends an event, and of a step the process that takes it.
#[tactic(auto, unfolding(crate::specs::Reports::happening_text))]
fn push_happening(text: &mut Vec<u8>, event: Event, process: Pid) -> Result<(), AllocError>
    ensures happening { OnOk result (text.new.items ≡ text.old.items ++ spec.happening_text event process) }
{
    match event {
        Event::Step => push_numbered(text, ", a step of process ", process.index() as u64),
        event => {
            text.extend_from_slice(b", ")?;
            text.extend_from_slice(event_name(event).as_bytes())
        }
    }
}
