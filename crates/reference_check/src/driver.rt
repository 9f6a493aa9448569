//! A text is read along a run: one machine, one place in the text, event by event.

ghost use Rattle.std.specs.Prelude.{◌≡◌, ◌≤◌, IfOk, MatchOption, bytes_eq, false, length};
ghost use Rattle.reference_check.specs.Bounds.{IsWithin};
ghost use Rattle.reference_check.specs.Taking.{Took};
ghost use Rattle.reference_state.specs.Answers.{IsStart};
ghost use Rattle.transcript_laws.specs.Choices.{told};
ghost use Rattle.transcript_laws.specs.Reading as reading;
ghost use Rattle.transcript_laws.specs.Transcripts as transcripts;
ghost use Rattle.xinu_model.specs.Boot.{Boots};
ghost use Rattle.xinu_model.specs.Events.{effect_of};
ghost use Rattle.xinu_model.specs.Runs as runs;
ghost use Rattle.xinu_model.specs.Text as model;

use crate::events::{lines_of, take};
use crate::machines;
use crate::reading::{after_line, after_lines};
use reference_state::Machine;
use schedule_file::Schedule;
use transcript::render;
use xinu_base::{End, Event, NoMemory, TranscriptLine};

// An event was taken: what is left of the text after what it printed, and how the run ended with it, if it did.
#[derive(Drop)]
struct Taken<'a> {
    rest: &'a [u8],
    end: Option<End>,
}

/// Whether a text is the transcript of a run of this machine, which no event has happened to, through these events.
pub(crate) fn check_from(
    machine: &mut Machine,
    schedule: &mut Schedule,
    text: &[u8],
) -> Result<bool, NoMemory>
    requires idle { IsStart machine.old }
    requires within { IsWithin 0 machine.old.state }
    requires most { length schedule.old ≤ 1000000000 }
    ensures checks { IfOk result (λ b. b ≡ transcripts.checks_from (Boots machine.old.state) schedule.old text.now) }
{
    let first = TranscriptLine::Switch(machine.current());
    match after_line(&first, text) {
        None => Ok(false),
        Some(rest) => check_events(machine, schedule, rest),
    }
}

// Whether a text is what the machine prints in these events, and at the end of the run. Where an event leaves something open, the text
// tells it.
fn check_events(
    machine: &mut Machine,
    schedule: &mut Schedule,
    text: &[u8],
) -> Result<bool, NoMemory>
    requires idle { IsStart machine.old }
    requires within { IsWithin 0 machine.old.state }
    requires most { length schedule.old ≤ 1000000000 }
    ensures accepts { IfOk result (λ b. b ≡ reading.accepts told machine.old.state schedule.old text.now) }
{
    let mut rest = text;
    while let Some(e) = schedule.next_event() {
        let Some(taken) = take_event(machine, e, rest)? else {
            return Ok(false);
        };
        rest = taken.rest;
        if let Some(end) = taken.end {
            let ends = ends_with(machine, end, rest)?;
            return Ok(ends);
        }
    }
    let ends = ends_with(machine, End::Schedule, rest)?;
    Ok(ends)
}

// The machine takes an event; `None` if and only if the text doesn't begin with what the event prints.
fn take_event<'a>(
    machine: &mut Machine,
    e: Event,
    rest: &'a [u8],
) -> Result<Option<Taken<'a>>, NoMemory>
    requires idle { IsStart machine.old }
    requires within { IsWithin 1000000000 machine.old.state }
    ensures took { IfOk result (λ r. MatchOption r
        (reading.starts_with (model.text (effect_of machine.old.state e (told machine.old.state e rest.now)).lines) rest.now ≡ false)
        (λ t. Took (effect_of machine.old.state e (told machine.old.state e rest.now)) rest.now t machine.new.state)) }
    ensures idle { IfOk result (λ _. IsStart machine.new) }
{
    let happened = take(machine, e, rest)?;
    let Some(left) = after_lines(&happened.lines, rest) else {
        return Ok(None);
    };
    let end = end_with(happened.panics, machines::is_over(machine));
    Ok(Some(Taken { rest: left, end }))
}

// How a run ends with an event, by whether the kernel panicked in it and whether no process but the null process is left.
fn end_with(panics: bool, is_over: bool) -> Option<End>
    ensures end { result ≡ runs.end_with panics is_over }
{
    if panics {
        Some(End::Panic)
    } else if is_over {
        Some(End::Done)
    } else {
        None
    }
}

// Whether a text is what is printed at the end of a run that ends so.
fn ends_with(machine: &Machine, end: End, text: &[u8]) -> Result<bool, NoMemory>
    requires within { IsWithin 1000000001 machine.now.state }
    ensures ends { IfOk result (λ b. b ≡ bytes_eq (model.text (reading.last_lines machine.now.state end)) text.now) }
{
    let tables = lines_of(machine)?;
    let Some(rest) = after_lines(&tables, text) else {
        return Ok(false);
    };
    let last = render(&TranscriptLine::End(end));
    Ok(last.bytes() == rest)
}
