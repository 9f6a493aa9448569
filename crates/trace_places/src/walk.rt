//! A text is read along a run, one machine and one place in the text, up to a mistake.

ghost use Rattle.std.specs.Prelude.{◌≡◌, ◌≤◌, ◌++◌, IfOk, IfSome, length};
ghost use Rattle.reference_check.specs.Bounds.{IsWithin};
ghost use Rattle.reference_state.specs.Answers.{IsStart};
ghost use Rattle.trace_places.specs.Moments.{IsWhen};
ghost use Rattle.trace_places.specs.Places as places;
ghost use Rattle.trace_places.specs.Reading.{FoundAs, TookSo};
ghost use Rattle.trace_places.specs.declared.mistakes.When.TheVariants as when;
ghost use Rattle.transcript_laws.specs.Choices.{told};
ghost use Rattle.transcript_laws.specs.Reading.{last_lines};
ghost use Rattle.transcript_laws.specs.Transcripts.{first_text};
ghost use Rattle.xinu_model.specs.Events.{effect_of};
ghost use Rattle.xinu_model.specs.Runs as runs;

use crate::mistakes::{Mistake, Moment, When};
use crate::reading::{Read, last_mistake, read_lines};
use reference_check::{after_line, is_over, lines_of, take};
use reference_state::Machine;
use schedule_file::Schedule;
use xinu_base::{End, Event, NoMemory, TranscriptLine};

// What is left of a text after the lines of an event that it begins with, and how the run ended with the event, if it did.
#[derive(Drop)]
struct Taken<'a> {
    rest: &'a [u8],
    end: Option<End>,
}

/// The mistake in a text that should be the transcript of a run of this machine, which no event has happened to, through these events.
pub(crate) fn mistake_of<'a>(
    machine: &mut Machine,
    schedule: &mut Schedule,
    text: &'a [u8],
) -> Result<Option<Mistake<'a>>, NoMemory>
    requires idle { IsStart machine.old }
    requires within { IsWithin 0 machine.old.state }
    requires most { length schedule.old ≤ 1000000000 }
    ensures finds { IfOk result (λ r. FoundAs (places.mistake_of machine.old.state schedule.old text.now) r) }
    ensures when { IfOk result (λ r. IfSome r (λ m. IsWhen machine.old.state schedule.old text.now m.left.now m.due m.when)) }
{
    let first = TranscriptLine::Switch(machine.current());
    match after_line(&first, text) {
        None => Ok(Some(Mistake {
            left: text,
            due: Some(first),
            when: When::Start,
        })),
        Some(rest) => mistake_from(machine, schedule, rest),
    }
}

// The same from the first event on.
fn mistake_from<'a>(
    machine: &mut Machine,
    schedule: &mut Schedule,
    text: &'a [u8],
) -> Result<Option<Mistake<'a>>, NoMemory>
    requires idle { IsStart machine.old }
    requires within { IsWithin 0 machine.old.state }
    requires most { length schedule.old ≤ 1000000000 }
    ensures finds { IfOk result (λ r. FoundAs (places.mistake_from machine.old.state schedule.old text.now) r) }
    ensures when { IfOk result (λ r. IfSome r (λ m. IsWhen machine.old.state schedule.old (first_text machine.old.state ++ text.now) m.left.now m.due m.when)) }
{
    let mut rest = text;
    let mut number = 0u64;
    while let Some(event) = schedule.next_event() {
        number = number.saturating_add(1);
        let process = machine.current();
        let mut due = None;
        let taken = take_event(machine, event, rest, &mut due)?;
        rest = taken.rest;
        if let Some(due) = due {
            let moment = Moment {
                number,
                event,
                process,
            };
            return Ok(Some(Mistake {
                left: rest,
                due: Some(due),
                when: When::In(moment),
            }));
        }
        if let Some(end) = taken.end {
            return mistake_at_end(machine, end, rest);
        }
    }
    mistake_at_end(machine, End::Schedule, rest)
}

// The machine takes an event, whose lines are read off a text. The first of them that doesn't come next, if there is one, is due.
fn take_event<'a>(
    machine: &mut Machine,
    event: Event,
    text: &'a [u8],
    due: &mut Option<TranscriptLine>,
) -> Result<Taken<'a>, NoMemory>
    requires idle { IsStart machine.old }
    requires within { IsWithin 1000000000 machine.old.state }
    ensures took { IfOk result (λ t. TookSo (effect_of machine.old.state event (told machine.old.state event text.now)) text.now t due.new machine.new.state) }
    ensures idle { IfOk result (λ _. IsStart machine.new) }
{
    let happened = take(machine, event, text)?;
    let read = read_lines(&happened.lines, text);
    *due = read.due;
    let end = end_with(happened.panics, is_over(machine));
    Ok(Taken {
        rest: read.rest,
        end,
    })
}

// How a run ends with an event, by whether the kernel panicked in it and whether no process but the null process is left.
fn end_with(panics: bool, is_over: bool) -> Option<End>
    ensures end { result ≡ runs.end_with panics is_over }
{
    if panics {
        Some(End::Panic)
    } else if is_over {
        Some(End::Done)
    } else {
        None
    }
}

// The mistake in a text that should be what is printed at the end of a run that ends so.
fn mistake_at_end<'a>(
    machine: &Machine,
    end: End,
    text: &'a [u8],
) -> Result<Option<Mistake<'a>>, NoMemory>
    requires within { IsWithin 1000000001 machine.now.state }
    ensures finds { IfOk result (λ r. FoundAs (places.mistake_in (last_lines machine.now.state end) text.now places.mistake_past) r) }
    ensures end { IfOk result (λ r. IfSome r (λ m. m.when ≡ when.End)) }
{
    let tables = lines_of(machine)?;
    let Read { rest, due } = read_lines(&tables, text);
    match due {
        None => Ok(last_mistake(end, rest)),
        Some(due) => Ok(Some(Mistake {
            left: rest,
            due: Some(due),
            when: When::End,
        })),
    }
}
