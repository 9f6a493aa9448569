//! The run that is told: its events are taken, and what comes of each is told.

ghost use Rattle.std.specs.Prelude.{◌≡◌, ◌<◌, ◌≤◌, ◌==◌, ◌||◌, ◌++◌, ℕ, [], false, true, IfOk, OnOk, Some};
ghost use Rattle.explain_command.specs.Ends.{EndsAs, HasEnded};
ghost use Rattle.explain_command.specs.Passing.{HasLived, HasNoted, HasRefused, TakesNext};
ghost use Rattle.explain_command.specs.Stories.{IsStateText, IsStory};
ghost use Rattle.machine.specs.RunEnds.{end_of_go};
ghost use Rattle.memory_strays.specs.Strays.{nothing_noted};
ghost use Rattle.process_lives.specs.Lives.{first_life, life_in, next_life};
ghost use Rattle.refused_calls.specs.Refusals.{refused_in};
ghost use Rattle.replayed_run.specs.Replayed.{HasInputs, is_at_end};
ghost use Rattle.xinu_model.specs.Text.{tables_of, text};

use crate::happenings::happen;
use crate::telling::Telling;
use crate::unsent::tell_unsent;
use crate::words::is_listed;
use host_port::HostFault;
use machine::Go;
use memory_strays::Strays;
use process_lives::Lives;
use refused_calls::RefusedCalls;
use replayed_run::{Printed, Replay};
use run_story::Story;
use std::alloc::{AllocError, Global};
use xinu_base::{End, Event};

/// The text that tells a run from its first event on, after a list of some of them, and each call that is refused, or each kind once.
///
/// # Errors
/// Out of memory.
pub(crate) fn tell(
    alloc: Global,
    replay: &mut Replay,
    steps: Option<(u64, u64)>,
    tells_each: bool,
) -> Result<Vec<u8>, HostFault>
    requires begins { replay.old.taken ≡ 0 }
    requires goes_on { replay.old.over ≡ false }
    ensures tells { IfOk result (λ text. IsStory steps tells_each replay.old text.items) }
{
    let mut telling = Telling::new(alloc)?;
    let mut strays = Strays::new(alloc, replay.files())?;
    let mut refused = RefusedCalls::new(alloc);
    let mut lives = Lives::new(&replay.state().tables);
    tell_run(
        replay,
        &mut telling,
        &mut strays,
        &mut refused,
        &mut lives,
        steps,
        tells_each,
    )
}

/// The text that tells the state after so many events, or after all if the run ends earlier.
///
/// # Errors
/// Out of memory.
pub(crate) fn tell_at(alloc: Global, replay: &mut Replay, events: u32) -> Result<Vec<u8>, HostFault>
    requires begins { replay.old.taken ≡ 0 }
    ensures tells { IfOk result (λ text. IsStateText events replay.old text.items) }
{
    let mut telling = Telling::new(alloc)?;
    let mut lives = Lives::new(&replay.state().tables);
    telling.story.begin(tables(replay)?.lines());
    take_until(replay, &mut telling, &mut lives, events)?;
    replay.runs();
    Ok(telling.state_text(replay, &lives, tables(replay)?.lines())?)
}

// Takes the next events until so many were taken, or the run ends.
#[inline(never)]
fn take_until(
    replay: &mut Replay,
    telling: &mut Telling,
    lives: &mut Lives,
    events: u32,
) -> Result<(), HostFault>
    requires few { replay.old.taken ≤ events }
    ensures inputs { OnOk result (HasInputs replay.old.disks replay.old.files replay.old.events replay.new) }
    ensures reached { OnOk result ((replay.new.taken == events || is_at_end replay.new) ≡ true) }
{
    while let Some(event) = replay.next() {
        if replay.taken() >= events {
            return Ok(());
        }
        take_event(replay, event, telling, None)?;
        note_lives(replay, lives);
    }
    Ok(())
}

// The same, with nothing told so far.
fn tell_run(
    replay: &mut Replay,
    telling: &mut Telling,
    strays: &mut Strays,
    refused: &mut RefusedCalls,
    lives: &mut Lives,
    steps: Option<(u64, u64)>,
    tells_each: bool,
) -> Result<Vec<u8>, HostFault>
    requires begins { replay.old.taken ≡ 0 }
    requires goes_on { replay.old.over ≡ false }
    requires none { strays.old ≡ nothing_noted replay.old.files }
    requires no_refusal { refused.old ≡ [] }
    requires first { (p : ℕ) → p < 64 → life_in lives.old p ≡ first_life replay.old.state.tables p }
    ensures strays { IfOk result (λ _. HasNoted replay.old replay.new strays.new) }
    ensures refusals { IfOk result (λ _. HasRefused replay.old replay.new refused.new) }
    ensures lived { IfOk result (λ _. HasLived replay.old replay.new lives.new) }
    ensures tells { IfOk result (λ text. IsStory steps tells_each replay.old text.items) }
{
    telling.story.begin(tables(replay)?.lines());
    let end = take_events(replay, telling, strays, refused, lives, steps)?;
    tell_unsent(&mut telling.story, replay.state())?;
    Ok(telling.text(replay, refused, lives, tells_each, end, steps)?)
}

// Takes the events until the run ends.
#[inline(never)]
fn take_events(
    replay: &mut Replay,
    telling: &mut Telling,
    strays: &mut Strays,
    refused: &mut RefusedCalls,
    lives: &mut Lives,
    steps: Option<(u64, u64)>,
) -> Result<End, HostFault>
    requires begins { replay.old.taken ≡ 0 }
    requires goes_on { replay.old.over ≡ false }
    requires none { strays.old ≡ nothing_noted replay.old.files }
    requires no_refusal { refused.old ≡ [] }
    requires first { (p : ℕ) → p < 64 → life_in lives.old p ≡ first_life replay.old.state.tables p }
    ensures strays { IfOk result (λ _. HasNoted replay.old replay.new strays.new) }
    ensures refusals { IfOk result (λ _. HasRefused replay.old replay.new refused.new) }
    ensures lived { IfOk result (λ _. HasLived replay.old replay.new lives.new) }
    ensures inputs { IfOk result (λ _. HasInputs replay.old.disks replay.old.files replay.old.events replay.new) }
    ensures ended { IfOk result (λ end. HasEnded replay.new end) }
{
    while let Some(event) = replay.next() {
        telling.note(event, replay, strays);
        note_refused(event, replay, refused)?;
        let go = take_event(replay, event, telling, steps)?;
        note_lives(replay, lives);
        match go {
            Go::Goes => {}
            Go::Done => return Ok(End::Done),
            Go::Panic => return Ok(End::Panic),
        }
    }
    replay.runs();
    Ok(End::Schedule)
}

// Notes the calls that are refused in the event that comes next.
fn note_refused(event: Event, replay: &Replay, refused: &mut RefusedCalls) -> Result<(), AllocError>
    ensures noted { OnOk result (refused.new ≡ refused.old ++ refused_in (Some event) replay.now.taken replay.now.state) }
{
    refused.note(event, replay.state(), replay.taken())
}

// Notes what each process does after the event that was just taken.
fn note_lives(replay: &Replay, lives: &mut Lives)
    ensures noted { (p : ℕ) → p < 64 → life_in lives.new p ≡ next_life replay.now.taken replay.now.state.tables p (life_in lives.old p) }
{
    lives.note(&replay.state().tables, replay.taken() as u64);
}

// Takes the event that comes next, and tells what came of it: nothing of a step that prints nothing, unless it is listed.
fn take_event(
    replay: &mut Replay,
    event: Event,
    telling: &mut Telling,
    steps: Option<(u64, u64)>,
) -> Result<Go, HostFault>
    requires goes_on { is_at_end replay.old ≡ false }
    ensures takes { IfOk result (λ _. TakesNext replay.old replay.new) }
    ensures further { IfOk result (λ _. replay.old.taken < replay.new.taken) }
    ensures inputs { HasInputs replay.old.disks replay.old.files replay.old.events replay.new }
    ensures ends { IfOk result (λ go. EndsAs replay.new (end_of_go go)) }
{
    let is_listed = is_listed(steps, replay.taken());
    if !is_listed && replay.take_steps(1) == 1 {
        telling.story.quiet(1);
        return Ok(Go::Goes);
    }
    let shown = happen(replay)?;
    let lines = shown.taken.lines();
    if is_listed {
        telling.list(event, &shown, replay.files());
    }
    if Story::needs_tables(event, lines) {
        telling.story.event(event, lines, tables(replay)?.lines());
    } else {
        telling.story.quiet(1);
    }
    if lines.starts_with("trap ") {
        telling.trap(replay, &shown.seen);
    }
    if matches!(shown.taken.go, Go::Panic) {
        telling.panic(&shown.seen);
    }
    Ok(shown.taken.go)
}

// The tables after the events that were taken.
fn tables(replay: &Replay) -> Result<Printed, HostFault>
    ensures tables { IfOk result (λ printed. printed ≡ text (tables_of replay.now.state)) }
{
    match replay.tables() {
        Ok(printed) => Ok(printed),
        Err(_) => Err(HostFault::NoMemory),
    }
}
