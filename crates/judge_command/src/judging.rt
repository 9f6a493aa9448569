//! The run that is judged: its events are taken, and the detector is told of each.

ghost use Rattle.std.specs.Prelude.{◌≡◌, ◌<◌, false, true, IfOk, OnOk};
ghost use Rattle.judge_command.specs.Judging.{IsJudgement};
ghost use Rattle.replayed_run.specs.Replayed.{HasInputs, is_at_end};

use crate::calls::call_ahead;
use crate::history::History;
use crate::reports::{Judgement, Reports};
use crate::words::Asked;
use host_port::HostFault;
use race_events::Watcher;
use replayed_run::Replay;
use std::alloc::Global;
use xinu_base::Event;

/// What is told of the data races of a run, which is before its first event.
///
/// # Errors
/// Out of memory.
pub(crate) fn judgement_of(
    alloc: Global,
    replay: &mut Replay,
    asked: Asked<'_>,
) -> Result<Judgement, HostFault>
    ensures judges { IfOk result (λ j. IsJudgement replay.old j.races j.text.items) }
{
    let mut watcher = Watcher::new(alloc)?;
    let mut history = History::new(alloc);
    let mut reports = Reports::new(alloc, asked);
    history.note(replay.state(), 0, None)?;
    judge(replay, &mut watcher, &mut history, &mut reports)
}

// The same, with nothing noted but who lives.
fn judge(
    replay: &mut Replay,
    watcher: &mut Watcher,
    history: &mut History,
    reports: &mut Reports<'_>,
) -> Result<Judgement, HostFault>
    ensures judges { IfOk result (λ j. IsJudgement replay.old j.races j.text.items) }
{
    take_events(replay, watcher, history, reports)?;
    replay.runs();
    Ok(reports.judgement(replay.taken())?)
}

// Takes the events until the run ends.
#[inline(never)]
fn take_events(
    replay: &mut Replay,
    watcher: &mut Watcher,
    history: &mut History,
    reports: &mut Reports<'_>,
) -> Result<(), HostFault>
    ensures inputs { OnOk result (HasInputs replay.old.disks replay.old.files replay.old.events replay.new) }
    ensures ended { OnOk result (is_at_end replay.new ≡ true) }
{
    while let Some(event) = replay.next() {
        watcher.ahead(replay.state(), event)?;
        let taken = take_event(replay, event, history)?;
        watcher.after(replay.state())?;
        watcher.pass_by(taken.saturating_sub(1));
        reports.tell(watcher.told(), history, replay)?;
    }
    Ok(())
}

// Takes the event that comes next, and notes what it means for owners of bytes: nothing, if it is a step that prints nothing. If it is one of the
// null process those that follow are taken too. How many were taken.
fn take_event(replay: &mut Replay, event: Event, history: &mut History) -> Result<u32, HostFault>
    requires goes_on { is_at_end replay.old ≡ false }
    ensures further { OnOk result (replay.old.taken < replay.new.taken) }
    ensures inputs { HasInputs replay.old.disks replay.old.files replay.old.events replay.new }
{
    let count = replay.take_steps(steps_at_once(replay));
    if count > 0 {
        return Ok(count);
    }
    let call = call_ahead(replay.state(), event);
    take(replay)?;
    history.note(replay.state(), replay.taken(), call)?;
    Ok(1)
}

// How many steps may be taken at once: all of the null process, which does nothing, and one of any other.
fn steps_at_once(replay: &Replay) -> u32 {
    if replay.state().tables.current().index() == 0 {
        u32::MAX
    } else {
        1
    }
}

// Takes the event that comes next.
fn take(replay: &mut Replay) -> Result<(), HostFault>
    requires goes_on { is_at_end replay.old ≡ false }
    ensures further { OnOk result (replay.old.taken < replay.new.taken) }
    ensures inputs { HasInputs replay.old.disks replay.old.files replay.old.events replay.new }
{
    match replay.take() {
        Ok(_) => Ok(()),
        Err(fault) => Err(HostFault::from(fault)),
    }
}
