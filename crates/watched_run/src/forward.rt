//! The run goes on until something stops it.

ghost use Rattle.std.specs.Prelude.{◌≡◌, ℕ, IfOk, List, None, OnOk, false};
ghost use Rattle.replayed_run.specs.Replayed.{IsSameRun, is_at_end};
ghost use Rattle.watched_run.specs.Moments as moments;
ghost use Rattle.watched_run.specs.Moves as moves;
ghost use Rattle.watched_run.specs.Moves.{Advances, Moves, Steps, Stops, orders_of, told_after, told_by};
ghost use Rattle.watched_run.specs.Stops.{HasPassed};
ghost use Rattle.watched_run.specs.Watching.{HaveSeen};

use crate::goals::Goal;
use crate::looking::{actor, shown};
use crate::stopped::{Stopped, here, stop_at_trap, stop_by, stopped_ahead};
use crate::watched::WatchedRun;
use gdb_answers::Stop;
use host_port::HostFault;
use xinu_base::Pid;

/// Takes events as long as nothing stops the run, and stops with the next one, or at the run's end. Answers why it stopped, and the process
/// that this is told of. The digits of the console's bytes go to `console`.
///
/// It stays the same run, watched for the same. A trap at which it stopped was told then, and isn't told once more.
///
/// # Errors
/// Out of memory; `Failed` if an event printed something else when it was taken before.
#[tactic(auto, using(replayed_run::proofs::SameRuns::again, replayed_run::proofs::SameRuns::still))]
pub fn go_on(run: &mut WatchedRun, goal: &Goal, console: &mut Vec<u8>) -> Result<Stopped, HostFault>
    ensures same { OnOk result (IsSameRun run.old.replay run.new.replay) }
    ensures stops { IfOk result (λ stopped. Stops (orders_of goal.now run.old) run.old.replay run.new.replay stopped) }
    ensures told { IfOk result (λ stopped. orders_of goal.now run.new ≡ told_by stopped.stop run.new.replay.taken (orders_of goal.now run.old)) }
{
    let _ = run.changed();
    while !run.replay.is_at_end() {
        if let Some(stopped) = advance(run, goal, console)? {
            return Ok(stopped);
        }
    }
    Ok(Stopped {
        stop: Stop::End,
        process: shown(&run.replay),
    })
}

// Takes an event, and more if only a trap can stop the run meanwhile, unless a point stops the run ahead of it. Answers the stop, if there
// is one.
#[tactic(auto, using(replayed_run::proofs::SameRuns::again, replayed_run::proofs::SameRuns::still))]
fn advance(
    run: &mut WatchedRun,
    goal: &Goal,
    console: &mut Vec<u8>,
) -> Result<Option<Stopped>, HostFault>
    requires goes_on { is_at_end run.old.replay ≡ false }
    requires seen { HaveSeen run.old.replay.state.memory run.old.points.watches.items }
    ensures same { OnOk result (IsSameRun run.old.replay run.new.replay) }
    ensures advances { IfOk result (λ found. Advances (orders_of goal.now run.old) run.old.replay run.new.replay found) }
    ensures seen { IfOk result (λ found. found ≡ None → HaveSeen run.new.replay.state.memory run.new.points.watches.items) }
    ensures told { IfOk result (λ found. orders_of goal.now run.new ≡ told_after found run.new.replay.taken (orders_of goal.now run.old)) }
{
    if let Some(stopped) = advance_one(run, goal, console)? {
        return Ok(Some(stopped));
    }
    jump(run, goal);
    Ok(None)
}

// Takes the steps that come next and print nothing, if only a trap can stop the run.
#[tactic(auto, using(replayed_run::proofs::SameRuns::again, replayed_run::proofs::SameRuns::still))]
fn jump(run: &mut WatchedRun, goal: &Goal)
    requires seen { HaveSeen run.old.replay.state.memory run.old.points.watches.items }
    ensures same { IsSameRun run.old.replay run.new.replay }
    ensures passed { HasPassed (orders_of goal.now run.old) run.old.replay run.new.replay }
    ensures seen { HaveSeen run.new.replay.state.memory run.new.points.watches.items }
    ensures told { orders_of goal.now run.new ≡ orders_of goal.now run.old }
{
    if goal.is_free() && run.points.is_empty() {
        run.take_steps();
        let _ = run.changed();
    }
}

// Takes an event, unless a point stops the run ahead of it. Answers the stop, if there is one.
#[tactic(auto, using(replayed_run::proofs::SameRuns::again, replayed_run::proofs::SameRuns::still))]
fn advance_one(
    run: &mut WatchedRun,
    goal: &Goal,
    console: &mut Vec<u8>,
) -> Result<Option<Stopped>, HostFault>
    requires goes_on { is_at_end run.old.replay ≡ false }
    requires seen { HaveSeen run.old.replay.state.memory run.old.points.watches.items }
    ensures same { OnOk result (IsSameRun run.old.replay run.new.replay) }
    ensures moves { IfOk result (λ found. Moves (orders_of goal.now run.old) run.old.replay run.new.replay found) }
    ensures seen { IfOk result (λ found. found ≡ None → HaveSeen run.new.replay.state.memory run.new.points.watches.items) }
    ensures told { IfOk result (λ found. orders_of goal.now run.new ≡ told_after found run.new.replay.taken (orders_of goal.now run.old)) }
{
    let who = actor(&run.replay);
    match stopped_ahead(run, goal, &who) {
        Some(p) => Ok(Some(here(p))),
        None => take_one(run, goal, &who, console),
    }
}

// Takes an event, ahead of which no point stops the run. Answers the stop, if there is one.
#[tactic(auto, using(replayed_run::proofs::SameRuns::again, replayed_run::proofs::SameRuns::still))]
fn take_one(
    run: &mut WatchedRun,
    goal: &Goal,
    who: &Option<Pid>,
    console: &mut Vec<u8>,
) -> Result<Option<Stopped>, HostFault>
    requires goes_on { is_at_end run.old.replay ≡ false }
    requires seen { HaveSeen run.old.replay.state.memory run.old.points.watches.items }
    requires acts { who.now ≡ moments.actor run.old.replay }
    requires no_point { moves.stopped_ahead (orders_of goal.now run.old) run.old.replay.state who.now ≡ None }
    ensures same { OnOk result (IsSameRun run.old.replay run.new.replay) }
    ensures moves { IfOk result (λ found. Moves (orders_of goal.now run.old) run.old.replay run.new.replay found) }
    ensures seen { IfOk result (λ found. found ≡ None → HaveSeen run.new.replay.state.memory run.new.points.watches.items) }
    ensures told { IfOk result (λ found. orders_of goal.now run.new ≡ told_after found run.new.replay.taken (orders_of goal.now run.old)) }
{
    match step(run, goal, who, console)? {
        Some(stopped) => Ok(Some(stopped)),
        None => Ok(after(run, goal, who)),
    }
}

// Takes the event that comes next. If a trap in it is told, the run stands ahead of it, and the stop is answered.
#[tactic(auto, using(replayed_run::proofs::SameRuns::again, replayed_run::proofs::SameRuns::still))]
fn step(
    run: &mut WatchedRun,
    goal: &Goal,
    who: &Option<Pid>,
    console: &mut Vec<u8>,
) -> Result<Option<Stopped>, HostFault>
    requires goes_on { is_at_end run.old.replay ≡ false }
    ensures same { OnOk result (IsSameRun run.old.replay run.new.replay) }
    ensures steps { IfOk result (λ found. Steps (orders_of goal.now run.old) run.old.replay run.new.replay who.now found) }
    ensures points { run.new.points ≡ run.old.points }
    ensures told { IfOk result (λ found. orders_of goal.now run.new ≡ told_after found run.new.replay.taken (orders_of goal.now run.old)) }
{
    run.replay.runs();
    let number = run.replay.taken();
    let trap = run.take_next(console)?;
    match stop_at_trap(run, goal, number, trap, who) {
        Some(stopped) => {
            run.stand_before(number)?;
            run.replay.runs();
            Ok(Some(stopped))
        }
        None => Ok(None),
    }
}

// The stop after an event of this process, or of none, if there is one.
fn after(run: &mut WatchedRun, goal: &Goal, who: &Option<Pid>) -> Option<Stopped>
    ensures stays { run.new.replay ≡ run.old.replay }
    ensures stop { (memory : List ℕ) → HaveSeen memory run.old.points.watches.items → result ≡ moves.stop_after (orders_of goal.now run.old) memory run.old.replay.state who.now }
    ensures seen { HaveSeen run.new.replay.state.memory run.new.points.watches.items }
    ensures told { orders_of goal.now run.new ≡ orders_of goal.now run.old }
{
    let changed = run.changed();
    stop_by(run, goal, who, changed)
}
