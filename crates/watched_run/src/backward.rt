//! The run goes back until something stops it.

ghost use Rattle.std.specs.Prelude.{◌≡◌, ◌+◌, ◌<◌, ◌≤◌, ◌==◌, ◌||◌, IfOk, List, None, OnOk, false, true, ℕ};
ghost use Rattle.replayed_run.specs.Replayed.{IsSameRun, Replayed, is_at_end};
ghost use Rattle.watched_run.specs.Backward.{IsStoppedBack, StopsBack, untold};
ghost use Rattle.watched_run.specs.Moves.{orders_of};
ghost use Rattle.watched_run.specs.Stops.{Orders};
ghost use Rattle.watched_run.specs.Watching.{HaveSeen, areas_of, first_changed};
ghost use Rattle.watched_run.specs.Windows as windows;
ghost use Rattle.watched_run.specs.Windows.{Finds, HasStood, LooksBack, Retreats};

use crate::goals::Goal;
use crate::looking::{actor, shown};
use crate::stopped::{Stopped, changed_at, changer, here};
use crate::watched::WatchedRun;
use gdb_answers::Stop;
use host_port::HostFault;
use xinu_base::Pid;

/// How many events the nearest stretch has that is looked through.
const NEAREST: u32 = 4096;

/// A stop of a run on its way back, and how many events come before it.
#[derive(Clone, Copy)]
struct Found {
    number: u32,
    stopped: Stopped,
}

/// Goes back to the last place at which the run, on its way back, would have stopped; to its beginning, if there is none. Answers why it
/// stopped, and the process that this is told of. All this is so if it is known what the events printed.
///
/// It stays the same run, watched for the same, and no trap counts as told afterwards.
///
/// # Errors
/// Out of memory; `Failed` if an event printed something else when it was taken before.
pub fn go_back(run: &mut WatchedRun, goal: &Goal) -> Result<Stopped, HostFault>
    ensures same { OnOk result (IsSameRun run.old.replay run.new.replay) }
    ensures stops { IfOk result (λ stopped. run.old.replay.known ≡ true → StopsBack (orders_of goal.now run.old) run.old.replay run.new.replay stopped) }
    ensures told { OnOk result (orders_of goal.now run.new ≡ untold (orders_of goal.now run.old)) }
{
    let stopped = look_back(run, goal)?;
    run.forget_trap();
    Ok(stopped)
}

// Looks through the events that were taken, from the nearest stretch of them to the farthest, each four times as long.
#[tactic(auto, using(replayed_run::proofs::SameRuns::again, replayed_run::proofs::SameRuns::still))]
fn look_back(run: &mut WatchedRun, goal: &Goal) -> Result<Stopped, HostFault>
    ensures same { OnOk result (IsSameRun run.old.replay run.new.replay) }
    ensures stops { IfOk result (λ stopped. run.old.replay.known ≡ true → StopsBack (orders_of goal.now run.old) run.old.replay run.new.replay stopped) }
    ensures orders { OnOk result (orders_of goal.now run.new ≡ orders_of goal.now run.old) }
{
    run.replay.runs();
    let mut to = run.replay.taken();
    let mut window = NEAREST;
    while to > 0 {
        let from = to.saturating_sub(window);
        if let Some(stopped) = last_stop(run, goal, from, to)? {
            return Ok(stopped);
        }
        to = from;
        window = window.saturating_mul(4);
    }
    begin(run)
}

// Goes to the beginning.
fn begin(run: &mut WatchedRun) -> Result<Stopped, HostFault>
    ensures same { OnOk result (IsSameRun run.old.replay run.new.replay) }
    ensures begins { IfOk result (λ stopped. (o : Orders) (place : Replayed) → HasStood 0 place run.old.replay → IsStoppedBack o run.new.replay place stopped.process stopped.stop) }
    ensures points { run.new.points ≡ run.old.points }
    ensures told { run.new.told ≡ run.old.told }
{
    run.seek(0)?;
    run.replay.runs();
    Ok(Stopped {
        stop: Stop::Beginning,
        process: shown(&run.replay),
    })
}

// Goes to the last place in a stretch of events at which the run, on its way back, would have stopped. Answers the stop, if there is one.
#[tactic(auto, using(replayed_run::proofs::SameRuns::again, replayed_run::proofs::SameRuns::still))]
fn last_stop(
    run: &mut WatchedRun,
    goal: &Goal,
    from: u32,
    to: u32,
) -> Result<Option<Stopped>, HostFault>
    requires farther { from < to }
    ensures same { OnOk result (IsSameRun run.old.replay run.new.replay) }
    ensures looks { IfOk result (λ found. (place : Replayed) → HasStood to place run.old.replay → LooksBack (orders_of goal.now run.old) from place run.new.replay found) }
    ensures orders { OnOk result (orders_of goal.now run.new ≡ orders_of goal.now run.old) }
{
    run.seek(from)?;
    run.replay.runs();
    let found = find_last(run, goal, to)?;
    run.replay.runs();
    match found {
        Some(found) => {
            run.seek(found.number)?;
            run.replay.runs();
            Ok(Some(found.stopped))
        }
        None => Ok(None),
    }
}

// Takes events up to a number of them. Answers the last stop of a run on its way back, if there is one.
#[tactic(auto, using(replayed_run::proofs::SameRuns::again, replayed_run::proofs::SameRuns::still))]
fn find_last(run: &mut WatchedRun, goal: &Goal, to: u32) -> Result<Option<Found>, HostFault>
    requires before { run.old.replay.taken ≤ to }
    ensures same { OnOk result (IsSameRun run.old.replay run.new.replay) }
    ensures reached { OnOk result ((run.new.replay.taken == to || is_at_end run.new.replay) ≡ true) }
    ensures within { OnOk result (run.new.replay.taken ≤ to) }
    ensures finds { IfOk result (λ found. Finds (orders_of goal.now run.old) run.old.replay run.new.replay found) }
    ensures orders { OnOk result (orders_of goal.now run.new ≡ orders_of goal.now run.old) }
{
    let _ = run.changed();
    let mut found = None;
    while run.replay.taken() < to {
        if run.replay.is_at_end() {
            return Ok(found);
        }
        run.replay.runs();
        let number = run.replay.taken();
        let stop = retreat(run, goal)?;
        found = latest(found, number, stop);
    }
    Ok(found)
}

// The stop after so many events, if there is one, and else the one that was found before.
fn latest(found: Option<Found>, number: u32, stop: Option<Stopped>) -> Option<Found>
    ensures latest { result ≡ windows.latest found number stop }
{
    match stop {
        Some(stopped) => Some(Found { number, stopped }),
        None => found,
    }
}

// Takes an event, and answers whether the run, on its way back, would have stopped ahead of it.
fn retreat(run: &mut WatchedRun, goal: &Goal) -> Result<Option<Stopped>, HostFault>
    requires goes_on { is_at_end run.old.replay ≡ false }
    requires seen { HaveSeen run.old.replay.state.memory run.old.points.watches.items }
    ensures same { OnOk result (IsSameRun run.old.replay run.new.replay) }
    ensures retreats { IfOk result (λ found. Retreats (orders_of goal.now run.old) run.old.replay run.new.replay found) }
    ensures further { OnOk result (run.new.replay.taken ≡ run.old.replay.taken + 1) }
    ensures seen { OnOk result (HaveSeen run.new.replay.state.memory run.new.points.watches.items) }
    ensures orders { OnOk result (orders_of goal.now run.new ≡ orders_of goal.now run.old) }
{
    let who = actor(&run.replay);
    let ahead = stop_ahead(run, goal, &who);
    let process = changer(run, goal, &who);
    run.take_quietly()?;
    Ok(over(run, process, ahead))
}

// The stop ahead of what this process does next, if the run, on its way back, stops there.
fn stop_ahead(run: &WatchedRun, goal: &Goal, who: &Option<Pid>) -> Option<Stopped>
    ensures ahead { result ≡ windows.stop_ahead (orders_of goal.now run.now) run.now.replay.state who.now }
{
    match *who {
        Some(p) => {
            if goal.is_met(p) || (goal.has_points(p) && run.is_at_point(p)) {
                Some(here(p))
            } else {
                None
            }
        }
        None => None,
    }
}

// The stop of this process ahead of an event that was taken, if bytes that are watched changed in it; else the one that there is without.
fn over(run: &mut WatchedRun, process: Pid, ahead: Option<Stopped>) -> Option<Stopped>
    ensures stays { run.new.replay ≡ run.old.replay }
    ensures stop { (memory : List ℕ) → HaveSeen memory run.old.points.watches.items → result ≡ windows.stop_over (first_changed memory run.old.replay.state.memory (areas_of run.old.points.watches.items)) process ahead }
    ensures seen { HaveSeen run.new.replay.state.memory run.new.points.watches.items }
    ensures areas { areas_of run.new.points.watches.items ≡ areas_of run.old.points.watches.items }
    ensures addresses { run.new.points.addresses ≡ run.old.points.addresses }
    ensures told { run.new.told ≡ run.old.told }
{
    match run.changed() {
        Some(at) => Some(changed_at(at, process)),
        None => ahead,
    }
}
