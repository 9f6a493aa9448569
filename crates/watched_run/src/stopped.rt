//! A stop, and the process that it is told of: which one a moment of a run calls for.

ghost use Rattle.std.specs.Prelude.{◌≡◌, Some};
ghost use Rattle.gdb_answers.specs.declared.stops.Stop.TheVariants as kind;
ghost use Rattle.watched_run.specs.Moves as moves;
ghost use Rattle.watched_run.specs.Moves.{orders_of};
ghost use Rattle.watched_run.specs.Stops as stops;

use crate::goals::Goal;
use crate::looking::shown;
use crate::watched::WatchedRun;
use gdb_answers::Stop;
use xinu_base::{Cause, Pid};

/// A stop, and the process that it is told of.
#[derive(Clone, Copy)]
pub struct Stopped {
    pub stop: Stop,
    pub process: Pid,
}

/// A stop at which the run was to stop.
pub(crate) fn here(p: Pid) -> Stopped
    ensures here { result ≡ record { stop = kind.Here; process = p } }
{
    Stopped {
        stop: Stop::Here,
        process: p,
    }
}

/// A stop at a change of bytes.
pub(crate) fn changed_at(at: u32, p: Pid) -> Stopped
    ensures changed { result ≡ record { stop = kind.Changed at; process = p } }
{
    Stopped {
        stop: Stop::Changed(at),
        process: p,
    }
}

/// A stop ahead of an instruction that is trapped.
pub(crate) fn trapped(cause: Cause, p: Pid) -> Stopped
    ensures trapped { result ≡ record { stop = kind.Trapped cause; process = p } }
{
    Stopped {
        stop: Stop::Trapped(cause),
        process: p,
    }
}

/// The process that a point stops ahead of its instruction, if one does.
pub(crate) fn stopped_ahead(run: &WatchedRun, goal: &Goal, who: &Option<Pid>) -> Option<Pid>
    ensures ahead { result ≡ moves.stopped_ahead (orders_of goal.now run.now) run.now.replay.state who.now }
{
    match *who {
        Some(p) => {
            if goal.has_points(p) && run.is_at_point(p) {
                Some(p)
            } else {
                None
            }
        }
        None => None,
    }
}

/// The stop at a trap that an instruction after so many others printed, if it is told.
pub(crate) fn stop_at_trap(
    run: &WatchedRun,
    goal: &Goal,
    number: u32,
    trap: Option<Cause>,
    who: &Option<Pid>,
) -> Option<Stopped>
    ensures stop { result ≡ moves.stop_at_trap (orders_of goal.now run.now) number trap who.now }
{
    match trap {
        Some(cause) => told_trap(run, goal, number, cause, who),
        None => None,
    }
}

// The same of a trap for this cause.
fn told_trap(
    run: &WatchedRun,
    goal: &Goal,
    number: u32,
    cause: Cause,
    who: &Option<Pid>,
) -> Option<Stopped>
    ensures stop { result ≡ moves.stop_at_trap (orders_of goal.now run.now) number (Some cause) who.now }
{
    match *who {
        Some(p) => {
            if goal.tells(p) && !run.was_told(number) {
                Some(trapped(cause, p))
            } else {
                None
            }
        }
        None => None,
    }
}

/// The stop after an event in which the first bytes that are watched changed, if any did.
pub(crate) fn stop_by(
    run: &WatchedRun,
    goal: &Goal,
    who: &Option<Pid>,
    changed: Option<u32>,
) -> Option<Stopped>
    ensures stop { result ≡ moves.stop_by (orders_of goal.now run.now) run.now.replay.state who.now changed }
{
    match changed {
        Some(at) => Some(changed_at(at, changer(run, goal, who))),
        None => stop_at_goal(run, goal, who),
    }
}

/// The process that a change is told of.
pub(crate) fn changer(run: &WatchedRun, goal: &Goal, who: &Option<Pid>) -> Pid
    ensures changer { result ≡ stops.changer goal.now run.now.replay.state who.now }
{
    match *who {
        Some(p) => goal.teller(p),
        None => goal.teller(shown(&run.replay)),
    }
}

// The stop after an instruction that reaches the goal, if it does.
fn stop_at_goal(run: &WatchedRun, goal: &Goal, who: &Option<Pid>) -> Option<Stopped>
    ensures stop { result ≡ moves.stop_at_goal (orders_of goal.now run.now) run.now.replay.state who.now }
{
    match *who {
        Some(p) => {
            if is_reached(run, goal, p) {
                Some(here(p))
            } else {
                None
            }
        }
        None => None,
    }
}

// Whether an instruction that this process made reaches the goal.
fn is_reached(run: &WatchedRun, goal: &Goal, p: Pid) -> bool
    ensures reached { result ≡ stops.is_reached (orders_of goal.now run.now) run.now.replay.state (Some p) }
{
    if goal.is_alone() {
        goal.tells(p) && (run.is_at_point(p) || !run.is_left(p))
    } else {
        goal.is_met(p)
    }
}
