//! A run that goes on until something stops it, and back: what a debugger asks of a run.
//!
//! The run is a `Replay`, so it is the same run wherever it stands (`IsSameRun` of `replayed_run`), and what it is watched for are addresses
//! of instructions, ahead of which it stops, and bytes of RAM, after a change of which it stops.
//!
//! What stops a run is said in `specs/Stops.antt`: a point ahead of an instruction, a trap that is told, a change of bytes that are watched, a
//! goal that is reached, or the end of the run. [`go_on`] stops with the first event at which there is one.
//!
//! What stops a run on its way back is said in `specs/Backward.antt`: an instruction at a point, one that reaches the goal, and an event in which
//! bytes change that are watched; the run stands ahead of it then. [`go_back`] stops at the last of them, if it is known what the events
//! printed: that of each is compared with what it was before, so it is known unless a call was refused.
#![tactic(auto)]

mod backward;
mod forward;
mod goals;
mod lines;
mod looking;
mod points;
mod stopped;
mod watched;

pub use backward::go_back;
pub use forward::go_on;
pub use goals::{Goal, one_of};
pub use looking::{shown, thread_process};
pub use stopped::Stopped;
pub use watched::WatchedRun;
