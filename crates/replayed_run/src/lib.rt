//! A run that can be had again: its inputs, and the machine after some of its events, forward and backward.
//!
//! A run is a function of its inputs and of few choices, so its state after any number of events can be had once more: to go back, the
//! machine is booted anew and takes fewer events. What each event prints is kept the first time, and compared when the run goes over it
//! again: so the choices are the same, and it is the same run (`IsSameRun`).
//!
//! A clause sees of a [`Replay`] its inputs, how many events were taken, the state, whether an event ended the run, and what is known of
//! what its events print (`Replayed`). That a run of so many events leads to the state, and printed that, is kept by the type. Each call
//! that goes forward or back leaves the inputs as they are, and unless it is refused it leaves the same run. [`start`], [`take`] and
//! [`tables`] tell of a machine alone what it prints at its start, of an event, and of its tables.
//!
//! The inputs are those of `run_inputs`, which boots them on copies. The crate depends on `machine` for what an event does, and on
//! `schedule_file` for a copy of the schedule. A clause sees a [`Printed`] as its bytes.
#![tactic(auto)]

mod events;
pub mod laws;
mod printed;
mod replay;
mod texts;

pub use events::{Taken, start, tables, take};
pub use machine::BootFault;
pub use printed::Printed;
pub use replay::Replay;
pub use texts::ReplayFault;
