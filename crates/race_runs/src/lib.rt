//! The runs of a program with each placement of quantum ends.
//!
//! A run of a machine through given events has an outcome (`specs/Runs.antt`). [`explore`] goes through all placements, each by a run on
//! copies of the disks, and `specs/Explored.antt` says that its table is that of these runs. A placement changes the front of the events
//! alone: of placements that lead to equal machines the back is run once, if it is long (`specs/Remainders.antt`).
//!
//! Nothing is chosen in a run that makes no call on files: no event prints a line of one, and none is under way between two events. That is
//! looked at while the run is taken (`specs/Forced.antt`), and of a back that several runs share once.
//!
//! `NoMemory` is free. The crate depends on `machine`, which is booted anew for each run, on `preemptions` for the placements, on `race_tables`
//! for the outcomes and their table, and on `xinu_laws` for runs in which nothing is chosen.
#![tactic(auto)]

mod choices;
mod copies;
mod known;
pub mod laws;
mod progress;
mod remainders;
mod runs;
mod search;

pub use machine::BootFault;
pub use progress::{Progress, Silent};
pub use search::explore;
