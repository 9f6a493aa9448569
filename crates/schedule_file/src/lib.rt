//! The reader of schedule files.
//!
//! A schedule says which events happen to the machine, in which order. It is a text of lines, each of which asks for some events;
//! the events of the file are those of its lines, one after another. [`Schedule::read`] reads a text or names its first fault,
//! and [`Schedule::next_event`] gives the events one by one. `specs/LineKinds.antt` is the table of the lines, and
//! `specs/ScheduleFiles.antt` says what a text reads as (`reading`).
//!
//! A [`Schedule`] is seen as the list of the events still to come. A schedule may have 1000000000 events, so repeats are kept of it and no
//! single events: one for each line, and one for each typed character. The reader depends on `xinu_base`, `text_lines` and `arrayvec`
//! alone.
#![tactic(auto)]

mod faults;
mod kinds;
mod line_events;
mod numbers;
mod repeats;
mod schedules;

pub use faults::ScheduleFault;
pub use schedules::Schedule;
pub use xinu_base::Event;
