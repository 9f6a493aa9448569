//! The workload of a soak test: four programs and a schedule that a number gives, and what is counted of their run.
//!
//! All is drawn from one sequence of numbers, which a number begins ([`Draws`]): first the programs 1 to 4, as image files, and then the
//! schedule, as a text. A program makes 64 calls over and over; which calls, and with which arguments, is drawn.
//! `specs/Groups.antt` has the shapes of the calls, `specs/Programs.antt` the programs, `specs/Schedules.antt` the events, and
//! `specs/Summaries.antt` what is counted of the text of a run. A [`Tally`] counts text by text, so none has to be kept.
//!
//! [`program_file`], [`schedule_text`] and [`Tally::summary`] take memory, and `NoMemory` is free. [`laws`] says that the programs boot.
#![tactic(auto)]

mod draws;
mod groups;
pub mod laws;
mod programs;
mod schedules;
mod shapes;
mod tallies;

pub use draws::Draws;
pub use programs::program_file;
pub use schedules::schedule_text;
pub use tallies::Tally;
