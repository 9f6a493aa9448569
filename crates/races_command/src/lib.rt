//! The command `races`: which outcomes a program has on all placements of quantum ends in a schedule.
//!
//! The arguments are those of `run` without what concerns its output, with `--preemptions P` before them, at most how many quantum ends are
//! put in, `--within N`, the steps of the schedule within which they are, `--from M`, the steps after which they begin, `--found FILE`, the
//! file for a schedule with the second outcome, and `--outcome K`, that with another one.
//!
//! [`races`] is the command (`Answers` in `specs/Theorem.antt`): its table says *every run* only if nothing was chosen in the runs.
//! [`Progress`] is told how many placements there are and of each that was gone through; [`Silent`] says nothing.
//!
//! What the arguments ask is a definition (`asked_in` in `specs/Words.antt`, of what was taken by the table of `command_words`), and so is
//! the table as it is printed (`table_text` in `specs/Printed.antt`). `NoMemory` is free.
#![tactic(auto)]

mod bases;
mod command;
mod console;
mod faults;
pub mod laws;
mod reports;
mod showing;
mod stuck;
mod texts;
mod words;

pub use bases::{Limits, events_of, judge};
pub use command::races;
pub use faults::Fault;
pub use race_runs::{Progress, Silent};
pub use reports::schedule_of;
pub use stuck::is_stuck;
