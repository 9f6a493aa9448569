//! The outcomes of a program's runs, in a table.
//!
//! An [`Outcome`] is what one sees of a run: what the console sent, the traps, the processes that are left and what they wait for, and how the
//! run ended (`specs/Outcomes.antt`). It is taken from what the run printed. A table has a row for each outcome: how many runs had it, and the
//! placement of the quantum ends of the first of them (`specs/Rows.antt`).
//!
//! [`count_run`] counts a run in a table, and [`laws`] says what holds of each table. A clause sees [`Outcome`] and [`Row`] as those of the
//! definitions. Running out of memory is free.
#![tactic(auto)]

pub mod laws;
mod outcomes;
mod rows;

pub use outcomes::Outcome;
pub use rows::{Row, count_run};
