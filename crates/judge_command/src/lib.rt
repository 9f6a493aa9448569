//! The command `judge`: the data races of a run are told.
//!
//! The arguments are those of `run` without what concerns its output, and two of the judgement: `--atomic NAME,..`, the variables that are left
//! out, and `--pairs`, each pair of places is told. The files are fetched and judged by the same call (`run_inputs`). So what `run` refuses is
//! refused with the same status and text, and another line says it in words.
//!
//! Else the run is taken through its events, with one clock for each process and the last load and store of each process for each byte that is
//! touched (`race_events`): what is told in the end is each pair of accesses of a byte by two processes, one of them a store, of which nothing of
//! the kernel orders the first before the second, the first being the last of its process that conflicts. Of the pairs a report is made for each owner of
//! bytes, in the order in which they are first told: a variable, a stack, a buffer of a pool, a block of the heap, or else a word of RAM.
//!
//! [`judge`] is the call, and what its contract says is defined in `specs/Theorem`.
//!
//! The text that is sent tells of the run of the inputs, through the schedule to its end: its last line has the number of reports and that of the run's
//! events, and nothing is before it if there is no report (`IsJudgement` in `specs/Judging.antt`). What the reports say has no clause. Running
//! out of memory is free.
#![tactic(auto)]

mod blocks;
mod calls;
mod command;
mod history;
mod judging;
mod lives;
mod owners;
mod recent;
mod reports;
mod telling;
mod words;

pub use command::judge;
