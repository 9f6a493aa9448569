//! The command `explain`: a run is told in plain English.
//!
//! [`explain`] is the call, and `Answers` in `specs/Theorem.antt` says what it promises. The arguments are those of `run` without what
//! concerns its output, and `--refused`, each refused call in place of each kind once, `--steps A..B`, the events that are listed, or
//! `--trace FILE`, a text that is compared in place of the story, or `--at N`, after how many events the state is told in place of it. What
//! `run` refuses is refused with the same status and text, and another line says it in words. Else the run is taken through its events, and
//! the text says how it ended, which traps there were and where, which processes are left and what they wait for, and what the console
//! showed.
//!
//! With `--trace` the status is 0 if and only if the text is the transcript of a run of the inputs, and 10 if and only if it goes wrong;
//! then exactly the line of the mistake was sent, as `trace_report` defines it. Without it the text tells the run of the inputs: after the
//! list of events, which is empty unless one is asked for, its line has the end, the number of events and the tick of the run through the
//! schedule (`HasEnded` and `HasParts`), and of the last state exactly the processes that are left are told, in order, each by its name and
//! the word of its state, what it does and waits for, and where it is (`AreTold` of `told_left`). It says that nobody can go on if and only
//! if the state is one that stays so (`stuck` of `is_stuck`). The host's failures are status 3, and running out of memory, status 7, is
//! free.
//!
//! The run is a `Replay`. What is shown of an event was seen in the state ahead of it, and what it changed is what the state after it has
//! otherwise: `shown` of `happen` in `happenings.rt` says so, and traps and the list are told from what it answers. `line` of
//! `register_line`, `place_line` and `call_line` is of their texts, and `tables` in `running.rt` of the tables from which the story is
//! told.
#![tactic(auto)]

mod callers;
mod changes;
mod command;
mod ends;
mod going;
mod happenings;
mod left;
mod listing;
mod places;
mod reasons;
mod refusals;
mod running;
mod sights;
mod states;
mod steps;
mod straying;
mod stuck;
mod telling;
mod traces;
mod traps;
mod unsent;
mod words;

pub use command::explain;
