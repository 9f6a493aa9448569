//! The reference machine's tables: processes, messages, the ready list, semaphores and the sleepers, as plain lists.
//!
//! The reference machine is the abstract machine of `xinu_model` once more, as code to be read beside the definitions: the same names in
//! the same order, each function a few lines, and its contract says that it is the definition's function. Nothing is kept true of it, and
//! nothing is done cleverly: the ready list is a list, a process leaves all lists by being filtered out of them, and whoever sleeps is
//! kept with the tick at which it wakes.
//!
//! A clause sees `Tables` as the record `Tables` of `specs/Tables.antt` in `xinu_model`, so each promise is one equation. An entry that
//! isn't there reads as the definition's fixed value, and writing it does nothing. Out of memory is the only refusal (`NoMemory`), and it
//! comes only from a list that grows. What counts upwards has a condition: `few` of a tick, that the ticks so far don't fill their word.
#![tactic(auto)]

mod clock;
mod lists;
mod scheduling;
mod searches;
mod semaphores;
mod tables;

pub use lists::{
    append, copied, get_or, join_ready, join_sleepers, leave, leave_ready, leave_sleepers, push,
    set,
};
pub use scheduling::in_state;
pub use semaphores::Semaphore;
pub use tables::{Place, Tables, no_process};
