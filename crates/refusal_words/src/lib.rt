//! Refusals in words: what the commands beside `run` say after the text that they share with it.
//!
//! [`tell`] tells a refusal with a line after it, and [`tell_cause`] with what its cause means (`cause_meaning` in `specs/Meanings.antt`).
//! Running out of memory is free.
#![tactic(auto)]

mod meanings;
mod telling;
mod words_faults;

pub use meanings::meaning;
pub use telling::{tell, tell_cause};
