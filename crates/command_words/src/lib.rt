//! The words of the commands that say what is wrong with them: `explain`, `timeline`, `races`, `judge` and `gdb`.
//!
//! Each command has a table of its options (`specs/Tools.antt`), which says of an option its name, what its value has to be, if it takes one, and when
//! it is to be given. Words are read from the left by the table, as those of `run` are (`reading` of `command_line`); then what was taken is judged by it.
//!
//! [`words_of`] is the call, and `words_of` in `specs/Words.antt` its definition. It answers a [`Taken`], which is asked for the values of
//! the options. Running out of memory is free.
//!
//! `clap` doesn't read these words, since no clause of it says which word an error is about.
#![tactic(auto)]

mod forms;
mod reader;
mod taken;
mod tools;
mod value_kinds;
mod words;
mod words_fault;

pub use taken::{Given, Taken};
pub use tools::{Need, Tool, ValueRow};
pub use value_kinds::Kind;
pub use words::words_of;
pub use words_fault::{ReadingFault, WordsFault};
