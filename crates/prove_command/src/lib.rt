//! The command `prove`: whether a program keeps the rule of a lock on every schedule.
//!
//! The arguments are `--lock N`, a semaphore, `--word A`, the address of the word that it guards, `--rule R`, what the word is by how often
//! the lock was given back, as `rounds`, `3 * rounds` or `100 - rounds`, and one to eight images. A walk through the programs finds what is
//! known at each place, and `program_logic` judges it; the words are those of RAM, into which the images were loaded. So nothing of it is
//! assumed.
//!
//! [`prove`] is the command, and what it promises is defined in `specs/Theorem.antt`. [`prove_images`] answers of images that are loaded;
//! what is then proved of them is `IsProved` in `specs/Proved.antt`. What the arguments ask is a definition (`asked` of `proof_words`), and
//! so is how the text of each status begins, with status 0 its first line (`head_of` in `specs/FirstLine.antt`). `NoMemory` is free.
//!
//! An answer other than `Proved` doesn't say that a program is wrong.
#![tactic(auto)]

mod causes;
mod command;
mod fetching;
mod first_line;
mod judging;
mod proving;
mod sending;
mod steps;
mod telling;
mod walk;

pub use causes::{Cause, Fault};
pub use command::prove;
pub use proving::{Answer, prove_images};
