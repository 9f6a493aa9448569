//! The arguments of the command `prove`: the lock, the address of the word that it guards, the rule, and the names of images.
//!
//! [`words_of`] is the call. What the arguments ask is a definition (`asked` in `specs/Words.antt`), and so is what the text of a rule says
//! (`rule_in` in `specs/Rules.antt`).
#![tactic(auto)]

mod rule;
mod words;

pub use words::{Words, words_of};
