//! A program logic for the machine: what can be proved of programs for every schedule.
//!
//! A program is a table of places. Each has the word that lies there, what is said of a process that comes there without the token of a lock,
//! and what is said if it has the token: of the registers, of the word of RAM that the lock guards, and of how often the token was given back.
//! That is an *outline*. Of each word by itself it is shown that it leads to places at which what is said of them holds. From this follows,
//! once for all programs, that all of it holds at each moment of each run, whichever process runs when, whatever is typed, and whatever the
//! devices do.
//!
//! [`check`] decides whether an outline is one, if what is said are *terms*: numbers, and numbers of times the count. Where the facts come from
//! doesn't matter, since it is the judge of them.
//!
//! [`laws`] has what is proved of outlines, and of programs that check.
//!
//! `specs/` has the outlines (`Outlines`), what each word owes (`Obeying`) and what holds in a state (`Running`); terms (`Terms`), the outlines
//! that they say (`Claims`), what instructions do (`Acts`), the check (`PlaceCheck`, `SystemCheck`), and what is proved of programs that pass it
//! (`Kept`).
#![tactic(auto)]

mod acts;
mod call_check;
mod checking;
mod knowledge;
pub mod laws;
mod operations;
mod outline;
mod transfer_check;
mod values;
mod word_check;

pub use acts::{Act, Width, act_of};
pub use call_check::only_answers;
pub use checking::check;
pub use knowledge::{Facts, after_call, given, slot_of};
pub use outline::{Lock, Place, Range};
pub use transfer_check::{is_guarded, may_load, may_store};
pub use values::{Slot, Term, are_same, constant, is_constant, is_ticks, number_in, once_more};
