//! A run told in plain English: how it ended, who is left and waits for what, and what the console showed.
//!
//! A [`Story`] is told each event with the lines that the machine printed for it and the tables after it. Its text is written in parts, since
//! its teller knows more of who is left.
//!
//! What calls and replies say of semaphores is kept as `printed_runs` defines it: `knows` of [`Story::new`] and [`Story::event`]. The lines
//! that [`push_ending`] and [`push_state_head`] append are defined in `specs/Endings`. The other calls promise nothing of what is told:
//! each is safe and returns. If memory runs out, the text that is told isn't whole. What is told is tested.
#![tactic(auto)]

mod circles;
mod console;
mod endings;
mod lives;
mod loops;
mod story;
mod traps;
mod usages;

pub use endings::{push_ending, push_state_head};
pub use loops::Loops;
pub use story::Story;
