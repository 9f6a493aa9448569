//! Faults of assembler in words: which word of the line that has one it is, and what it would have to be.
//!
//! [`cause_of`] answers why a text has a fault, and [`tell_fault`] the line that says it. Both are definitions over the bytes of the text:
//! `cause_of_fault` in `specs/Reasons.antt`, and `told` in `specs/Texts.antt`. Running out of memory is free.
#![tactic(auto)]

mod answers;
mod causes;
mod kinds;
mod lines;
mod slots;
mod statements;
mod texts;

pub use causes::Cause;
pub use lines::cause_of;
pub use texts::tell_fault;
