//! The command `listing`: what each line of a source puts where, and the fault of a source in words.
//!
//! The argument is the name of a source in assembler. A source that `asm` refuses is refused with the same status and text, and another line
//! says which word of the line is at fault.
//!
//! [`listing`] is the call, and [`answer`] the part of it that needs no file. `specs/Answers.antt` says what a source deserves.
//!
//! The host's failures are status 3, and come only if its count of faults rose. Running out of memory, status 7, is free.
#![tactic(auto)]

mod command;

pub use command::{answer, listing};
