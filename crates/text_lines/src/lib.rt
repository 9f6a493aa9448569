//! The lines of a text, and the tokens of a line.
//!
//! Texts that people write for the program (schedules, assembler) are read line by line. A line ends with a line feed, which the last
//! one may lack, and a carriage return before the line feed isn't part of it. The lines of a text and the tokens of a line are defined
//! in `specs/Lines.antt`.
//!
//! [`first_line`] and [`first_token`] are the calls. Each goes over the bytes that it takes off and no others, so a text is read in time in
//! proportion to its length, and takes no memory. The crate depends on no other.
#![tactic(auto)]

mod lines;

pub use lines::{first_line, first_token};
