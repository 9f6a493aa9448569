//! A run as a picture: what each event did to the processes and the devices, laid out in lines and written as an SVG document.
//!
//! A [`Recording`] is told the lines of each event that is drawn and the tables after it, as the machine prints them, and keeps what the
//! picture shows: the processes that lived, the bands of their states, the marks of what they did, and who was released by what.
//! [`Recording::picture`] lays the events out from left to right, in lines as a text has them, and writes the document.
//!
//! No call has a contract: each is safe and returns. What is drawn is tested.
#![tactic(auto)]

mod bands;
mod changes;
mod columns;
mod frame;
mod ink;
mod labels;
mod layout;
mod legend;
mod lines;
mod pictures;
mod recording;
mod rows;
mod strips;
mod style;

pub use recording::{Ending, Recording};
