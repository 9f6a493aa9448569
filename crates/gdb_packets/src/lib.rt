//! The packets of gdb's remote protocol: their frames, the commands in them, and hexadecimal texts.
//!
//! A packet is `$`, its bytes, `#` and two digits of their sum (`specs/Frames.antt`). `specs/Units.antt` says what an input begins with,
//! however much of it is at hand; `specs/Commands.antt` is the table of what packets ask for, by the names with which they begin.
//!
//! [`first_unit`] reads an input, [`command_of`] says what a packet asks for, and [`frame`] makes a packet that is sent.
//!
//! Of a packet that isn't whole nothing is lost: the input stays as it is until more of it comes, or until it has too many bytes, and a `$`
//! in the midst of a packet begins another. The crate depends on `xinu_base` for the hexadecimal text of bytes alone.
#![tactic(auto)]

mod actions;
mod commands;
mod digits;
mod framing;
mod hex;
pub mod laws;
mod operands;
mod table;
mod units;

pub use commands::{Command, Object, Point, PointKind, Threads};
pub use framing::frame;
pub use hex::{push_hex, push_word};
pub use table::{command_of, monitor_words};
pub use units::{InputUnit, first_unit, unescaped};
