//! The writer of schedule files.
//!
//! [`schedule_text`] writes events as the text of a schedule file. Equal events that come one after another and can be counted are one line
//! with their count, as `step 92`; each other event is a line of its own, as `type 0a`. `specs/Written.antt` has the definition.
//!
//! `NoMemory` is free. The crate depends on `xinu_base`, `schedule_file`, whose definition of reading it cites, and `host_port`, whose
//! lines it takes.
#![tactic(auto)]

mod lines;
mod texts;

pub use texts::schedule_text;
