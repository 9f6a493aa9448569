//! The command `timeline`: the picture of a run is drawn.
//!
//! The arguments are those of `run` without what concerns its output, and three of the picture: `--from N`, `--events M` and `--title TEXT`.
//! The files are fetched and judged by the same call (`run_inputs`). So what `run` refuses is refused with the same status and text. Else
//! the machine is booted, and takes the same events by the same calls; what it prints of each goes into the picture (`run_picture`).
//!
//! [`timeline`] is the call.
#![tactic(auto)]

mod command;
mod drawing;
mod parts;
mod words;

pub use command::timeline;
