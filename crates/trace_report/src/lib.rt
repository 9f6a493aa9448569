//! What is told of a text that should be the transcript of a run: `yes`, or the line where it goes wrong.
//!
//! What goes wrong where is found by `trace_places`. The text that tells it is a definition, `report` in `specs/Reports.antt`: the number of the
//! line, what the text has there, the line that a run prints instead, and in which event it does.
//!
//! [`report`] is the call, and [`event_name`] names an event. Running out of memory is free.
#![tactic(auto)]

mod events;
mod quotes;
mod reports;

pub use events::event_name;
pub use reports::report;
