//! Where a text that isn't a transcript goes wrong: the first line that no run prints there.
//!
//! A text is read along a run of the reference machine, event by event, as `reference_check` reads it: what events leave open, how many calls
//! on files take effect, the text itself tells. The run ends its reading at the first of its lines that isn't the next one of the text.
//!
//! [`find_mistake`] is the call. Where a text goes wrong is defined in `specs/Places`, and when a run prints the line that is due there in
//! `specs/Moments`. [`laws`] has what is proved of that place for every text.
#![tactic(auto)]

mod finding;
pub mod laws;
mod mistakes;
mod reading;
mod walk;

pub use finding::find_mistake;
pub use mistakes::{Mistake, Moment, When};
pub use reference_check::NoStart;
