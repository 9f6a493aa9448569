//! The data races of a run: its events are told to a detector, with what each does with memory and what it orders. A [`Watcher`] is told
//! ahead of each event and once it was taken.
//!
//! The rules by which an event orders processes are those of `edges_in` of `data_races`, and the ledger is its `Ledger`, with the names of kept
//! clocks in place of parts. That this is so isn't proved yet: the detector alone is (`race_detector`).
#![tactic(auto)]

mod ledger;
mod names;
mod tokens;
mod watcher;

pub use race_detector::Pair;
pub use watcher::Watcher;
