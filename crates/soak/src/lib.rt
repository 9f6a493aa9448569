//! A soak test: the workload of a number is run on a machine, and its transcript is counted as it comes.
//!
//! [`soak`] is the call. What a run prints is counted event by event, and no transcript is kept (`specs/Soaks.antt`). The crate depends on
//! `workload`, which says what is run, and on `machine`, which runs it.
#![tactic(auto)]

mod events;
pub mod laws;
mod soak_test;

pub use soak_test::{Soaked, soak};
