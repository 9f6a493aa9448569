//! A detector of the data races of a run, which is told what the run does, call by call: the edges that come to processes, the accesses, and
//! the bytes that get a new owner. It tells the last accesses of a byte that conflict with the next one, and that nothing orders before it.
//!
//! The module [`moments`] says that a detector whose calls come in the order of a moment detects the history with that moment, and that then
//! all that the history tells (`IsTold` of `happens_before`) is told, and nothing else. [`laws`] and [`finding`] say the same of what is known
//! and told as an access is made.
#![tactic(auto)]

mod act;
mod detector;
pub mod finding;
mod known;
pub mod laws;
pub mod moments;
mod pair;
mod telling;

pub use act::Act;
pub use detector::Detector;
pub use known::Known;
pub use pair::Pair;
pub use telling::tell;
