//! Data races of a history of events, and a detector that tells each of them by clocks (vector clocks). No kernel is named: a history says
//! of each event who steps, which bytes are touched and given, and which edges order it.
//!
//! A detector keeps for each process a *clock*: of every other process, up to which event what it did comes before. It keeps for each byte
//! the last load and the last store of each process since the byte got its owner.
//!
//! Nothing of it runs: each law is the contract of a function that does nothing, proved for all histories.
//!
//! `specs/Histories.antt` says what a history is, `Order` what happens before, `Races` what a race is; `Clocks` and `Told` are the
//! detector.
#![tactic(auto)]

pub mod examples;
pub mod going;
pub mod order;
pub mod races;
