//! What each call and event keeps: the laws of the abstract machine. The definitions are those of `xinu_model`; what a single move keeps of
//! the tables is in `table_laws`, what holds of each part of the state by itself in `part_laws`, and what events answer and give in
//! `event_laws`.
//!
//! Nothing of it runs: each law is the contract of a function that does nothing, proved for all images, states and lists of events.
//!
//! `proofs/` has a folder a subject. *Touches* is what a call leaves alone by its footprint, *preserve* what holds and goes on holding;
//! `docs/CONTRIBUTING.md` says how a call is added.
#![tactic(auto)]

pub mod footprints;
pub mod moments;
pub mod outcomes;
pub mod soundness;
pub mod steps;
