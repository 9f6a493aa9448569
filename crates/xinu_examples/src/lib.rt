//! Worked examples of the abstract machine; nothing waits for them. The definitions are those of `xinu_model`.
//!
//! Nothing of it runs: an example is a clause of a function that does nothing, computed by the prover.
#![tactic(auto)]

pub mod devices;
pub mod systems;
