//! The scheduling policy of the book as laws of the abstract machine: who runs, when a sleeper wakes, in which order waiters go on, and how
//! many a semaphore lets in.
//!
//! Nothing of it runs: each law is the contract of a function that does nothing, proved for all images, states and lists of events.
//!
//! A predicate on tables that is closed under the moves of calls is kept by each event: `proofs/Moves` says which moves there are, and
//! `Passes` has the one pass over the calls and the events that all laws share.
#![tactic(auto)]

pub mod policy;
pub mod round_robin;
pub mod semaphores;
pub mod sleepers;
pub mod stuck;
