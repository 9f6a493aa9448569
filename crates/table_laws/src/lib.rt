//! What each move keeps of the tables: of processes, the ready list, waiters, sleepers and semaphores. The definitions are those of `xinu_model`.
//!
//! Nothing of it runs: a law is the contract of a function that does nothing. The kernel's lower layers cite the lemmas of `proofs/`, which
//! name no call: *tables* is what holds inside an event and is kept by each move, *frame* what a move leaves alone, *preserve* what a call and
//! its place of waiting have in common, *buffers* how many buffers of a pool are held.
#![tactic(auto)]

pub mod moves;
