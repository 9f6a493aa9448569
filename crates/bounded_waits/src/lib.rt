//! Bounded waiting for disks: after how many completions a call on files has taken effect, and a request of the raw disk has been answered.
//!
//! Nothing of it runs: each law is the contract of a function that does nothing, proved for all images, states and lists of events.
#![tactic(auto)]

pub mod files;
pub mod raw_disk;
pub mod replies;
