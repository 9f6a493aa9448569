//! What comes of calls and events: what their callers answer, who gets memory, and what an event adds to the clock and to the numbers of ports.
//! That they keep the state sound is in `xinu_laws`.
//!
//! Nothing of it runs: each law is the contract of a function that does nothing. Of the kernel only the whole machine needs these.
#![tactic(auto)]

pub mod console;
pub mod counters;
pub mod images;
pub mod memory;
pub mod owners;
pub mod replies;
