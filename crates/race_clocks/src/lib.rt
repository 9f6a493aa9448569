//! The clocks of a detector of data races, for 64 processes: of each process what comes before what it does next, and the clocks of parts
//! that tokens, messages, buffers and dead processes keep.
//!
//! A clause sees [`Clocks`] as rows, which `knows` and `kept` of `specs/Rows.antt` read as clocks of processes and names. The module
//! [`laws`] says that edges are learnt one by one, those to the process that steps first, as a detector learns them.
//!
//! A number is that of an event, at most 4294967295. A kept clock takes 256 bytes.
#![tactic(auto)]

mod clocks;
pub mod laws;

pub use clocks::Clocks;
