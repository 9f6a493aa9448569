//! A line of a transcript as its bytes.
//!
//! [`render`] is the call. The words for states, causes of traps, modes and ends are those of the types themselves (`xinu_base`). The crate
//! depends on `host_port`, which has the buffer of a line, and takes no memory.
#![tactic(auto)]

mod lines;

pub use lines::render;
