//! What each process does in a run, and since when: which state it is in, since which event and tick, and whether it ever ran.
//!
//! A clause sees [`Lives`] as the list of the processes' lives by their numbers. That of a process after some events is `life_of` in
//! `specs/Lives.antt`, by the states ahead of these events.
#![tactic(auto)]

mod lives;

pub use lives::{Life, Lives};
