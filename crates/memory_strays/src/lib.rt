//! Memory that a program changes though it seldom means to, without a trap: the first step of each kind in a run.
//!
//! [`Strays::note`] is told of each state of a run, ahead of its next event. There are five kinds: [`Strays::below`], [`Strays::stack`],
//! [`Strays::code`], [`Strays::free`] and [`Strays::null`].
//!
//! A clause sees [`Strays`] as what was noted (`Noted` in `specs/Strays.antt`). What is noted of a run is `noted`, by the files of its
//! images and the states ahead of its events. Whether an image lies near null is read off the files (`lie_near_null` in
//! `specs/NearNull.antt`).
#![tactic(auto)]

mod looks;
mod near_null;
mod strays;

pub use strays::{Stray, Strays};
