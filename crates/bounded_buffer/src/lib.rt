//! A bounded buffer, proved for every schedule.
//!
//! A producer and a consumer pass items through a buffer of two slots in RAM, with two semaphores: `room` counts the slots that are free, and
//! `items` those that are full. Nothing of it runs: each law is the contract of a function that does nothing, proved for all disks and schedules.
//! The programs stand in `specs/Buffer`, with what is known at each word, as texts in `specs/Sources`, and the statement in `specs/Statement`.
//!
//! [`laws`] has what is proved.
#![tactic(auto)]

pub mod laws;
