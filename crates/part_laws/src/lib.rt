//! What holds of each part of the state by itself: of the console, the raw disk, files and open devices, the calls on them, names, and the heap.
//! The definitions are those of `xinu_model`.
//!
//! Nothing of it runs: a law is the contract of a function that does nothing. The crates of the kernel cite the lemmas of `proofs/`, and
//! so do the laws of whole calls and events. `specs/` also has what holds of the whole state inside an event (`Preserve`), and which disks a
//! machine may be given (`GivenDisks`).
#![tactic(auto)]

pub mod console;
pub mod file_work;
pub mod files;
pub mod memory;
pub mod names;
pub mod raw_disk;
