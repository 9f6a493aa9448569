//! The disks that a machine is given: what their bytes are for the abstract machine, and that they are sound for it.
//!
//! No function of this crate has code: [`given_disks_are_sound`] and [`clean_disks_hold_their_files`] are laws. It depends on `lfs_layout`,
//! whose `blocks_of` cuts a raw disk into blocks, on `file_laws`, whose `stored_files` are the files of a clean disk by their names, and on
//! `part_laws`, which says on which disks the machine starts in a sound state. `specs/Disks` has the disks of a machine by their bytes, and
//! `specs/HeldFiles` says what a disk has of the files of a state.
#![tactic(auto)]

mod laws;

pub use laws::{clean_disks_hold_their_files, given_disks_are_sound};
