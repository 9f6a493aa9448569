//! Boot: the state in which the images are in RAM and their first processes are ready.
//!
//! [`boot`] is the call. It looks for the first image that overlaps an earlier one, makes RAM and tables, and gives each image a process on
//! a stack of the heap. These become ready, in the order of the definition (`boot_on` of `xinu_model`). The disks are those of two images
//! (`disks_of` of `given_disks`). The crate depends on `kernel_state`, `image_loader`, and the crates whose parts it makes.
#![tactic(auto)]

mod initialize;

pub use initialize::{BootFault, boot};
