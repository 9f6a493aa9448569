//! The reference machine's beginning, and what can be seen of its state: its disks, its start, and its tables as lines of a transcript.
//!
//! Boot of the abstract machine once more, as code to be read beside `specs/Boot.antt` in `xinu_model`: [`boot::boot_on`] answers the state
//! in which the machine starts, or why it doesn't, and both are the definition's. Where the images lie in RAM is told by `image_loader`, as
//! for the kernel.
//!
//! [`raw_disk_of`] cuts a raw image into its blocks, and [`file_system_of`] reads the files of a clean image by their names, in the order of
//! the names. Both give plain data of `reference_state`: what the definitions say of the images, and nothing else. They depend on
//! `lfs_layout` for images, and on `file_laws`, whose `stored_files` are the files of a clean image.
//!
//! [`tables_of`] makes the lines of the tables as the definition of that name in `specs/Text.antt` does.
//!
//! No kernel code takes part, and out of memory is the only refusal by the code.
#![tactic(auto)]

pub mod boot;
mod bytes;
mod dump;
mod file_system;
mod first;
mod machine;
mod raw_disk;

pub use dump::tables_of;
pub use file_system::file_system_of;
pub use raw_disk::raw_disk_of;
