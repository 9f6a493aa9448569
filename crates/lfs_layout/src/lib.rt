//! A disk with files as a value: raw images, clean images, and what is done with them.
//!
//! It depends on `lfs_format`, which has the fields, and on `lfs_check`, which has the rules, the walks and the laws of how
//! files lie; their public calls are here too. A [`RawImage`] is a disk without files of a size that is allowed; a [`CleanImage`]
//! keeps true that its bytes have version 2 and break no rule, and [`repair`] makes one of the files that can be kept of a broken one.
//! Every image that is written is made by one builder (`specs/Made`): each file in its order takes the lowest free blocks, and the
//! rest is chained upwards.
#![tactic(auto)]

mod builder;
mod clean_image;
mod data_blocks;
mod directory;
mod files;
mod index_blocks;
mod laws;
mod listing;
mod mend;
mod raw_image;
mod reading;

pub use clean_image::{CleanImage, is_file_name};
pub use laws::{
    files_are_reported, long_files_have_no_room, made_images_hold_their_files,
    repair_keeps_a_clean_image, repaired_images_hold_the_kept_files,
};
pub use lfs_check::{CheckFault, DiskFault, Report, check};
pub use lfs_format::{
    Dir, Dir1, Entry, Entry1, Index, NULL, read_dir, read_dir_1, read_index, write_dir, write_index,
};
pub use mend::{Repaired, repair};
pub use raw_image::RawImage;
