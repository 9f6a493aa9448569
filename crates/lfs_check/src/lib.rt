//! The checker of a disk with files: which rule an image breaks and where, or what is on it.
//!
//! It depends on `lfs_format`, which reads the fields. An image of version 1 or 2 is given by its *fields* (`specs/Fields`):
//! the directory's counts and entries, the index blocks and the first word of each block. A *geometry* says where they are,
//! so that the rules, the walks of chains and *how files lie* (`specs/Laid`) are said once for both versions. The laws
//! in `laws.rt` say that an image breaks no rule exactly if files lie on it, each block with one owner. [`check`] judges an image.
#![tactic(auto)]

mod chain_rules;
mod checker;
mod faults;
mod fields;
mod geometry;
mod laws;
mod meets;
mod parts;
mod repair;
mod rules;
mod survey;
mod walks;

pub use chain_rules::{data_needed, indexes_needed};
pub use checker::check;
pub use faults::{CheckFault, DiskFault, Report};
pub use fields::{
    Directory, Header, block_at, dirs_of, read_directory, read_indexes, read_links, read_nexts,
};
pub use geometry::{Geometry, block_of_entry, block_of_index, data_from, indexes_on};
pub use laws::{
    built_is_clean, clean_image_keeps_all, clean_image_lies, clean_is_laid, empty_is_clean,
    kept_are_apart, migration_fits, places_are_read,
};
pub use parts::Fields;
pub use repair::kept_entries;
pub use rules::{entry_is_used, size_fault, used_count};
pub use survey::file_blocks;
