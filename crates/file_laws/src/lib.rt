//! Laws of a disk of version 2 that is read and written block by block.
//!
//! They are about all disks: no function of this crate has code. It depends on `lfs_format`, `lfs_check` and `lfs_layout`, which say what a disk's
//! fields are, how files lie on it and what its files are, and on `xinu_model`, which says what calls on files do. *The middle* of a call
//! (`specs/Middle`) is a disk on which data blocks and index blocks are written and the directory isn't yet: each step of a call leads from one
//! middle to another, and the two writes of the directory lead from a middle to a clean disk. `specs/Holds` says what a disk has of the files at
//! rest at each of these moments.
#![tactic(auto)]

mod bytes;
mod calls;
mod changes;
mod directory;
mod naming;
mod prefix;
mod puts;
mod rest;

pub use bytes::{bytes_are_put, bytes_are_read};
pub use calls::{
    files_are_emptied_and_deleted, putc_puts_its_byte, reads_give_bytes, writes_put_bytes,
};
pub use changes::{
    a_change_begins, a_data_block_is_added, a_file_is_cut, an_index_block_is_added,
    blocks_are_freed, blocks_are_put, blocks_are_taken,
};
pub use directory::{
    a_changed_file_is_kept, a_file_is_created, a_file_is_removed, right_is_clean,
    the_directory_is_written,
};
pub use naming::{a_name_has_its_file, names_are_texts};
pub use prefix::{a_full_disk_has_no_room, the_longest_prefix_is_put};
pub use puts::{
    a_cut_file_is_freed, a_file_is_read, bytes_are_appended, bytes_are_patched,
    free_blocks_are_read,
};
pub use rest::{files_are_held_between_calls, files_at_rest_are_held};
