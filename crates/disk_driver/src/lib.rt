//! The raw disk's driver: its blocks, and the requests that wait for it, which are served in their order (book, chapter 18).
//!
//! A clause sees a [`Disk`] as the abstract machine's raw disk (`RawDisk` in `xinu_model/specs/RawDisk/Requests`): the blocks of 512 bytes,
//! and the requests in the order in which they were made. Making a request, serving the first and giving up those of a dead process are
//! steps of that definition.
//!
//! The law [`zero_bytes_are_empty_blocks`] says what a disk has on which nothing was written.
//!
//! The blocks are one run of bytes, which the image brings along, and the requests are part of the value: no call but `clone` takes memory. Who
//! waits for the disk, and where the bytes go, is the business of the crates above. The crate depends on `xinu_model`, on
//! `lfs_layout`, which has the image, and on `table_laws` for lemmas on lists; the list of requests is the kit's `arrayvec`.
#![tactic(auto)]

mod disk;
mod laws;
mod requests;
mod store;

pub use disk::Disk;
pub use laws::zero_bytes_are_empty_blocks;
pub use requests::{Done, Request};
