//! The calls on files under way, over the disk that the file engine works on (book, chapter 19).
//!
//! A clause sees a [`FileServer`] as the abstract machine's file work (`FileWork` in `xinu_model/specs/Files/Work`: the files, the calls in
//! the order in which they were made, the turns of the first and the bytes of its write) and the bytes of the disk. Each call is the step
//! of that definition.
//!
//! Three layers stand below: `settled` remembers which blocks a call writes, and copies them as it takes effect; `file_disk` has the engine,
//! the disk, and the disk as it was when the call in hand began, and knows one call at a time; `starting` begins the first of the calls, and
//! each after it, until one waits for a block. The files of a clause are those of the disk as it was when the call in hand began, so a call
//! takes effect as its reply comes. The crate depends on `local_files`, the engine, on `given_disks`, which says what a disk has of the
//! files, on `rv_hart` for RAM, and on `part_laws` for lemmas.
#![tactic(auto)]

mod file_disk;
mod requests;
mod server;
mod settled;
mod starting;

pub use requests::{FileNote, FileNotes, FileRequest};
pub use server::FileServer;
