//! The file engine: what a call on files does to a disk of version 2, block by block (book, chapter 19).
//!
//! [`Files`], the engine, knows no disk and no process. Between calls it keeps of each open device the entry of its file, the entry's
//! place, the position and what is allowed, and nothing else of the disk.
//!
//! The contract is one relation, `Stands files base disk` in `specs/Standing`: `base` is the disk as it was when the call in hand began,
//! and the files of the abstract machine are those of `base` until the call is done. How many completions the call in hand has left at
//! most is `left` in `specs/Bounds`. Each number that is read off a disk is tested before it is used. The crate depends on `file_laws`,
//! and on the crates below that.
//!
//! # Notes for callers
//!
//! - `Open` answers the number that the abstract machine has for the device, from 4 to 9, where a [`FileDev`] counts the six from 0: of the
//!   reply 4 it is `FileDev::from_word(0)`.
//! - `completed` takes a block after a write too. It doesn't read that one: the block that was written will do.
//! - The engine has no disk, so its caller keeps the bytes. `block_at` of `lfs_check` gives a block of them.
//!
//! # Example
//!
//! The engine is asked what it wants, and the caller serves it from the bytes of a disk, until the call has its reply.
//!
//!     use lfs_check::block_at;
//!     use local_files::{BlockWork, FileCall, Files};
//!
//!     fn reply(files: &mut Files, disk: &mut [u8], call: FileCall, bytes: &[u8]) -> i32 {
//!         files.begin(call, bytes);
//!         while let Some(work) = files.wants() {
//!             match work {
//!                 BlockWork::Read(n) => files.completed(&block_at(disk, n)),
//!                 BlockWork::Write(n) => {
//!                     let at = 512 * n as usize;
//!                     let block = *files.outgoing();
//!                     disk[at..at + 512].copy_from_slice(&block);
//!                     files.completed(&block);
//!                 }
//!             }
//!         }
//!         files.answer().unwrap_or(-1)
//!     }
#![tactic(auto)]

mod buffer;
mod copies;
mod cutting;
mod ending;
mod engine;
mod growing;
mod laws;
mod looking;
mod names;
mod opening;
mod purposes;
mod reading;
mod search;
mod table;
mod writing;

pub use buffer::Buffer;
use lfs_check::Header;
use lfs_format::{Entry, Index};
pub use names::{file_name, is_call};
use xinu_base::{Below, OpenMode};

/// The number of a file device, from 0 to 5.
pub type FileDev = Below<6>;

/// A file that a device has open: the place of its entry in the directory, the entry, the position, and whether it is read and written.
#[derive(Clone, Copy)]
pub struct OpenFile {
    /// The place of its entry in the directory, from 0 to 77.
    pub slot: u32,
    /// The entry.
    pub entry: Entry,
    /// The position, in bytes.
    pub position: u32,
    /// Whether it may be read.
    pub read: bool,
    /// Whether it may be written.
    pub write: bool,
}

/// A call on files; a name has zeros after it.
#[derive(Clone, Copy)]
pub enum FileCall {
    /// The file of a name is opened, or made.
    Open([u8; 28], OpenMode),
    /// The file of a name is deleted.
    Delete([u8; 28]),
    /// A device is closed.
    Close(FileDev),
    /// So many bytes are read.
    Read(FileDev, u32),
    /// The bytes that are given with the call are written.
    Write(FileDev),
    /// One byte is read.
    Getc(FileDev),
    /// One byte is written.
    Putc(FileDev, u8),
    /// The position becomes another.
    Seek(FileDev, i32),
    /// The file is emptied.
    Truncate(FileDev),
    /// The size of the file is told.
    Size(FileDev),
}

/// Work on a block of the disk.
#[derive(Clone, Copy)]
pub enum BlockWork {
    /// The block of this number is to be read.
    Read(u32),
    /// The block of this number is to be written.
    Write(u32),
}

/// What a block is wanted for.
#[derive(Clone, Copy)]
pub enum Purpose {
    /// A name is looked for in this directory block.
    Search { block: u32 },
    /// This index block of the file that is read leads on, and `rest` more come after it up to that of the position.
    Walk { rest: u32, index: u32 },
    /// This data block of the file is read.
    Fetch { block: u32 },
    /// The first directory block has the counts.
    Counts,
    /// This index block of the file that is written leads on, and `rest` more come after it up to that of the position.
    Reach { rest: u32, index: u32 },
    /// Bytes go into this data block of the file.
    PatchRead { block: u32 },
    PatchWrite { block: u32 },
    /// The file gets this free data block.
    TakeRead { block: u32 },
    TakeWrite { block: u32 },
    /// The last index block gets the number of the data block.
    AddRead { block: u32 },
    AddWrite { block: u32 },
    /// This free index block gets the number of the data block.
    NewRead { block: u32, index: u32 },
    NewWrite { block: u32, index: u32 },
    /// The last index block is followed by this new one.
    LinkRead { block: u32, index: u32 },
    LinkWrite { block: u32, index: u32 },
    /// The index block of a file that is cut is freed.
    CutRead,
    CutWrite,
    /// This data block of the file is freed.
    FreeWrite { block: u32 },
    /// The directory block of the entry gets it.
    EntryRead,
    EntryWrite,
    /// The first directory block gets the counts.
    HeaderRead,
    HeaderWrite,
}

/// What the engine waits for.
#[derive(Clone, Copy)]
pub enum Phase {
    /// A call.
    Idle,
    /// That its answer is taken.
    Done(i32),
    /// A block.
    Wants(Purpose),
}

/// How far a call has come, in bytes.
#[derive(Clone, Copy)]
pub struct Counters {
    /// Where it begins in its file.
    pub position: u32,
    /// How many it takes or puts.
    pub total: u32,
    /// How many of these are taken or put.
    pub done: u32,
    /// How many a read that is done has given.
    pub given: u32,
}

/// The engine.
pub struct Files {
    pub blocks: u32,
    pub devices: [Option<OpenFile>; 6],
    pub phase: Phase,
    pub call: FileCall,
    /// The file in hand: the place of its entry and the entry; and the counts.
    pub slot: u32,
    pub entry: Entry,
    pub header: Header,
    /// The block that is to be written.
    pub block: [u8; 512],
    /// The index block that was read last, its number, and how many of the file's index blocks come up to it.
    pub index: Index,
    pub at: u32,
    pub reached: u32,
    /// How many of the data blocks that it names are freed.
    pub freed: u32,
    /// How far the call has come.
    pub counters: Counters,
    /// The bytes that a call puts or takes.
    pub buffer: Buffer,
}

impl Drop for Files {
    fn drop(self) {
        let Files {
            blocks: _blocks,
            devices: _devices,
            phase: _phase,
            call: _call,
            slot: _slot,
            entry: _entry,
            header: _header,
            block: _block,
            index: _index,
            at: _at,
            reached: _reached,
            freed: _freed,
            counters: _counters,
            buffer: _buffer,
        } = self;
    }
}
