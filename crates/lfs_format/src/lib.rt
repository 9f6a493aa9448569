//! The fields of a disk with files: directory blocks of both versions and index blocks, read from bytes and written to them.
//!
//! It depends on `byteorder` alone. What is written is read back just as it was; a write of an index block changes its 72
//! bytes alone. The numbers of blocks in these fields are as they are stored: whether they are in range is for the checker.
#![tactic(auto)]

mod dirs;
mod dirs_1;
mod indexes;

pub use dirs::{dir_ending, read_dir, write_dir};
pub use dirs_1::read_dir_1;
pub use indexes::{index_from, read_index, write_index};

/// No block: the word that ends a chain and fills the unused places of an index block.
pub const NULL: u32 = 0xffff_ffff;

/// An index block: the next of its file, where its data begin in the file in bytes, and the numbers of its data blocks.
#[derive(Clone, Copy)]
pub struct Index {
    pub next: u32,
    pub offset: u32,
    pub blocks: [u32; 16],
}

/// A place for a file in the directory: its size in bytes, its first index block and its name, with zeros after it.
///
/// A place whose name begins with a zero byte has no file.
#[derive(Clone, Copy)]
pub struct Entry {
    pub size: u32,
    pub first: u32,
    pub name: [u8; 28],
}

/// A directory block of version 2. The three words count in the first of the six blocks, and are zero in the others.
#[derive(Clone, Copy)]
pub struct Dir {
    pub free_data: u32,
    pub free_index: u32,
    pub files: u32,
    pub entries: [Entry; 13],
}

/// A place for a file in the directory of version 1.
#[derive(Clone, Copy)]
pub struct Entry1 {
    pub size: u32,
    pub first: u32,
    pub name: [u8; 16],
}

/// The directory block of version 1.
#[derive(Clone, Copy)]
pub struct Dir1 {
    pub free_data: u32,
    pub free_index: u32,
    pub files: u32,
    pub entries: [Entry1; 20],
}
