//! How much room files have on a disk: how many blocks they need and it has, and how much of a write fits. No block is named here.

ghost use Rattle.std.specs.Prelude.{◌≡◌, ◌≤◌, length};
ghost use Rattle.reference_files.specs.Sizes as sizes;
ghost use Rattle.xinu_model.specs.Files.Room as model;
ghost use Rattle.xinu_model.specs.Files.Systems as systems;
ghost use Rattle.xinu_model.specs.Files.Writing as writing;

use crate::stored::is_named;
use reference_state::{FileSystem, OpenFile, StoredFile};

/// The data blocks of a file of this many bytes.
pub fn data_blocks(size: usize) -> usize
    ensures blocks { result ≡ model.data_blocks size }
{
    size.div_ceil(512)
}

/// The index blocks of a file of this many bytes.
pub fn index_blocks(size: usize) -> usize
    ensures blocks { result ≡ model.index_blocks size }
{
    size.div_ceil(8192)
}

// How many data blocks the disk has.
fn data_room(s: &FileSystem) -> usize
    ensures room { result ≡ model.data_room s.now.blocks }
{
    let blocks = s.blocks as usize;
    blocks.saturating_sub(6 + blocks.div_ceil(64))
}

// How many index blocks the disk has.
fn index_room(s: &FileSystem) -> usize
    ensures room { result ≡ model.index_room s.now.blocks }
{
    7 * (s.blocks as usize).div_ceil(64)
}

// The size of a file, if that of this name has another one.
fn size_with(file: &StoredFile, name: &[u8], size: usize) -> usize
    ensures size { result ≡ sizes.size_with name.now size file.now }
{
    if is_named(file, name) {
        size
    } else {
        file.bytes.len()
    }
}

// How many data blocks the files need, if that of this name has another size.
fn data_needed(files: &[StoredFile], name: &[u8], size: usize) -> usize
    requires few { length files.now ≤ 78 }
    ensures needed { result ≡ sizes.blocks_with model.data_blocks name.now size files.now }
{
    let mut needed = 0usize;
    for file in files {
        let bytes = size_with(file, name, size);
        needed += data_blocks(bytes);
    }
    needed
}

// How many index blocks the files need then.
fn index_needed(files: &[StoredFile], name: &[u8], size: usize) -> usize
    requires few { length files.now ≤ 78 }
    ensures needed { result ≡ sizes.blocks_with model.index_blocks name.now size files.now }
{
    let mut needed = 0usize;
    for file in files {
        let bytes = size_with(file, name, size);
        needed += index_blocks(bytes);
    }
    needed
}

// Whether there is room if the file of this name has another size.
fn is_room(s: &FileSystem, name: &[u8], size: usize) -> bool
    requires few { length s.now.files ≤ 78 }
    ensures room { result ≡ sizes.is_room name.now size s.now }
{
    let data = data_needed(&s.files, name, size);
    let index = index_needed(&s.files, name, size);
    data <= data_room(s) && index <= index_room(s)
}

// How long a file of so many bytes is after a write of n bytes at a position.
fn written_size(position: u32, n: usize, size: usize) -> usize
    requires few { n ≤ 1048576 }
    requires small { size ≤ 2147483647 }
    ensures size { result ≡ sizes.written_size position n size }
{
    let end = position as usize + n;
    (position as usize).min(size) + (n + size.saturating_sub(end))
}

/// Whether there is room for these bytes at the position of an open file, whose size this is.
pub fn have_room(s: &FileSystem, f: &OpenFile, new: &[u8], size: usize) -> bool
    requires few { length s.now.files ≤ 78 }
    requires bytes { length new.now ≤ 1048576 }
    requires small { size ≤ 2147483647 }
    requires size { size ≡ length (systems.open_bytes f.now s.now) }
    ensures room { result ≡ writing.have_room f.now new.now s.now }
{
    let after = written_size(f.position, new.len(), size);
    is_room(s, &f.name, after)
}

/// How many of these bytes there is room for at the position of an open file, whose size this is. Where there is room for some there is room
/// for fewer, so each test halves what is in question.
pub fn fitting(s: &FileSystem, f: &OpenFile, bytes: &[u8], size: usize) -> usize
    requires few { length s.now.files ≤ 78 }
    requires bytes { length bytes.now ≤ 1048576 }
    requires small { size ≤ 2147483647 }
    requires size { size ≡ length (systems.open_bytes f.now s.now) }
    ensures fitting { result ≡ writing.fitting f.now bytes.now s.now }
    ensures within { result ≤ length bytes.now }
{
    let mut least = 0usize;
    let mut most = bytes.len();
    while least < most {
        let k = least + (most - least).div_ceil(2);
        let (front, _) = bytes.split_at(k);
        if have_room(s, f, front, size) {
            least = k;
        } else {
            most = k - 1;
        }
    }
    least
}
