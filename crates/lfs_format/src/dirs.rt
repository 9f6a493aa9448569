//! Directory blocks of version 2.

ghost use Rattle.std.specs.Prelude.{◌≡◌, ℕ, ◌+◌, ◌*◌, ◌<◌, length, [], slice_index, ◌^◌, ◌∷◌};
ghost use Rattle.lfs_format.specs.Directory.{entry_of, entry_bytes, dir_of, dir_bytes, dir_words, dir_ending, IsDirBlock};
ghost use Rattle.lfs_format.specs.Words.{word_bytes};

use crate::{Dir, Entry};
use byteorder::{ByteOrder, LittleEndian};

/// The directory block in a block.
pub fn read_dir(block: &[u8; 512]) -> Dir
    ensures { result ≡ dir_of block.now }
{
    let mut words = [0u32; 3];
    LittleEndian::read_u32_into(&block[..12], &mut words);
    let blank = Entry {
        size: 0,
        first: 0,
        name: [0; 28],
    };
    let mut entries = [blank; 13];
    for e in 0..13 {
        entries[e] = entry_from(&block[12 + 36 * e..48 + 36 * e]);
    }
    Dir {
        free_data: words[0],
        free_index: words[1],
        files: words[2],
        entries,
    }
}

/// Fills a block with a directory block.
pub fn write_dir(dir: &Dir, block: &mut [u8; 512])
    ensures bytes { block.new ≡ dir_bytes dir.now }
    ensures back { dir_of block.new ≡ dir.now }
    ensures block { IsDirBlock dir.now block.new }
{
    put_words(dir, &mut block[..12]);
    for e in 0..13 {
        put_entry(&dir.entries[e], &mut block[12 + 36 * e..48 + 36 * e]);
    }
    put_ending(&mut block[480..]);
}

/// The bytes after the entries of a directory block: zeros, the number of the version, zeros.
#[tactic(auto, unfolding(crate::specs::Directory::dir_ending))]
pub fn dir_ending() -> [u8; 32]
    ensures { result ≡ dir_ending }
{
    let mut ending = [0u8; 32];
    ending[12] = 2;
    ending
}

// The entry in 36 bytes.
fn entry_from(part: &[u8]) -> Entry
    requires { length part.now ≡ 36 }
    ensures { result ≡ entry_of part.now }
{
    let mut words = [0u32; 2];
    LittleEndian::read_u32_into(&part[..8], &mut words);
    let mut name = [0u8; 28];
    name.copy_from_slice(&part[8..]);
    Entry {
        size: words[0],
        first: words[1],
        name,
    }
}

// The words of an entry.
fn words_of_entry(entry: &Entry) -> [u32; 2]
    ensures words { result ≡ entry.now.size ∷ entry.now.first ∷ [] }
    ensures name { length entry.now.name ≡ 28 }
{
    let _value = *entry;
    [entry.size, entry.first]
}

// Fills 36 bytes with an entry.
fn put_entry(entry: &Entry, part: &mut [u8])
    requires { length part.old ≡ 36 }
    ensures bytes { part.new ≡ entry_bytes entry.now }
    ensures words { (k : ℕ) → slice_index (entry.now.size ∷ entry.now.first ∷ []) k < 2 ^ 32 }
    ensures name { length entry.now.name ≡ 28 }
{
    LittleEndian::write_u32_into(&words_of_entry(entry), &mut part[..8]);
    part[8..].copy_from_slice(&entry.name);
}

// The words before the entries.
fn words_of_dir(dir: &Dir) -> [u32; 3]
    ensures words { result ≡ dir_words dir.now }
    ensures len { length dir.now.entries ≡ 13 }
{
    [dir.free_data, dir.free_index, dir.files]
}

// Fills 12 bytes with the words before the entries.
#[tactic(auto, unfolding(crate::specs::Words::word_bytes))]
fn put_words(dir: &Dir, part: &mut [u8])
    requires { length part.old ≡ 12 }
    ensures bytes { part.new ≡ word_bytes (dir_words dir.now) }
    ensures fits { (k : ℕ) → slice_index (dir_words dir.now) k < 2 ^ 32 }
    ensures len { length dir.now.entries ≡ 13 }
{
    LittleEndian::write_u32_into(&words_of_dir(dir), part);
}

// Fills 32 bytes with what comes after the entries.
fn put_ending(part: &mut [u8])
    requires { length part.old ≡ 32 }
    ensures { part.new ≡ dir_ending }
{
    part.copy_from_slice(&dir_ending());
}
