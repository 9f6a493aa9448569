//! The directory of an image that is made.

ghost use Rattle.std.specs.Prelude.{◌≡◌, ◌+◌, ◌-◌, ◌<◌, ◌^◌, length, IfOk};
ghost use Rattle.lfs_format.specs.Directory.{dir_bytes};
ghost use Rattle.lfs_check.specs.Built.{chain_head};
ghost use Rattle.lfs_layout.specs.Made.{indexes_needed, entry_for, entries_for, no_entry, all_entries, header_for, dir_for, file_of, all_files, geometry_2, Room};

use crate::files::{NamedFile, data_total, index_total, indexes_needed};
use lfs_check::Header;
use lfs_format::{Dir, Entry, NULL, write_dir};
use std::alloc::{AllocError, Global};

/// The entries of files, and entries without a file after them.
pub(crate) fn make_entries(
    alloc: Global,
    blocks: u32,
    files: &[NamedFile],
) -> Result<Vec<Entry>, AllocError>
    requires { Room blocks (all_files files.now) }
    ensures items { IfOk result (λ v. v.items ≡ all_entries (all_files files.now)) }
    ensures len { IfOk result (λ v. length v.items ≡ 78) }
{
    let mut entries = make_used(alloc, blocks, files)?;
    let blanks = [empty_entry(); 78];
    entries.extend_from_slice(&blanks[files.len()..])?;
    Ok(entries)
}

/// The counts of the directory.
pub(crate) fn make_header(blocks: u32, files: &[NamedFile]) -> Header
    requires { Room blocks (all_files files.now) }
    ensures { result ≡ header_for (geometry_2 blocks) (all_files files.now) }
{
    let disks = (blocks + 63) / 64;
    Header {
        free_data: head_of(6 + disks + data_total(files) as u32, blocks),
        free_index: head_of(index_total(files) as u32, 7 * disks),
        files: files.len() as u32,
    }
}

/// Directory block `d`.
pub(crate) fn make_dir(header: Header, entries: &[Entry], d: usize) -> [u8; 512]
    requires len { length entries.now ≡ 78 }
    requires below { d < 6 }
    ensures { result ≡ dir_bytes (dir_for header entries.now d) }
{
    let mut part = [empty_entry(); 13];
    part.copy_from_slice(&entries[13 * d..13 * d + 13]);
    let dir = Dir {
        free_data: if d == 0 { header.free_data } else { 0 },
        free_index: if d == 0 { header.free_index } else { 0 },
        files: if d == 0 { header.files } else { 0 },
        entries: part,
    };
    let mut block = [0u8; 512];
    write_dir(&dir, &mut block);
    block
}

// The first number of a range, if there is one.
fn head_of(low: u32, high: u32) -> u32
    ensures { result ≡ chain_head low high }
{
    if low < high { low } else { NULL }
}

// An entry without a file.
fn empty_entry() -> Entry
    ensures { result ≡ no_entry }
{
    Entry {
        size: 0,
        first: 0,
        name: [0; 28],
    }
}

// The entry of a file whose index blocks begin at `first`.
fn make_entry(first: u32, file: &NamedFile) -> Entry
    requires size { length file.now.bytes.items < 2 ^ 32 }
    requires room { first + indexes_needed (file_of file.now) < 2 ^ 32 }
    ensures { result ≡ entry_for first (file_of file.now) }
{
    Entry {
        size: file.bytes.len() as u32,
        first: head_of(first, first + indexes_needed(file) as u32),
        name: file.name,
    }
}

// The entries of files.
fn make_used(alloc: Global, blocks: u32, files: &[NamedFile]) -> Result<Vec<Entry>, AllocError>
    requires { Room blocks (all_files files.now) }
    ensures items { IfOk result (λ v. v.items ≡ entries_for 0 (all_files files.now)) }
    ensures len { IfOk result (λ v. length v.items ≡ length files.now) }
{
    let mut entries = Vec::new(alloc);
    let mut first = 0u32;
    for file in files {
        entries.push(make_entry(first, file))?;
        first += indexes_needed(file) as u32;
    }
    Ok(entries)
}
