//! The files of a clean image in the order of their names.

ghost use Rattle.std.specs.Prelude.{◌≡◌, ◌*◌, ◌≤◌, ◌&&◌, length, is_some, nat_eq, nat_lt, slice_get, Some, None, MatchOption};
ghost use Rattle.std.specs.List.{find};
ghost use Rattle.lfs_format.specs.declared.Entry.{Entry};
ghost use Rattle.lfs_check.specs.Rules.{entry_is_used, text_length};
ghost use Rattle.lfs_check.specs.Fields.{entries_2};
ghost use Rattle.lfs_layout.specs.Files.{files_of, listing, bare_name, is_before, names_before};
ghost use Rattle.lfs_layout.specs.Images.{IsCleanImage};

use arrayvec::ArrayVec;
use lfs_check::{block_at, entry_is_used};
use lfs_format::{Entry, read_dir};

/// Name and size of the `k`-th file of a clean image in the order of names, if there is one.
pub(crate) fn file_at(image: &[u8], k: usize) -> Option<(ArrayVec<u8, 27>, u32)>
    requires { IsCleanImage image.now }
    ensures file { MatchOption result (slice_get (listing (files_of image.now)) k ≡ None) (λ f. slice_get (listing (files_of image.now)) k ≡ Some (f.0.items, f.1)) }
    ensures within { is_some result ≡ nat_lt k (length (files_of image.now)) }
{
    match nth_entry(&entries_in(image), k) {
        Some(entry) => Some((text_of(&entry.name), entry.size)),
        None => None,
    }
}

// The entries of an image of version 2.
fn entries_in(image: &[u8]) -> [Entry; 78]
    requires { 3072 ≤ length image.now }
    ensures { result ≡ entries_2 image.now }
{
    let blank = Entry {
        size: 0,
        first: 0,
        name: [0; 28],
    };
    let mut entries = [blank; 78];
    for d in 0..6 {
        let dir = read_dir(&block_at(image, d));
        let at = 13 * d as usize;
        entries[at..at + 13].copy_from_slice(&dir.entries);
    }
    entries
}

// The used entry whose name comes after those of exactly `k` used entries.
fn nth_entry(entries: &[Entry], k: usize) -> Option<Entry>
    ensures { result ≡ find (λ (e : Entry). entry_is_used e && nat_eq (names_before entries.now e.name) k) entries.now }
{
    for entry in entries {
        if entry_is_used(entry) && names_before(entries, &entry.name) == k {
            return Some(*entry);
        }
    }
    None
}

// How many used entries have a name that comes before this one.
fn names_before(entries: &[Entry], name: &[u8; 28]) -> usize
    ensures { result ≡ names_before entries.now name.now }
{
    entries
        .iter()
        .filter(|e| entry_is_used(e) && is_before(&e.name, name))
        .count()
}

// Whether a name comes before another, byte by byte.
fn is_before(name: &[u8; 28], other: &[u8; 28]) -> bool
    ensures { result ≡ is_before name.now other.now }
{
    name < other
}

// A name without the zeros after it.
fn text_of(name: &[u8; 28]) -> ArrayVec<u8, 27>
    requires { text_length name.now ≤ 27 }
    ensures { result.items ≡ bare_name name.now }
{
    let mut text = ArrayVec::new();
    for byte in name {
        if *byte == 0 {
            return text;
        }
        text.push(*byte);
    }
    text
}
