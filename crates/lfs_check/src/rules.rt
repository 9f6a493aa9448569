//! Rules 0 to 3: what the size and the directory of an image can break.

ghost use Rattle.std.specs.Prelude.{◌≡◌, ◌+◌, ◌*◌, ◌≤◌, ◌<◌, length, take, slice_index_or, count_by};
ghost use Rattle.lfs_format.specs.Directory.{void_entry};
ghost use Rattle.lfs_check.specs.Geometries.{longest_name, IsGeometry};
ghost use Rattle.lfs_check.specs.Rules.{entry_is_used, is_name, rule_0, rule_1, rule_2, rule_3, has_bad_name, text_length, are_zeros, has_name, is_larger, begins_right, ends_right, is_dir_block};

use crate::fields::{Header, block_at};
use crate::geometry::{Geometry, block_of_entry, data_from};
use lfs_format::{Entry, dir_ending};

/// Rule 0: whole blocks, and a number of them that the version allows.
pub fn size_fault(geometry: Geometry, bytes: &[u8]) -> Option<u32>
    ensures { result ≡ rule_0 geometry bytes.now }
{
    let fewest = if geometry.dirs == 1 { 8 } else { 14 };
    let most = if geometry.dirs == 1 { 65536 } else { 65542 };
    if bytes.len() % 512 == 0 && bytes.len() >= 512 * fewest && bytes.len() <= 512 * most {
        None
    } else {
        Some(0)
    }
}

/// Rule 1: the names of used entries are names, and no two the same.
#[tactic(auto, using(crate::proofs::Failing::first_failing_all))]
pub(crate) fn name_fault(geometry: Geometry, entries: &[Entry]) -> Option<u32>
    requires few { length entries.now ≤ 78 }
    ensures { result ≡ rule_1 geometry entries.now }
{
    for e in 0..entries.len() {
        if has_bad_name(geometry, entries, e) {
            return Some(block_of_entry(geometry, e));
        }
    }
    None
}

/// Rule 2: the number of files is that of the used entries, and the bytes outside the entries are right.
pub(crate) fn count_fault(
    geometry: Geometry,
    header: Header,
    entries: &[Entry],
    bytes: &[u8],
) -> Option<u32>
    requires geometry { IsGeometry geometry }
    requires whole { 512 * geometry.blocks ≤ length bytes.now }
    ensures { result ≡ rule_2 geometry header entries.now bytes.now }
{
    for d in 0..geometry.dirs {
        if !is_dir_block(geometry, header, entries, bytes, d) {
            return Some(d);
        }
    }
    None
}

/// Rule 3: no file is larger than all data blocks together.
#[tactic(auto, using(crate::proofs::Failing::first_failing_all))]
pub(crate) fn file_size_fault(geometry: Geometry, entries: &[Entry]) -> Option<u32>
    requires geometry { IsGeometry geometry }
    requires few { length entries.now ≤ 78 }
    ensures { result ≡ rule_3 geometry entries.now }
{
    let most = 512 * (geometry.blocks - data_from(geometry));
    for e in 0..entries.len() {
        if is_larger(entries, e, most) {
            return Some(block_of_entry(geometry, e));
        }
    }
    None
}

/// Whether an entry is used.
pub fn entry_is_used(entry: &Entry) -> bool
    ensures { result ≡ entry_is_used entry.now }
{
    entry.name[0] != 0
}

// How many non-zero bytes a name begins with.
#[tactic(auto, unfolding(crate::specs::Rules::text_length))]
pub(crate) fn text_len(name: &[u8; 28]) -> usize
    ensures { result ≡ text_length name.now }
{
    for i in 0..28 {
        if name[i] == 0 {
            return i;
        }
    }
    28
}

// Whether each byte is zero.
fn is_zeros(bytes: &[u8]) -> bool
    ensures { result ≡ are_zeros bytes.now }
{
    bytes.iter().all(|b| *b == 0)
}

// Whether the bytes are non-zero bytes, at least one and no more than a name can have, and then zeros.
#[tactic(auto, unfolding(crate::specs::Rules::is_name))]
pub(crate) fn is_text(geometry: Geometry, name: &[u8; 28]) -> bool
    ensures { result ≡ is_name (longest_name geometry) name.now }
{
    let longest = if geometry.dirs == 1 { 15 } else { 27 };
    let len = text_len(name);
    0 < len && len <= longest && is_zeros(&name[len..])
}

// Whether entry `e` is used and has no name, or that of an earlier one.
fn has_bad_name(geometry: Geometry, entries: &[Entry], e: usize) -> bool
    requires { e < length entries.now }
    ensures { result ≡ has_bad_name geometry (take e entries.now) (slice_index_or entries.now e void_entry) }
{
    let entry = &entries[e];
    entry_is_used(entry)
        && (!is_text(geometry, &entry.name) || is_repeated(&entries[..e], &entry.name))
}

// Whether a used entry has the name.
#[tactic(auto, unfolding(crate::specs::Rules::has_name))]
pub(crate) fn is_repeated(entries: &[Entry], name: &[u8; 28]) -> bool
    ensures { result ≡ has_name entries.now name.now }
{
    for entry in entries {
        if entry_is_used(entry) && entry.name == *name {
            return true;
        }
    }
    false
}

/// How many entries are used.
pub fn used_count(entries: &[Entry]) -> usize
    ensures { result ≡ count_by entry_is_used entries.now }
{
    entries.iter().filter(|e| entry_is_used(e)).count()
}

// Whether a directory block begins as it must.
fn begins_right(header: Header, entries: &[Entry], block: &[u8; 512], d: u32) -> bool
    ensures { result ≡ begins_right header entries.now block.now d }
{
    if d == 0 {
        used_count(entries) == header.files as usize
    } else {
        is_zeros(&block[..12])
    }
}

// Whether a directory block ends as it must.
fn ends_right(geometry: Geometry, block: &[u8; 512]) -> bool
    ensures { result ≡ ends_right geometry block.now }
{
    if geometry.dirs == 1 {
        is_zeros(&block[492..])
    } else {
        block[480..] == dir_ending()[..]
    }
}

// Whether a directory block is right outside its entries.
fn is_dir_block(geometry: Geometry, header: Header, entries: &[Entry], bytes: &[u8], d: u32) -> bool
    requires { 512 * d + 512 ≤ length bytes.now }
    ensures { result ≡ is_dir_block geometry header entries.now bytes.now d }
{
    let block = block_at(bytes, d);
    begins_right(header, entries, &block, d) && ends_right(geometry, &block)
}

// Whether entry `e` is used and has a larger size.
fn is_larger(entries: &[Entry], e: usize, most: u32) -> bool
    requires { e < length entries.now }
    ensures { result ≡ is_larger most (slice_index_or entries.now e void_entry) }
{
    let entry = &entries[e];
    entry_is_used(entry) && entry.size > most
}
