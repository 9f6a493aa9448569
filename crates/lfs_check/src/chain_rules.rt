//! What rules 4 and 5 say of one chain.

ghost use Rattle.std.specs.Prelude.{◌≡◌, ℕ, ◌+◌, ◌-◌, ◌*◌, ◌≤◌, ◌<◌, ◌^◌, length, slice_index};
ghost use Rattle.lfs_check.specs.Geometries.{IsGeometry};
ghost use Rattle.lfs_check.specs.Checks.{least, is_between, is_good_end, last_or, end_holder, free_data_fault, free_index_fault, is_file_end, end_fault, number_fits, row_fits, row_fault, rows_fault, offset_fault, offsets_fault, need_index, need_data};

use crate::geometry::{Geometry, block_of_entry, block_of_index, data_from, indexes_on};
use crate::walks::Walk;
use lfs_format::{Entry, Index, NULL};

/// The lower of two blocks, if there is one.
pub(crate) fn least(a: Option<u32>, b: Option<u32>) -> Option<u32>
    ensures { result ≡ least a b }
{
    match (a, b) {
        (None, b) => b,
        (Some(a), None) => Some(a),
        (Some(a), Some(b)) => Some(a.min(b)),
    }
}

// Whether a number is in a range.
fn is_in(low: u32, high: u32, number: u32) -> bool
    ensures { result ≡ is_between low high number }
{
    low <= number && number < high
}

// Whether the walk of a free chain may end at a number.
fn may_end(low: u32, high: u32, end: u32) -> bool
    ensures { result ≡ is_good_end low high end }
{
    if end == NULL {
        true
    } else {
        is_in(low, high, end)
    }
}

// The last number met, or a number for none.
fn last_met(front: u32, met: &[u32]) -> u32
    ensures { result ≡ last_or front met.now }
{
    if met.len() == 0 {
        front
    } else {
        met[met.len() - 1]
    }
}

// The block with the number that ended a walk of index blocks.
fn holder_of(geometry: Geometry, block: u32, met: &[u32]) -> u32
    requires geometry { IsGeometry geometry }
    ensures { result ≡ end_holder geometry block met.now }
{
    if met.len() == 0 {
        block
    } else {
        block_of_index(geometry, met[met.len() - 1])
    }
}

/// Rule 4 for the free data blocks.
pub(crate) fn free_data_fault(geometry: Geometry, met: &[u32], end: u32) -> Option<u32>
    requires geometry { IsGeometry geometry }
    ensures { result ≡ free_data_fault geometry met.now end }
{
    if may_end(data_from(geometry), geometry.blocks, end) {
        None
    } else {
        Some(last_met(0, met))
    }
}

/// Rule 4 for the free index blocks.
pub(crate) fn free_index_fault(geometry: Geometry, met: &[u32], end: u32) -> Option<u32>
    requires geometry { IsGeometry geometry }
    ensures { result ≡ free_index_fault geometry met.now end }
{
    if may_end(0, indexes_on(geometry), end) {
        None
    } else {
        Some(holder_of(geometry, 0, met))
    }
}

/// How many index blocks a file needs.
pub fn indexes_needed(entry: &Entry) -> usize
    ensures need { result ≡ need_index entry.now }
    ensures small { result ≤ 2 ^ 20 }
{
    (entry.size as usize + 8191) / 8192
}

/// How many data blocks a file needs.
pub fn data_needed(entry: &Entry) -> usize
    ensures { result ≡ need_data entry.now }
{
    (entry.size as usize + 511) / 512
}

// Whether the walk of a file may end so.
fn file_may_end(geometry: Geometry, need: usize, len: usize, end: u32) -> bool
    requires geometry { IsGeometry geometry }
    ensures { result ≡ is_file_end geometry need len end }
{
    if len < need {
        is_in(0, indexes_on(geometry), end)
    } else {
        end == NULL
    }
}

/// Rule 4 for the end of the walk of the file of entry `k`.
pub(crate) fn end_fault(
    geometry: Geometry,
    k: usize,
    entry: &Entry,
    met: &[u32],
    end: u32,
) -> Option<u32>
    requires geometry { IsGeometry geometry }
    requires few { k < 78 }
    ensures { result ≡ end_fault geometry k entry.now met.now end }
{
    if file_may_end(geometry, indexes_needed(entry), met.len(), end) {
        None
    } else {
        Some(holder_of(geometry, block_of_entry(geometry, k), met))
    }
}

// Whether a data number is right if this many are still wanted.
fn is_right(geometry: Geometry, wanted: usize, number: u32) -> bool
    requires geometry { IsGeometry geometry }
    ensures { result ≡ number_fits geometry wanted number }
{
    if 0 < wanted {
        is_in(data_from(geometry), geometry.blocks, number)
    } else {
        number == NULL
    }
}

// Whether the data numbers of an index block are right if this many are wanted.
#[tactic(auto, using(crate::proofs::Surveys::row_fits_all))]
fn are_right(geometry: Geometry, wanted: usize, numbers: &[u32; 16]) -> bool
    requires geometry { IsGeometry geometry }
    ensures { result ≡ row_fits geometry wanted numbers.now }
{
    for k in 0..16 {
        if !is_right(geometry, wanted.saturating_sub(k), numbers[k]) {
            return false;
        }
    }
    true
}

// Rule 4 for the data numbers in one index block.
fn row_fault(geometry: Geometry, indexes: &[Index], wanted: usize, i: u32) -> Option<u32>
    requires geometry { IsGeometry geometry }
    requires below { i < length indexes.now }
    ensures { result ≡ row_fault geometry indexes.now wanted i }
{
    let index = indexes[i as usize];
    if are_right(geometry, wanted, &index.blocks) {
        None
    } else {
        Some(block_of_index(geometry, i))
    }
}

/// Rule 4 for the data numbers in the index blocks of a file.
pub(crate) fn rows_fault(
    geometry: Geometry,
    indexes: &[Index],
    wanted: usize,
    met: &[u32],
) -> Option<u32>
    requires geometry { IsGeometry geometry }
    requires below { (j : ℕ) → j < length met.now → slice_index met.now j < length indexes.now }
    ensures { result ≡ rows_fault geometry indexes.now wanted met.now }
{
    let mut found = None;
    let mut left = wanted;
    for j in 0..met.len() {
        found = least(found, row_fault(geometry, indexes, left, met[j]));
        left = left.saturating_sub(16);
    }
    found
}

// Rule 5 for one index block.
fn offset_fault(geometry: Geometry, indexes: &[Index], offset: usize, i: u32) -> Option<u32>
    requires geometry { IsGeometry geometry }
    requires below { i < length indexes.now }
    ensures { result ≡ offset_fault geometry indexes.now offset i }
{
    let index = indexes[i as usize];
    if index.offset as usize == offset {
        None
    } else {
        Some(block_of_index(geometry, i))
    }
}

/// Rule 5 for the index blocks of a file.
pub(crate) fn offsets_fault(geometry: Geometry, indexes: &[Index], met: &[u32]) -> Option<u32>
    requires geometry { IsGeometry geometry }
    requires few { length met.now ≤ 2 ^ 20 }
    requires below { (j : ℕ) → j < length met.now → slice_index met.now j < length indexes.now }
    ensures { result ≡ offsets_fault geometry indexes.now 0 met.now }
{
    let mut found = None;
    for j in 0..met.len() {
        found = least(found, offset_fault(geometry, indexes, 8192 * j, met[j]));
    }
    found
}
