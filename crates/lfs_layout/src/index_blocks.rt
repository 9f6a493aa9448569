//! The index blocks of an image that is made.

ghost use Rattle.std.specs.Prelude.{◌≡◌, ◌+◌, ◌-◌, ◌*◌, ◌≤◌, ◌<◌, ◌++◌, length, slice_index_or, replicate, IfOk, OnOk};
ghost use Rattle.lfs_check.specs.Geometries.{first_data};
ghost use Rattle.lfs_check.specs.Meets.{null};
ghost use Rattle.lfs_check.specs.Laid.{index_for};
ghost use Rattle.lfs_check.specs.Empty.{upwards, next_upwards};
ghost use Rattle.lfs_check.specs.Fields.{numbered_values};
ghost use Rattle.lfs_layout.specs.Made.{indexes_needed, data_needed, file_index, indexes_for, all_indexes, index_disk, file_of, all_files, geometry_2, Room};

use crate::files::{NamedFile, data_needed, index_total, indexes_needed};
use lfs_format::{Index, NULL, write_index};
use std::alloc::{AllocError, Global};

/// All index blocks: those of files, and the free ones, each of which names the next.
pub(crate) fn make_indexes(
    alloc: Global,
    blocks: u32,
    files: &[NamedFile],
) -> Result<Vec<Index>, AllocError>
    requires { Room blocks (all_files files.now) }
    ensures { IfOk result (λ v. v.items ≡ all_indexes (geometry_2 blocks) (all_files files.now)) }
{
    let mut indexes = make_used(alloc, blocks, files)?;
    let count = 7 * ((blocks + 63) / 64);
    for i in index_total(files) as u32..count {
        indexes.push(make_free(i, count))?;
    }
    Ok(indexes)
}

/// A disk block of the seven index blocks from `7 * d` on.
pub(crate) fn make_disk(indexes: &[Index], d: usize) -> [u8; 512]
    requires { 7 * d + 7 ≤ length indexes.now }
    ensures { result ≡ index_disk indexes.now d }
{
    let mut block = [0u8; 512];
    for k in 0..7 {
        write_index(&indexes[7 * d + k], &mut block, k);
    }
    block
}

// A free index block, which names the next below `end`.
fn make_free(number: u32, end: u32) -> Index
    requires { number < end }
    ensures { result ≡ record { next = next_upwards end number; offset = 0; blocks = replicate 16 0 } }
{
    Index {
        next: next_below(number, end),
        offset: 0,
        blocks: [0; 16],
    }
}

/// The number after another, if it is below the end.
pub(crate) fn next_below(number: u32, end: u32) -> u32
    requires { number < end }
    ensures { result ≡ next_upwards end number }
{
    if number + 1 < end { number + 1 } else { NULL }
}

// The number at a place of a range, or null after its end.
fn number_at(low: u32, many: u32, place: u32) -> u32
    requires { low + many ≤ 65542 }
    ensures { result ≡ slice_index_or (upwards low many) place null }
{
    if place < many { low + place } else { NULL }
}

// Index block `j` of a file whose index blocks and data blocks are two ranges of numbers.
fn make_index(first: u32, count: u32, data_first: u32, data_count: u32, j: u32) -> Index
    requires indexes { first + count ≤ 65542 }
    requires blocks { data_first + data_count ≤ 65542 }
    requires below { j < count }
    ensures { result ≡ index_for j (upwards first count) (upwards data_first data_count) }
{
    let mut blocks = [NULL; 16];
    for k in 0..16 {
        blocks[k] = number_at(data_first, data_count, 16 * j + k as u32);
    }
    Index {
        next: number_at(first, count, j + 1),
        offset: 8192 * j,
        blocks,
    }
}

// Appends the index blocks of a file.
#[tactic(auto, using(lfs_check::proofs::Numbered::numbered_more, lfs_check::proofs::Numbered::numbered_none))]
fn add_indexes(
    indexes: &mut Vec<Index>,
    first: u32,
    data_first: u32,
    file: &NamedFile,
) -> Result<(), AllocError>
    requires indexes { first + indexes_needed (file_of file.now) ≤ 65542 }
    requires blocks { data_first + data_needed (file_of file.now) ≤ 65542 }
    ensures { OnOk result (indexes.new.items ≡ indexes.old.items ++ numbered_values (file_index first data_first (file_of file.now)) (indexes_needed (file_of file.now))) }
{
    let count = indexes_needed(file) as u32;
    let data_count = data_needed(file) as u32;
    for j in 0..count {
        indexes.push(make_index(first, count, data_first, data_count, j))?;
    }
    Ok(())
}

// The index blocks of files.
fn make_used(alloc: Global, blocks: u32, files: &[NamedFile]) -> Result<Vec<Index>, AllocError>
    requires { Room blocks (all_files files.now) }
    ensures { IfOk result (λ v. v.items ≡ indexes_for 0 (first_data (geometry_2 blocks)) (all_files files.now)) }
{
    let mut indexes = Vec::new(alloc);
    let mut first = 0u32;
    let mut data_first = 6 + (blocks + 63) / 64;
    for file in files {
        add_indexes(&mut indexes, first, data_first, file)?;
        first += indexes_needed(file) as u32;
        data_first += data_needed(file) as u32;
    }
    Ok(indexes)
}
