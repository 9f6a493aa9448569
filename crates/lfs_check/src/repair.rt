//! The entries of a disk with faults whose files can be kept.

ghost use Rattle.std.specs.Prelude.{◌≡◌, ◌≤◌, ◌<◌, ◌^◌, [], min, ℕ, length, slice_index, IfOk};
ghost use Rattle.std.specs.List.{flat_map};
ghost use Rattle.lfs_check.specs.Geometries.{index_count, room, IsGeometry};
ghost use Rattle.lfs_check.specs.Rules.{is_larger};
ghost use Rattle.lfs_check.specs.Meets.{times_met};
ghost use Rattle.lfs_check.specs.Checks.{met_of, end_of_walk, data_row};
ghost use Rattle.lfs_check.specs.Clean.{chain_in, data_in};
ghost use Rattle.lfs_check.specs.Kept.{has_sound_fields, has_sound_walk, is_whole, is_none, whole_entries, kept_entries, kept_counted, counted_once};

use crate::chain_rules::{data_needed, indexes_needed, offsets_fault, rows_fault};
use crate::geometry::{Geometry, data_from, indexes_on};
use crate::meets::count_meets;
use crate::parts::Fields;
use crate::rules::{entry_is_used, is_repeated, is_text};
use crate::survey::{file_blocks, file_chain, walk_file};
use crate::walks::Walk;
use lfs_format::{Entry, NULL};
use std::alloc::{AllocError, Global};

/// The entries that repair keeps, in their order: each is whole, no lower whole entry has its name, and it shares no block with
/// another whole entry.
pub fn kept_entries(
    alloc: Global,
    fields: &Fields<'_>,
    entries: &[Entry],
) -> Result<Vec<Entry>, AllocError>
    requires rows { (i : ℕ) → i < index_count fields.now.geometry → length (data_row fields.now.indexes.now i) ≡ 16 }
    ensures { IfOk result (λ v. v.items ≡ kept_entries fields.now.geometry fields.now.indexes.now entries.now) }
{
    let wholes = find_wholes(alloc, fields, entries)?;
    let chains = count_chains(alloc, fields, &wholes)?;
    let blocks = count_blocks(alloc, fields, &wholes)?;
    let kept = keep(alloc, fields, &wholes, &chains, &blocks)?;
    Ok(kept)
}

// Whether the name and the size of an entry can be.
fn has_sound_fields(geometry: Geometry, entry: &Entry) -> bool
    requires geometry { IsGeometry geometry }
    ensures { result ≡ has_sound_fields geometry entry.now }
{
    entry_is_used(entry) && is_text(geometry, &entry.name) && !is_too_large(geometry, entry)
}

// Whether an entry is used and larger than all data blocks together.
fn is_too_large(geometry: Geometry, entry: &Entry) -> bool
    requires geometry { IsGeometry geometry }
    ensures { result ≡ is_larger (room geometry) entry.now }
{
    let most = 512 * (geometry.blocks - data_from(geometry));
    entry_is_used(entry) && entry.size > most
}

// Whether there is no fault.
fn is_none(found: Option<u32>) -> bool
    ensures { result ≡ is_none found }
{
    match found {
        None => true,
        Some(_) => false,
    }
}

// Whether the walk of an entry meets what its size needs.
fn has_sound_walk(fields: &Fields<'_>, entry: &Entry, walk: &Walk) -> bool
    requires met { walk.now.met.items ≡ met_of fields.now.geometry fields.now.indexes.now entry.now }
    requires end { walk.now.end ≡ end_of_walk fields.now.geometry fields.now.indexes.now entry.now }
    requires below { (j : ℕ) → j < length walk.now.met.items → slice_index walk.now.met.items j < length fields.now.indexes.now }
    requires few { length walk.now.met.items ≤ 2 ^ 20 }
    ensures { result ≡ has_sound_walk fields.now.geometry fields.now.indexes.now entry.now }
{
    walk.met.len() == indexes_needed(entry)
        && walk.end == NULL
        && is_none(rows_fault(
            fields.geometry,
            fields.indexes,
            data_needed(entry),
            &walk.met,
        ))
        && is_none(offsets_fault(fields.geometry, fields.indexes, &walk.met))
}

// Whether an entry is whole: its fields and its walk are sound, and no data block is met twice in it.
fn is_whole(alloc: Global, fields: &Fields<'_>, entry: &Entry) -> Result<bool, AllocError>
    requires rows { (i : ℕ) → i < index_count fields.now.geometry → length (data_row fields.now.indexes.now i) ≡ 16 }
    ensures { IfOk result (λ b. b ≡ is_whole fields.now.geometry fields.now.indexes.now entry.now) }
{
    if !has_sound_fields(fields.geometry, entry) {
        return Ok(false);
    }
    let walk = walk_file(alloc, fields, entry)?;
    if !has_sound_walk(fields, entry, &walk) {
        return Ok(false);
    }
    let numbers = file_blocks(alloc, fields, entry)?;
    let counts = count_meets(alloc, &numbers, fields.geometry.blocks)?;
    Ok(are_once(&numbers, &counts))
}

// The whole entries, in their order.
fn find_wholes(
    alloc: Global,
    fields: &Fields<'_>,
    entries: &[Entry],
) -> Result<Vec<Entry>, AllocError>
    requires rows { (i : ℕ) → i < index_count fields.now.geometry → length (data_row fields.now.indexes.now i) ≡ 16 }
    ensures { IfOk result (λ v. v.items ≡ whole_entries fields.now.geometry fields.now.indexes.now entries.now) }
{
    let mut wholes = Vec::new(alloc);
    for entry in entries {
        if is_whole(alloc, fields, entry)? {
            wholes.push(*entry)?;
        }
    }
    Ok(wholes)
}

// How often each index block is in the chains of entries.
fn count_chains(
    alloc: Global,
    fields: &Fields<'_>,
    entries: &[Entry],
) -> Result<Vec<u8>, AllocError>
    ensures { IfOk result (λ c. (n : ℕ) → n < index_count fields.now.geometry → slice_index c.items n ≡ min 2 (times_met n (flat_map (chain_in fields.now.geometry fields.now.indexes.now) entries.now))) }
{
    let mut numbers = Vec::new(alloc);
    for entry in entries {
        let chain = file_chain(alloc, fields, entry)?;
        numbers.extend_from_slice(&chain)?;
    }
    let counts = count_meets(alloc, &numbers, indexes_on(fields.geometry))?;
    Ok(counts)
}

// How often each data block is in the files of entries.
fn count_blocks(
    alloc: Global,
    fields: &Fields<'_>,
    entries: &[Entry],
) -> Result<Vec<u8>, AllocError>
    ensures { IfOk result (λ c. (n : ℕ) → n < fields.now.geometry.blocks → slice_index c.items n ≡ min 2 (times_met n (flat_map (data_in fields.now.geometry fields.now.indexes.now) entries.now))) }
{
    let mut numbers = Vec::new(alloc);
    for entry in entries {
        let blocks = file_blocks(alloc, fields, entry)?;
        numbers.extend_from_slice(&blocks)?;
    }
    let counts = count_meets(alloc, &numbers, fields.geometry.blocks)?;
    Ok(counts)
}

// Those of whole entries that are kept, by the counts of their blocks.
fn keep(
    alloc: Global,
    fields: &Fields<'_>,
    wholes: &[Entry],
    chains: &[u8],
    blocks: &[u8],
) -> Result<Vec<Entry>, AllocError>
    ensures { IfOk result (λ v. v.items ≡ kept_counted fields.now.geometry fields.now.indexes.now chains.now blocks.now [] wholes.now) }
{
    let mut kept = Vec::new(alloc);
    for k in 0..wholes.len() {
        let entry = wholes[k];
        let chain = file_chain(alloc, fields, &entry)?;
        let numbers = file_blocks(alloc, fields, &entry)?;
        if !is_repeated(&wholes[..k], &entry.name)
            && are_once(&chain, chains)
            && are_once(&numbers, blocks)
        {
            kept.push(entry)?;
        }
    }
    Ok(kept)
}

// Whether each of the numbers was counted once.
fn are_once(numbers: &[u32], counts: &[u8]) -> bool
    ensures { result ≡ counted_once numbers.now counts.now }
{
    numbers.iter().all(|n| count_of(counts, *n) == 1)
}

// How often a number was counted.
fn count_of(counts: &[u8], n: u32) -> u8
    ensures { result ≡ slice_index counts.now n }
{
    if (n as usize) < counts.len() {
        counts[n as usize]
    } else {
        0
    }
}
