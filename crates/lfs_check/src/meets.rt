//! What walks met.

ghost use Rattle.std.specs.Prelude.{◌≡◌, ℕ, ◌+◌, ◌-◌, ◌*◌, ◌≤◌, ◌<◌, length, IfOk, min, slice_index, nat_le, ◌^◌};
ghost use Rattle.lfs_check.specs.Geometries.{index_count, IsGeometry};
ghost use Rattle.lfs_check.specs.Meets.{times_met, lowest_from, counted_more};
ghost use Rattle.lfs_check.specs.Checks.{first_block};

use crate::geometry::{Geometry, block_of_index, data_from, indexes_on};
use std::alloc::{AllocError, Global};

/// The lowest block that was met too often, and the lowest that was not met.
#[derive(Clone, Copy)]
pub(crate) struct Met {
    pub rule_6: Option<u32>,
    pub rule_7: Option<u32>,
}

/// Counts the numbers of index blocks and of data blocks that were met.
pub(crate) fn count_all(
    alloc: Global,
    geometry: Geometry,
    indexes: &[u32],
    blocks: &[u32],
) -> Result<Met, AllocError>
    requires geometry { IsGeometry geometry }
    ensures rule_6 { IfOk result (λ m. m.rule_6 ≡ first_block geometry (λ i. nat_le 2 (times_met i indexes.now)) (λ b. nat_le 2 (times_met b blocks.now))) }
    ensures rule_7 { IfOk result (λ m. m.rule_7 ≡ first_block geometry (λ i. nat_le (times_met i indexes.now) 0) (λ b. nat_le (times_met b blocks.now) 0)) }
{
    let index_counts = count_meets(alloc, indexes, indexes_on(geometry))?;
    let block_counts = count_meets(alloc, blocks, geometry.blocks)?;
    Ok(Met {
        rule_6: twice_block(geometry, &index_counts, &block_counts),
        rule_7: missing_block(geometry, &index_counts, &block_counts),
    })
}

/// How often each number below `high` was met: 0, 1, or 2 for more.
pub(crate) fn count_meets(alloc: Global, met: &[u32], high: u32) -> Result<Vec<u8>, AllocError>
    ensures len { IfOk result (λ c. length c.items ≡ high) }
    ensures each { IfOk result (λ c. (n : ℕ) → n < high → slice_index c.items n ≡ min 2 (times_met n met.now)) }
{
    let mut counts = vec![in alloc; 0u8; high as usize]?;
    for m in met {
        count_one(&mut counts, *m as usize);
    }
    Ok(counts)
}

// Counts one meet of a number, up to 2.
fn count_one(counts: &mut Vec<u8>, at: usize)
    ensures { counts.new.items ≡ counted_more counts.old.items at }
{
    if at < counts.len() {
        let count = counts[at];
        counts[at] = if count < 2 { count + 1 } else { 2 };
    }
}

// Rule 6: the lowest number that was met twice.
fn twice_fault(counts: &[u8], low: u32, many: u32) -> Option<u32>
    requires room { low + many ≤ length counts.now }
    requires small { length counts.now < 2 ^ 32 }
    ensures { result ≡ lowest_from (λ n. nat_le 2 (slice_index counts.now n)) low many }
{
    for i in 0..many {
        if counts[(low + i) as usize] >= 2 {
            return Some(low + i);
        }
    }
    None
}

// Rule 7: the lowest number that was not met.
fn missing_fault(counts: &[u8], low: u32, many: u32) -> Option<u32>
    requires room { low + many ≤ length counts.now }
    requires small { length counts.now < 2 ^ 32 }
    ensures { result ≡ lowest_from (λ n. nat_le (slice_index counts.now n) 0) low many }
{
    for i in 0..many {
        if counts[(low + i) as usize] == 0 {
            return Some(low + i);
        }
    }
    None
}

// The first block with an index or data block of which a count is at least two.
fn twice_block(geometry: Geometry, indexes: &[u8], blocks: &[u8]) -> Option<u32>
    requires geometry { IsGeometry geometry }
    requires indexes { length indexes.now ≡ index_count geometry }
    requires blocks { length blocks.now ≡ geometry.blocks }
    ensures { result ≡ first_block geometry (λ i. nat_le 2 (slice_index indexes.now i)) (λ b. nat_le 2 (slice_index blocks.now b)) }
{
    match twice_fault(indexes, 0, indexes_on(geometry)) {
        Some(i) => Some(block_of_index(geometry, i)),
        None => twice_fault(
            blocks,
            data_from(geometry),
            geometry.blocks - data_from(geometry),
        ),
    }
}

// The first block with an index or data block of which a count is zero.
fn missing_block(geometry: Geometry, indexes: &[u8], blocks: &[u8]) -> Option<u32>
    requires geometry { IsGeometry geometry }
    requires indexes { length indexes.now ≡ index_count geometry }
    requires blocks { length blocks.now ≡ geometry.blocks }
    ensures { result ≡ first_block geometry (λ i. nat_le (slice_index indexes.now i) 0) (λ b. nat_le (slice_index blocks.now b) 0) }
{
    match missing_fault(indexes, 0, indexes_on(geometry)) {
        Some(i) => Some(block_of_index(geometry, i)),
        None => missing_fault(
            blocks,
            data_from(geometry),
            geometry.blocks - data_from(geometry),
        ),
    }
}
