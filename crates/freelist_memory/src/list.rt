//! The free list: which of some cells in a row are free, as the blocks that they form.
//!
//! It depends on the searches of `blocks`. It keeps true that the blocks are in order, with a taken cell between any two, and that
//! there is room for as many as there can be, so that only a new list takes memory.

ghost use Rattle.std.specs.Prelude.{◌≡◌, ◌≢◌, ◌↔◌, IsTrue, ℕ, ◌+◌, ◌<◌, ◌≤◌, ◌++◌, true, false, length, take, drop, replicate, vec_capacity, IfOk, IfNone, IfSome, if◌then◌else◌, ◌^◌, ◌-◌, ◌/◌, count_by, find, nat_le, option_map};
ghost use Rattle.xinu_model.specs.Heap.Cells.{begins_with, blocks_from, highest_free, lowest_free, marked};
ghost use Rattle.freelist_memory.specs.Blocks.{span_of, unless_empty};
ghost use Rattle.freelist_memory.specs.Gaps.{Fits, IsGiven};

use crate::blocks::{FreeBlock, Gap, count_of, gap_at, highest, lowest, place_of};
use std::alloc::{AllocError, Global};
use std::marker::Model;
use xinu_base::NoMemory;

/// Cells in a row, of which some are free.
#[derive(Drop)]
pub(crate) struct FreeList {
    // How many cells there are.
    cells: u32,
    // The free ones.
    blocks: Vec<FreeBlock>,
}

impl Model for FreeList {
    ghost use Rattle.std.specs.Prelude.{Bool, List};
    ghost use Rattle.freelist_memory.specs.Blocks.{cells_of};

    ghost Value = { List Bool };

    ghost use Rattle.freelist_memory.specs.Lists.{IsFreeList};

    ghost view = { λ l. cells_of 0 l.blocks.items l.cells };

    ghost invariant = { IsFreeList };
}

impl FreeList {
    /// Cells that are all free. This call and `clone` alone take memory.
    ///
    /// # Errors
    ///
    /// `NoMemory` if there is no memory for the records of the blocks.
    pub(crate) fn new(alloc: Global, cells: u32) -> Result<Self, NoMemory>
        requires few { cells ≤ 131072 }
        ensures free { IfOk result (λ l. l ≡ replicate cells true) }
    {
        let Ok(mut blocks) = Vec::with_capacity(alloc, cells as usize / 2 + 1) else {
            return Err(NoMemory);
        };
        if cells == 0 {
            return Ok(FreeList { cells, blocks });
        }
        match blocks.push(FreeBlock {
            first: 0,
            count: cells,
        }) {
            Ok(()) => Ok(FreeList { cells, blocks }),
            Err(_) => Err(NoMemory),
        }
    }

    /// Whether another list has as many cells, of which the same are free.
    pub(crate) fn equals(&self, other: &Self) -> bool
        ensures equal { IsTrue result ↔ (self.now ≡ other.now) }
    {
        self.cells == other.cells && self.blocks.as_slice() == other.blocks.as_slice()
    }

    /// The first of the lowest `count` free cells in a row. `None` if and only if there are none.
    pub(crate) fn find_low(&self, count: u32) -> Option<u32>
        requires some { 0 < count }
        ensures found { lowest_free count self.now ≡ result }
        ensures within { IfSome result (λ i. i + count ≤ length self.now) }
    {
        let Some(at) = lowest(&self.blocks, count) else {
            return None;
        };
        let block = self.blocks[at];
        Some(block.first)
    }

    /// Takes the lowest `count` free cells in a row, and answers the first of them. `None` if and only if there are none.
    pub(crate) fn take_low(&mut self, count: u32) -> Option<u32>
        requires some { 0 < count }
        ensures found { lowest_free count self.old ≡ result }
        ensures taken { IfSome result (λ i. self.new ≡ marked false i count self.old) }
        ensures within { IfSome result (λ i. i + count ≤ length self.old) }
        ensures stays { IfNone result (self.new ≡ self.old) }
    {
        let Some(at) = lowest(&self.blocks, count) else {
            return None;
        };
        let block = self.blocks[at];
        let rest = FreeBlock {
            first: block.first + count,
            count: block.count - count,
        };
        cut(&mut self.blocks, at, rest);
        Some(block.first)
    }

    /// Takes the highest `count` free cells in a row, and answers the first of them. `None` if and only if there are none.
    pub(crate) fn take_high(&mut self, count: u32) -> Option<u32>
        requires some { 0 < count }
        ensures found { highest_free count self.old ≡ result }
        ensures taken { IfSome result (λ i. self.new ≡ marked false i count self.old) }
        ensures within { IfSome result (λ i. i + count ≤ length self.old) }
        ensures stays { IfNone result (self.new ≡ self.old) }
    {
        let Some(at) = highest(&self.blocks, count) else {
            return None;
        };
        let block = self.blocks[at];
        let rest = FreeBlock {
            first: block.first,
            count: block.count - count,
        };
        let first = block.first + rest.count;
        cut(&mut self.blocks, at, rest);
        Some(first)
    }

    /// Frees `count` cells from `first` on, as a block of their own or as a part of the blocks that they touch. False, and nothing
    /// changes, if and only if one of them is free already or isn't there.
    pub(crate) fn give(&mut self, first: u32, count: u32) -> bool
        requires some { 0 < count }
        requires fits { first + count < 2 ^ 32 }
        ensures taken { result ≡ begins_with false count (drop first self.old) }
        ensures many { length self.new ≡ length self.old }
        ensures given { self.new ≡ (if result then marked true first count self.old else self.old) }
    {
        let end = first + count;
        if end > self.cells {
            return false;
        }
        let gap = gap_at(&self.blocks, first, self.cells);
        if !gap.holds(first, end) {
            return false;
        }
        put(&mut self.blocks, gap, FreeBlock { first, count });
        true
    }

    /// How many cells are free.
    pub(crate) fn total(&self) -> u32
        ensures total { result ≡ count_by (λ c. c) self.now }
        ensures most { result ≤ length self.now }
    {
        count_of(&self.blocks)
    }

    /// The first block that begins at a cell or above. `None` if and only if there is none.
    pub(crate) fn block_from(&self, cell: u32) -> Option<FreeBlock>
        ensures found { (low a : ℕ) → (a - low + 7) / 8 ≡ cell → find (λ b. nat_le a b.0) (blocks_from low self.now) ≡ option_map (span_of low) result }
        ensures within { IfSome result (λ b. b.first + b.count ≤ length self.now) }
        ensures some { IfSome result (λ b. 0 < b.count) }
    {
        let at = place_of(&self.blocks, cell);
        if at < self.blocks.len() {
            Some(self.blocks[at])
        } else {
            None
        }
    }
}

impl Clone for FreeList {
    ghost is_clone = { λ v w. w ≡ v };

    fn clone(&self) -> Result<Self, AllocError> {
        let mut blocks = Vec::with_capacity(*self.blocks.allocator(), self.cells as usize / 2 + 1)?;
        blocks.extend_from_slice(&self.blocks)?;
        Ok(FreeList {
            cells: self.cells,
            blocks,
        })
    }
}

// Leaves of a block what wasn't taken of it, or nothing if all was.
#[tactic(auto, using(crate::proofs::Order::set_rest))]
fn cut(blocks: &mut Vec<FreeBlock>, at: usize, rest: FreeBlock)
    requires at_in { at < length blocks.old.items }
    ensures list { blocks.new.items ≡ take at blocks.old.items ++ unless_empty rest (drop (at + 1) blocks.old.items) }
    ensures capacity { vec_capacity blocks.new ≡ vec_capacity blocks.old }
{
    if rest.count == 0 {
        blocks.remove(at);
    } else {
        blocks[at] = rest;
    }
}

// Puts a block into a gap between the blocks. If it touches one of them, or two, there is one block in place of all.
fn put(blocks: &mut Vec<FreeBlock>, gap: Gap, block: FreeBlock)
    requires fits { (last : ℕ) × Fits blocks.old.items gap block (vec_capacity blocks.old) last }
    ensures given { (last : ℕ) → Fits blocks.old.items gap block (vec_capacity blocks.old) last → IsGiven blocks.old.items blocks.new.items block.first block.count last }
    ensures capacity { vec_capacity blocks.new ≡ vec_capacity blocks.old }
{
    let touches_before = block.first + 1 == gap.low;
    let touches_after = block.end() == gap.high;
    if touches_before {
        if touches_after {
            join_both(blocks, gap, block);
        } else {
            join_before(blocks, gap, block);
        }
    } else if touches_after {
        join_after(blocks, gap, block);
    } else {
        put_alone(blocks, gap, block);
    }
}

// Puts a block that touches none into a gap.
fn put_alone(blocks: &mut Vec<FreeBlock>, gap: Gap, block: FreeBlock)
    requires fits { (last : ℕ) × Fits blocks.old.items gap block (vec_capacity blocks.old) last }
    requires before { block.first + 1 ≢ gap.low }
    requires after { block.first + block.count ≢ gap.high }
    ensures given { (last : ℕ) → Fits blocks.old.items gap block (vec_capacity blocks.old) last → IsGiven blocks.old.items blocks.new.items block.first block.count last }
    ensures capacity { vec_capacity blocks.new ≡ vec_capacity blocks.old }
{
    blocks.insert(gap.at, block).unwrap();
}

// Joins a block with the one after it.
fn join_after(blocks: &mut Vec<FreeBlock>, gap: Gap, block: FreeBlock)
    requires fits { (last : ℕ) × Fits blocks.old.items gap block (vec_capacity blocks.old) last }
    requires before { block.first + 1 ≢ gap.low }
    requires after { block.first + block.count ≡ gap.high }
    ensures given { (last : ℕ) → Fits blocks.old.items gap block (vec_capacity blocks.old) last → IsGiven blocks.old.items blocks.new.items block.first block.count last }
    ensures capacity { vec_capacity blocks.new ≡ vec_capacity blocks.old }
{
    let after = blocks[gap.at];
    blocks[gap.at] = FreeBlock {
        first: block.first,
        count: block.count + after.count,
    };
}

// Joins a block with the one before it.
fn join_before(blocks: &mut Vec<FreeBlock>, gap: Gap, block: FreeBlock)
    requires fits { (last : ℕ) × Fits blocks.old.items gap block (vec_capacity blocks.old) last }
    requires before { block.first + 1 ≡ gap.low }
    requires after { block.first + block.count ≢ gap.high }
    ensures given { (last : ℕ) → Fits blocks.old.items gap block (vec_capacity blocks.old) last → IsGiven blocks.old.items blocks.new.items block.first block.count last }
    ensures capacity { vec_capacity blocks.new ≡ vec_capacity blocks.old }
{
    let before = blocks[gap.at - 1];
    blocks[gap.at - 1] = FreeBlock {
        first: before.first,
        count: before.count + block.count,
    };
}

// Joins a block with the ones before and after it.
fn join_both(blocks: &mut Vec<FreeBlock>, gap: Gap, block: FreeBlock)
    requires fits { (last : ℕ) × Fits blocks.old.items gap block (vec_capacity blocks.old) last }
    requires before { block.first + 1 ≡ gap.low }
    requires after { block.first + block.count ≡ gap.high }
    ensures given { (last : ℕ) → Fits blocks.old.items gap block (vec_capacity blocks.old) last → IsGiven blocks.old.items blocks.new.items block.first block.count last }
    ensures capacity { vec_capacity blocks.new ≡ vec_capacity blocks.old }
{
    let before = blocks[gap.at - 1];
    let after = blocks.remove(gap.at);
    blocks[gap.at - 1] = FreeBlock {
        first: before.first,
        count: before.count + block.count + after.count,
    };
}
