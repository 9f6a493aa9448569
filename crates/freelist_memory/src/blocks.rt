//! Free blocks by cells, and the searches over a list of them.
//!
//! A search walks the list once; none takes memory.

ghost use Rattle.std.specs.Prelude.{◌≡◌, ℕ, ◌+◌, ◌<◌, ◌≤◌, ◌&&◌, nat_le, length, IfNone, IfSome, sum_by, ◌^◌};
ghost use Rattle.freelist_memory.specs.Blocks.{block_at};
ghost use Rattle.freelist_memory.specs.Gaps.{ceiling_at, floor_at};
ghost use Rattle.freelist_memory.specs.Searches.{AreBelow, AreShort, IsHighest, IsLowest};

/// A free block: cells in a row, all free.
#[derive(Clone, Copy, PartialEq)]
pub(crate) struct FreeBlock {
    /// Its first cell.
    pub(crate) first: u32,
    /// How many cells it has.
    pub(crate) count: u32,
}

impl FreeBlock {
    /// The cell after its last.
    pub(crate) fn end(&self) -> u32
        requires fits { self.now.first + self.now.count < 2 ^ 32 }
        ensures end { result ≡ self.now.first + self.now.count }
    {
        self.first + self.count
    }
}

/// The place of the first block that has `count` cells. `None` if and only if none has.
pub(crate) fn lowest(blocks: &[FreeBlock], count: u32) -> Option<usize>
    ensures found { IfSome result (λ i. IsLowest count blocks.now i) }
    ensures none { IfNone result (AreShort count blocks.now) }
{
    for (i, block) in blocks.iter().enumerate() {
        if block.count >= count {
            return Some(i);
        }
    }
    None
}

/// The place of the last block that has `count` cells. `None` if and only if none has.
pub(crate) fn highest(blocks: &[FreeBlock], count: u32) -> Option<usize>
    ensures found { IfSome result (λ i. IsHighest count blocks.now i) }
    ensures none { IfNone result (AreShort count blocks.now) }
{
    for i in (0..blocks.len()).rev() {
        if blocks[i].count >= count {
            return Some(i);
        }
    }
    None
}

/// How many blocks, from the first on, begin below a cell.
pub(crate) fn place_of(blocks: &[FreeBlock], cell: u32) -> usize
    ensures below { AreBelow cell blocks.now result }
{
    for (i, block) in blocks.iter().enumerate() {
        if block.first >= cell {
            return i;
        }
    }
    blocks.len()
}

/// A place between the blocks of a list, and the room there.
#[derive(Clone, Copy)]
pub(crate) struct Gap {
    /// How many blocks are before it.
    pub(crate) at: usize,
    /// The least cell at which a block doesn't touch the one before it.
    pub(crate) low: u32,
    /// The first cell of the block after it, or one that is past all.
    pub(crate) high: u32,
}

impl Gap {
    /// Whether the cells from one up to another are between the blocks.
    pub(crate) fn holds(&self, first: u32, end: u32) -> bool
        requires fits { first + 1 < 2 ^ 32 }
        ensures holds { result ≡ nat_le self.now.low (first + 1) && nat_le end self.now.high }
    {
        self.low <= first + 1 && end <= self.high
    }
}

/// The place of a cell between the blocks: after those that begin below it. There are `cells` cells.
pub(crate) fn gap_at(blocks: &[FreeBlock], cell: u32, cells: u32) -> Gap
    requires few { cells + 1 < 2 ^ 32 }
    requires ends { (i : ℕ) → i < length blocks.now → (block_at blocks.now i).first + (block_at blocks.now i).count ≤ cells }
    ensures place { AreBelow cell blocks.now result.at }
    ensures low { result.low ≡ floor_at result.at blocks.now }
    ensures high { result.high ≡ ceiling_at result.at blocks.now (cells + 1) }
{
    let at = place_of(blocks, cell);
    let low = if at == 0 { 0 } else { blocks[at - 1].end() + 1 };
    let high = if at < blocks.len() {
        blocks[at].first
    } else {
        cells + 1
    };
    Gap { at, low, high }
}

/// How many cells the blocks have.
pub(crate) fn count_of(blocks: &[FreeBlock]) -> u32
    requires few { sum_by (λ b. b.count) blocks.now < 2 ^ 32 }
    ensures sum { result ≡ sum_by (λ b. b.count) blocks.now }
{
    blocks.iter().map(|block| block.count).sum()
}
