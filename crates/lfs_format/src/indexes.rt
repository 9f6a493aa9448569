//! Index blocks, seven in a disk block.

ghost use Rattle.std.specs.Prelude.{◌≡◌, ◌+◌, ◌*◌, ◌<◌, ◌++◌, drop, take, length, ℕ, ◌^◌, slice_index};
ghost use Rattle.lfs_format.specs.Indexes.{index_at, index_of, index_bytes, index_words, IsIndexPut};

use crate::Index;
use byteorder::{ByteOrder, LittleEndian};

/// The index block `k` of a disk block.
pub fn read_index(block: &[u8; 512], k: usize) -> Index
    requires { k < 7 }
    ensures { result ≡ index_at k block.now }
{
    index_from(&block[72 * k..72 * k + 72])
}

/// The index block in 72 bytes.
pub fn index_from(part: &[u8]) -> Index
    requires { length part.now ≡ 72 }
    ensures { result ≡ index_of part.now }
{
    let mut words = [0u32; 18];
    LittleEndian::read_u32_into(part, &mut words);
    let mut blocks = [0u32; 16];
    blocks.copy_from_slice(&words[2..]);
    Index {
        next: words[0],
        offset: words[1],
        blocks,
    }
}

/// Writes the index block `k` of a disk block, and changes nothing else of it.
pub fn write_index(index: &Index, block: &mut [u8; 512], k: usize)
    requires { k < 7 }
    ensures bytes { block.new ≡ take (72 * k) block.old ++ index_bytes index.now ++ drop (72 * k + 72) block.old }
    ensures back { index_at k block.new ≡ index.now }
    ensures put { IsIndexPut block.old k index.now block.new }
{
    put_index(index, &mut block[72 * k..72 * k + 72]);
}

// Fills 72 bytes with an index block.
#[tactic(auto, unfolding(crate::specs::Words::word_bytes))]
fn put_index(index: &Index, part: &mut [u8])
    requires { length part.old ≡ 72 }
    ensures bytes { part.new ≡ index_bytes index.now }
    ensures fits { (k : ℕ) → slice_index (index_words index.now) k < 2 ^ 32 }
    ensures len { length (index_words index.now) ≡ 18 }
{
    LittleEndian::write_u32_into(&words_of_index(index), part);
}

// The words of an index block in their order.
fn words_of_index(index: &Index) -> [u32; 18]
    ensures words { result ≡ index_words index.now }
    ensures len { length (index_words index.now) ≡ 18 }
{
    let mut words = [0u32; 18];
    words[0] = index.next;
    words[1] = index.offset;
    words[2..].copy_from_slice(&index.blocks);
    words
}
