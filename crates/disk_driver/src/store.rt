//! The blocks of a disk, one after another in one run of bytes.

ghost use Rattle.std.specs.Prelude.{◌≡◌, ◌↔◌, IsTrue, ◌<◌, ◌≤◌, [], length, slice_index_or, slice_set, true};
ghost use Rattle.std.specs.List.{concat};
ghost use Rattle.lfs_layout.specs.Images.{blocks_of, is_raw};

use lfs_layout::RawImage;
use std::marker::Model;

/// Blocks of 512 bytes each, 8 to 65,536 of them.
#[derive(Clone, Drop)]
pub(crate) struct Blocks {
    bytes: Vec<u8>,
}

impl Model for Blocks {
    ghost use Rattle.std.specs.Prelude.{◌≡◌, ℕ, List, true};
    ghost use Rattle.lfs_layout.specs.Images.{blocks_of, is_raw};

    ghost Value = { List (List ℕ) };

    ghost view = { λ b. blocks_of b.bytes.items };

    ghost invariant = { λ b. is_raw b.bytes.items ≡ true };
}

impl Blocks {
    // The blocks of an image.
    pub(crate) fn new(image: RawImage) -> Self
        ensures cut { result ≡ blocks_of image }
    {
        Blocks {
            bytes: image.into_bytes(),
        }
    }

    // Whether others have the same bytes.
    pub(crate) fn equals(&self, other: &Self) -> bool
        ensures equal { IsTrue result ↔ (self.now ≡ other.now) }
    {
        self.bytes.as_slice() == other.bytes.as_slice()
    }

    // How many there are.
    #[tactic(auto, using(crate::proofs::Chunks::length_chunks))]
    pub(crate) fn count(&self) -> u32
        ensures count { result ≡ length self.now }
        ensures least { 8 ≤ result }
        ensures most { result ≤ 65536 }
    {
        (self.bytes.len() / 512) as u32
    }

    // The bytes of a block.
    #[tactic(auto, using(crate::proofs::Chunks::length_chunks, crate::proofs::Chunks::chunk_at))]
    pub(crate) fn get(&self, n: u32) -> &[u8]
        requires within { n < length self.now }
        ensures block { result.now ≡ slice_index_or self.now n [] }
        ensures size { length result.now ≡ 512 }
    {
        let at = 512 * n as usize;
        &self.bytes[at..at + 512]
    }

    // A block gets other bytes.
    pub(crate) fn set(&mut self, n: u32, block: &[u8; 512])
        requires within { n < length self.old }
        ensures set { self.new ≡ slice_set self.old n block.now }
    {
        put_block(&mut self.bytes, n, block);
    }

    // All bytes.
    #[tactic(auto, using(crate::proofs::Cuts::blocks_joined))]
    pub(crate) fn bytes(&self) -> &[u8]
        ensures bytes { result.now ≡ concat self.now }
    {
        &self.bytes
    }
}

// A block of some bytes gets others.
#[tactic(auto, using(crate::proofs::Chunks::length_chunks))]
fn put_block(bytes: &mut [u8], n: u32, block: &[u8; 512])
    requires raw { is_raw bytes.old ≡ true }
    requires within { n < length (blocks_of bytes.old) }
    ensures set { blocks_of bytes.new ≡ slice_set (blocks_of bytes.old) n block.now }
    ensures raw { is_raw bytes.new ≡ true }
    ensures len { length bytes.new ≡ length bytes.old }
{
    let at = 512 * n as usize;
    bytes[at..at + 512].copy_from_slice(block);
}
