//! The raw disk of an image.

ghost use Rattle.std.specs.Prelude.{◌≡◌, ◌/◌, ◌≤◌, [], IfOk, length, true};
ghost use Rattle.std.specs.Simd.{first_chunks};
ghost use Rattle.lfs_layout.specs.Images.{is_raw};
ghost use Rattle.xinu_model.specs.RawDisk.Constants.{RD_BLKSIZ};

use crate::bytes::copied;
use lfs_layout::RawImage;
use reference_state::{Bytes, RawDisk};
use reference_tables::push;
use std::alloc::Global;
use xinu_base::NoMemory;

// How many bytes a block has.
const BLOCK: usize = 512;

/// The raw disk of an image: its blocks in their order, and no request.
///
/// # Errors
/// `NoMemory`.
pub fn raw_disk_of(alloc: Global, image: &RawImage) -> Result<RawDisk, NoMemory>
    ensures blocks { IfOk result (λ d. d.blocks ≡ first_chunks RD_BLKSIZ (length image.now / RD_BLKSIZ) image.now) }
    ensures idle { IfOk result (λ d. d.requests ≡ []) }
    ensures raw { is_raw image.now ≡ true }
{
    let blocks = blocks_of(alloc, image.bytes())?;
    Ok(RawDisk {
        blocks,
        requests: Vec::new(alloc),
    })
}

// Whole blocks of bytes, one after another.
fn blocks_of(alloc: Global, bytes: &[u8]) -> Result<Vec<Bytes>, NoMemory>
    requires most { length bytes.now ≤ 33554432 }
    ensures blocks { IfOk result (λ l. l.items ≡ first_chunks RD_BLKSIZ (length bytes.now / RD_BLKSIZ) bytes.now) }
    ensures count { IfOk result (λ l. length l.items ≡ length bytes.now / RD_BLKSIZ) }
{
    let mut blocks = Vec::new(alloc);
    for n in 0..bytes.len() / BLOCK {
        let at = BLOCK * n;
        let block = copied(alloc, &bytes[at..at + BLOCK])?;
        push(&mut blocks, Bytes { bytes: block })?;
    }
    Ok(blocks)
}
