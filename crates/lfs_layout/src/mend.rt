//! Repair: the image that is made of the files that can be kept.

ghost use Rattle.std.specs.Prelude.{◌≡◌, ◌+◌, ◌≤◌, None, length, count_by, IfOk, MatchResult, if◌then◌else◌, ◌==◌};
ghost use Rattle.lfs_check.specs.Rules.{entry_is_used, rule_0};
ghost use Rattle.lfs_check.specs.Fields.{geometry_of, fields_of, directory_entries};
ghost use Rattle.lfs_check.specs.Faults.{named, Refuses};
ghost use Rattle.lfs_check.specs.Kept.{kept_entries};
ghost use Rattle.lfs_layout.specs.Images.{repaired};

use crate::builder::build;
use crate::clean_image::CleanImage;
use crate::reading::read_entries;
use lfs_check::{
    CheckFault, DiskFault, Fields, Geometry, dirs_of, kept_entries, read_directory, read_indexes,
    read_nexts, size_fault, used_count,
};
use std::alloc::{AllocError, Global};

/// A repaired image, how many entries were kept, and how many used entries were not.
#[derive(Drop)]
pub struct Repaired {
    pub image: CleanImage,
    pub kept: u32,
    pub dropped: u32,
}

/// Makes a clean image of version 2 of the files of an image that can be kept. It has as many blocks, and six more if the image
/// had version 1.
///
/// A used entry is whole if its name and size can be, its chain is just what its size needs and no block is met twice in it. A
/// whole entry is kept unless one before it has its name, or another shares one of its blocks.
///
/// # Errors
///
/// `Broken` with rule 0 if and only if the image breaks it; `NoMemory` out of memory.
pub fn repair(alloc: Global, bytes: &[u8]) -> Result<Repaired, CheckFault>
    ensures image { MatchResult result (λ r. (rule_0 (geometry_of bytes.now) bytes.now ≡ None) × (r.image ≡ repaired bytes.now)) (λ e. Refuses (named 0 (rule_0 (geometry_of bytes.now) bytes.now)) e) }
    ensures kept { IfOk result (λ r. r.kept ≡ length (kept_entries (geometry_of bytes.now) (fields_of (geometry_of bytes.now) bytes.now).indexes (directory_entries (geometry_of bytes.now) bytes.now))) }
    ensures dropped { IfOk result (λ r. r.kept + r.dropped ≡ count_by entry_is_used (directory_entries (geometry_of bytes.now) bytes.now)) }
{
    let dirs = dirs_of(bytes);
    if bytes.len() > 65542 * 512 {
        return Err(CheckFault::Broken(DiskFault { block: 0, rule: 0 }));
    }
    let blocks = (bytes.len() / 512) as u32;
    let geometry = Geometry { dirs, blocks };
    match size_fault(geometry, bytes) {
        Some(block) => Err(CheckFault::Broken(DiskFault { block, rule: 0 })),
        None => Ok(rebuild(alloc, geometry, bytes)?),
    }
}

// The image that is made of the files of the kept entries.
fn rebuild(alloc: Global, geometry: Geometry, bytes: &[u8]) -> Result<Repaired, AllocError>
    requires geometry { geometry ≡ geometry_of bytes.now }
    requires size { rule_0 (geometry_of bytes.now) bytes.now ≡ None }
    ensures image { IfOk result (λ r. r.image ≡ repaired bytes.now) }
    ensures kept { IfOk result (λ r. r.kept ≡ length (kept_entries (geometry_of bytes.now) (fields_of (geometry_of bytes.now) bytes.now).indexes (directory_entries (geometry_of bytes.now) bytes.now))) }
    ensures dropped { IfOk result (λ r. r.kept + r.dropped ≡ count_by entry_is_used (directory_entries (geometry_of bytes.now) bytes.now)) }
{
    let directory = read_directory(alloc, geometry, bytes)?;
    let indexes = read_indexes(alloc, geometry, bytes)?;
    let nexts = read_nexts(alloc, &indexes)?;
    let fields = Fields {
        geometry,
        indexes: indexes.as_slice(),
        nexts: nexts.as_slice(),
    };
    let entries = kept_entries(alloc, &fields, &directory.entries)?;
    let files = read_entries(alloc, &fields, bytes, &entries)?;
    let image = build(alloc, repaired_blocks(geometry), &files)?;
    let kept = entries.len();
    let used = used_count(&directory.entries);
    Ok(Repaired {
        image: CleanImage::made(image),
        kept: kept as u32,
        dropped: (used - kept) as u32,
    })
}

// How many blocks the repaired image has.
fn repaired_blocks(geometry: Geometry) -> u32
    requires { geometry.blocks ≤ 65542 }
    ensures { result ≡ geometry.blocks + (if geometry.dirs == 6 then 0 else 6) }
{
    if geometry.dirs == 6 {
        geometry.blocks
    } else {
        geometry.blocks + 6
    }
}
