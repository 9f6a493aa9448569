//! Copies of disks.

ghost use Rattle.std.specs.Prelude.{◌≡◌, IfOk};

use lfs_check::CheckFault;
use lfs_layout::{CleanImage, RawImage};
use std::alloc::Global;
use xinu_base::NoMemory;

/// A raw disk of the same bytes.
///
/// # Errors
/// `NoMemory`.
pub(crate) fn raw_copy(alloc: Global, disk: &RawImage) -> Result<RawImage, NoMemory>
    ensures copy { IfOk result (λ copy. copy ≡ disk.now) }
{
    let Ok(bytes) = Vec::from_slice(alloc, disk.bytes()) else {
        return Err(NoMemory);
    };
    match RawImage::new(bytes) {
        Ok(copy) => Ok(copy),
        Err(_) => unreachable!(),
    }
}

/// A disk with files of the same bytes.
///
/// # Errors
/// `NoMemory`.
pub(crate) fn clean_copy(alloc: Global, disk: &CleanImage) -> Result<CleanImage, NoMemory>
    ensures copy { IfOk result (λ copy. copy ≡ disk.now) }
{
    let Ok(bytes) = Vec::from_slice(alloc, disk.bytes()) else {
        return Err(NoMemory);
    };
    match CleanImage::new(alloc, bytes) {
        Ok(copy) => Ok(copy),
        Err(CheckFault::Broken(_)) => unreachable!(),
        Err(CheckFault::NoMemory) => Err(NoMemory),
    }
}
