//! Copies of disks.

ghost use Rattle.std.specs.Prelude.{◌≡◌, IfOk};

use lfs_layout::{CheckFault, CleanImage, RawImage};
use std::alloc::Global;
use xinu_base::NoMemory;

/// A copy of a disk without files.
///
/// # Errors
/// `NoMemory`.
pub(crate) fn copy_raw(alloc: Global, disk: &RawImage) -> Result<RawImage, NoMemory>
    ensures copy { IfOk result (λ copy. copy ≡ disk.now) }
{
    let Ok(bytes) = Vec::from_slice(alloc, disk.bytes()) else {
        return Err(NoMemory);
    };
    match RawImage::new(bytes) {
        Ok(copy) => Ok(copy),
        Err(_) => unreachable!(),
    }
}

/// A copy of a disk with files.
///
/// # Errors
/// `NoMemory`.
pub(crate) fn copy_clean(alloc: Global, disk: &CleanImage) -> Result<CleanImage, NoMemory>
    ensures copy { IfOk result (λ copy. copy ≡ disk.now) }
{
    let Ok(bytes) = Vec::from_slice(alloc, disk.bytes()) else {
        return Err(NoMemory);
    };
    match CleanImage::new(alloc, bytes) {
        Ok(copy) => Ok(copy),
        Err(CheckFault::NoMemory) => Err(NoMemory),
        Err(CheckFault::Broken(_)) => unreachable!(),
    }
}
