//! The file system of a clean image.

ghost use Rattle.std.specs.Prelude.{◌≡◌, ◌/◌, ◌≤◌, IfOk, None, length, replicate, slice_get};
ghost use Rattle.file_laws.specs.StoredFiles.{stored_files};
ghost use Rattle.lfs_layout.specs.Images.{IsCleanImage};
ghost use Rattle.xinu_model.specs.Files.Systems.{closed_system};
ghost use Rattle.xinu_model.specs.RawDisk.Constants.{RD_BLKSIZ};

use crate::bytes::copied;
use lfs_layout::CleanImage;
use reference_state::{FileSystem, OpenFile, StoredFile};
use reference_tables::push;
use std::alloc::Global;
use xinu_base::NoMemory;

// How many files an image has at most.
const MOST_FILES: usize = 78;

/// The file system of an image: its files in the order of their names, on as many blocks as it has. No file is open.
///
/// # Errors
/// `NoMemory`.
pub fn file_system_of(alloc: Global, image: &CleanImage) -> Result<FileSystem, NoMemory>
    ensures system { IfOk result (λ s. s ≡ closed_system (length image.now / RD_BLKSIZ) (stored_files image.now)) }
    ensures most { IfOk result (λ s. s.blocks ≤ 65542) }
    ensures clean { IsCleanImage image.now }
{
    // The bytes of the image break no rule.
    let _bytes = image.bytes();
    let files = files_of(alloc, image)?;
    let devices = closed_devices(alloc)?;
    Ok(FileSystem {
        blocks: image.blocks(),
        files,
        devices,
    })
}

// The files of an image in the order of their names.
fn files_of(alloc: Global, image: &CleanImage) -> Result<Vec<StoredFile>, NoMemory>
    requires clean { IsCleanImage image.now }
    ensures files { IfOk result (λ l. l.items ≡ stored_files image.now) }
{
    let mut files = Vec::new(alloc);
    for k in 0..MOST_FILES {
        let Some(file) = file_at(alloc, image, k)? else {
            return Ok(files);
        };
        push(&mut files, file)?;
    }
    Ok(files)
}

// The file at a place in the order of names, counted from 0, if there is one.
fn file_at(alloc: Global, image: &CleanImage, k: usize) -> Result<Option<StoredFile>, NoMemory>
    requires clean { IsCleanImage image.now }
    ensures file { IfOk result (λ o. o ≡ slice_get (stored_files image.now) k) }
{
    let Some((name, _)) = image.file_at(k) else {
        return Ok(None);
    };
    let bytes = image.read_file(alloc, name.as_slice())?.unwrap();
    Ok(Some(StoredFile {
        name: copied(alloc, name.as_slice())?,
        bytes,
    }))
}

// The file devices, none of which has a file open.
fn closed_devices(alloc: Global) -> Result<Vec<Option<OpenFile>>, NoMemory>
    ensures closed { IfOk result (λ l. l.items ≡ replicate 6 None) }
{
    Vec::from_array(alloc, [None, None, None, None, None, None]).map_err(|_| NoMemory)
}
