//! The files of a disk, read back by `lfs_layout`.

use crate::plain_files::PlainFile;
use lfs_layout::{CheckFault, CleanImage, repair};
use std::alloc::{AllocError, Global};

/// Whether a disk is clean and has just these files.
pub(crate) fn has_files(
    alloc: Global,
    disk: &[u8],
    files: &[PlainFile],
) -> Result<bool, AllocError> {
    match CleanImage::new(alloc, Vec::from_slice(alloc, disk)?) {
        Ok(image) => are_all(alloc, &image, files),
        Err(CheckFault::NoMemory) => Err(AllocError),
        Err(CheckFault::Broken(_)) => Ok(false),
    }
}

// Whether a clean image has just these files.
fn are_all(alloc: Global, image: &CleanImage, files: &[PlainFile]) -> Result<bool, AllocError> {
    if image.file_at(files.len()).is_some() {
        return Ok(false);
    }
    for file in files {
        if !is_there(alloc, image, file)? {
            return Ok(false);
        }
    }
    Ok(true)
}

/// Whether a disk in the middle of a call has these files, but that of a name. They are read off its repaired image, which keeps each
/// file whose chain is whole and that shares no block with another.
pub(crate) fn has_others(
    alloc: Global,
    disk: &[u8],
    files: &[PlainFile],
    name: &[u8; 28],
) -> Result<bool, AllocError> {
    match repair(alloc, disk) {
        Ok(repaired) => are_others(alloc, &repaired.image, files, name),
        Err(CheckFault::NoMemory) => Err(AllocError),
        Err(CheckFault::Broken(_)) => Ok(false),
    }
}

// Whether a clean image has these files, but that of a name.
fn are_others(
    alloc: Global,
    image: &CleanImage,
    files: &[PlainFile],
    name: &[u8; 28],
) -> Result<bool, AllocError> {
    for file in files {
        if file.name != *name && !is_there(alloc, image, file)? {
            return Ok(false);
        }
    }
    Ok(true)
}

// Whether a clean image has a file with these bytes.
fn is_there(alloc: Global, image: &CleanImage, file: &PlainFile) -> Result<bool, AllocError> {
    match image.read_file(alloc, text_of(&file.name)) {
        Ok(Some(bytes)) => Ok(bytes.as_slice() == file.bytes.as_slice()),
        Ok(None) => Ok(false),
        Err(_) => Err(AllocError),
    }
}

// A name without the zeros after it.
fn text_of(name: &[u8; 28]) -> &[u8] {
    for k in 0..28 {
        if name[k] == 0 {
            return &name[..k];
        }
    }
    name
}
