//! What a disk holds, as a power cut left it.

ghost use Rattle.std.specs.Prelude.{◌≡◌, ◌≤◌, true, map, length, IfOk};
ghost use Rattle.files_c.specs.Judging.{has_bytes, holds, holds_file, holds_none, is_disk, judged, judgements, times_named};
ghost use Rattle.lfs_check.specs.Disks.{is_this};
ghost use Rattle.lfs_layout.specs.Files.{found, padded_name, placed_files};

use crate::spans::{is_span, span};
use lfs_check::{Geometry, dirs_of, entry_is_used, read_directory, size_fault};
use lfs_format::Entry;
use lfs_layout::{CleanImage, is_file_name, repair, repaired_images_hold_the_kept_files};
use std::alloc::Global;
use xinu_base::NoMemory;

/// A file that was at rest when the power was cut. Its name and its bytes lie among other bytes.
#[repr(C)]
#[derive(Clone, Copy)]
pub struct FileAtRest {
    /// Where its name begins, and how many bytes it has, 1 to 27.
    pub name: u32,
    pub name_bytes: u32,
    /// Whether there is such a file; 0: there is none.
    pub exists: u32,
    /// Where its bytes begin, and how many there are.
    pub at: u32,
    pub bytes: u32,
}

/// Whether bytes are a disk with files: whole blocks, 14 to 65542, and the mark of version 2.
pub(crate) fn is_disk(disk: &[u8]) -> bool
    ensures disk { result ≡ is_disk disk.now }
{
    if dirs_of(disk) != 6 || disk.len() > 65542 * 512 {
        return false;
    }
    let blocks = (disk.len() / 512) as u32;
    size_fault(Geometry { dirs: 6, blocks }, disk).is_none()
}

/// Judges each file.
///
/// # Errors
///
/// Out of memory.
pub(crate) fn judge(
    alloc: Global,
    disk: &[u8],
    files: &[FileAtRest],
    texts: &[u8],
) -> Result<Vec<u32>, NoMemory>
    requires disk { is_disk disk.now ≡ true }
    ensures judged { IfOk result (λ v. v.items ≡ judgements disk.now texts.now files.now) }
{
    let blocks = (disk.len() / 512) as u32;
    let Ok(directory) = read_directory(alloc, Geometry { dirs: 6, blocks }, disk) else {
        return Err(NoMemory);
    };
    let Ok(repaired) = repair(alloc, disk) else {
        return Err(NoMemory);
    };
    repaired_images_hold_the_kept_files();
    judge_all(alloc, &repaired.image, &directory.entries, files, texts)
}

// Judges each file, by the entries of the disk and its repaired image.
fn judge_all(
    alloc: Global,
    image: &CleanImage,
    entries: &[Entry],
    files: &[FileAtRest],
    texts: &[u8],
) -> Result<Vec<u32>, NoMemory>
    ensures judged { IfOk result (λ v. v.items ≡ map (judged (placed_files image.now) entries.now texts.now) files.now) }
{
    let mut judged = Vec::new(alloc);
    for file in files {
        let holds = is_held(alloc, image, entries, *file, texts)?;
        if judged.push(holds as u32).is_err() {
            return Err(NoMemory);
        }
    }
    Ok(judged)
}

// Whether a file is held, or isn't there, as it is said.
fn is_held(
    alloc: Global,
    image: &CleanImage,
    entries: &[Entry],
    file: FileAtRest,
    texts: &[u8],
) -> Result<bool, NoMemory>
    ensures holds { IfOk result (λ b. b ≡ holds (placed_files image.now) entries.now texts.now file) }
{
    if !is_span(texts, file.name, file.name_bytes) {
        return Ok(false);
    }
    if !is_span(texts, file.at, file.bytes) {
        return Ok(false);
    }
    let text = span(texts, file.name, file.name_bytes);
    if file.exists == 0 {
        return Ok(is_absent(entries, text));
    }
    let bytes = span(texts, file.at, file.bytes);
    let there = is_there(alloc, image, entries, text, bytes)?;
    Ok(there)
}

// Whether no entry has the name of a text.
fn is_absent(entries: &[Entry], text: &[u8]) -> bool
    ensures absent { result ≡ holds_none entries.now text.now }
{
    is_file_name(text) && times_named(entries, &padded(text)) == 0
}

// Whether exactly one entry has the name of a text, and its file is kept with these bytes.
fn is_there(
    alloc: Global,
    image: &CleanImage,
    entries: &[Entry],
    text: &[u8],
    bytes: &[u8],
) -> Result<bool, NoMemory>
    ensures there { IfOk result (λ b. b ≡ holds_file (placed_files image.now) entries.now text.now bytes.now) }
{
    if !is_file_name(text) {
        return Ok(false);
    }
    if times_named(entries, &padded(text)) != 1 {
        return Ok(false);
    }
    let same = has_bytes(alloc, image, text, bytes)?;
    Ok(same)
}

// Whether the file of a name has these bytes.
fn has_bytes(alloc: Global, image: &CleanImage, text: &[u8], bytes: &[u8]) -> Result<bool, NoMemory>
    ensures same { IfOk result (λ b. b ≡ has_bytes (found text.now (placed_files image.now)) bytes.now) }
{
    match image.read_file(alloc, text)? {
        Some(found) => Ok(found.as_slice() == bytes),
        None => Ok(false),
    }
}

// How many used entries have a name.
fn times_named(entries: &[Entry], name: &[u8; 28]) -> usize
    ensures times { result ≡ times_named name.now entries.now }
{
    entries.iter().filter(|entry| is_this(entry, name)).count()
}

// Whether a used entry has a name.
fn is_this(entry: &Entry, name: &[u8; 28]) -> bool
    ensures this { result ≡ is_this name.now entry.now }
{
    entry_is_used(entry) && entry.name == *name
}

// A name with zeros up to 28 bytes.
fn padded(text: &[u8]) -> [u8; 28]
    requires short { length text.now ≤ 28 }
    ensures padded { result ≡ padded_name text.now }
{
    let mut padded = [0; 28];
    padded[..text.len()].copy_from_slice(text);
    padded
}
