//! Clean images: disks with files on which no rule is broken.

ghost use Rattle.std.specs.Prelude.{◌≡◌, ◌+◌, ◌/◌, ◌≤◌, [], true, false, None, Some, length, List, ℕ, IfOk, MatchOption, MatchResult, not, nat_eq, nat_lt, is_some, slice_get};
ghost use Rattle.std.specs.List.{list_all};
ghost use Rattle.lfs_check.specs.Fields.{is_version_2};
ghost use Rattle.lfs_check.specs.Faults.{fault, Refuses};
ghost use Rattle.lfs_layout.specs.Files.{files_of, placed_files, with_set, have_room, is_text, padded_name, found, listing};
ghost use Rattle.lfs_layout.specs.Made.{image_with, all_files, geometry_2};
ghost use Rattle.lfs_layout.specs.Images.{IsCleanImage, opened, Puts};

use crate::builder::build;
use crate::files::{NamedFile, have_room};
use crate::listing;
use crate::reading::{read_files, read_named, read_others};
use arrayvec::ArrayVec;
use lfs_check::{CheckFault, Geometry, check, dirs_of};
use std::alloc::{AllocError, Global};
use std::marker::Model;
use xinu_base::NoMemory;

/// An image of version 2 that breaks no rule. A clause sees the bytes.
#[derive(Drop)]
pub struct CleanImage {
    bytes: Vec<u8>,
}

impl Model for CleanImage {
    ghost Value = { List ℕ };

    ghost view = { λ c. c.bytes.items };

    ghost invariant = { λ c. IsCleanImage c.bytes.items };
}

impl CleanImage {
    /// Checks the bytes of an image, and takes them. An image of version 1 is made anew in version 2 with six blocks more: its
    /// files keep their order, and each takes the lowest free blocks.
    ///
    /// # Errors
    ///
    /// `Broken` with the lowest rule that the image breaks and its lowest block, if and only if it breaks one; `NoMemory` out of
    /// memory. The bytes are dropped.
    pub fn new(alloc: Global, bytes: Vec<u8>) -> Result<CleanImage, CheckFault>
        ensures image { MatchResult result (λ c. (fault bytes.items ≡ None) × (c ≡ opened bytes.items)) (λ e. Refuses (fault bytes.items) e) }
        ensures files { IfOk result (λ c. files_of c ≡ files_of bytes.items) }
    {
        let _report = check(alloc, &bytes)?;
        open(alloc, bytes)
    }

    /// The clean image that was made.
    pub(crate) fn made(bytes: Vec<u8>) -> CleanImage
        requires { IsCleanImage bytes.items }
        ensures { result ≡ bytes.items }
    {
        CleanImage { bytes }
    }

    /// An image of so many blocks without files. `blocks` is at least 14 and at most 65,542.
    ///
    /// # Errors
    ///
    /// `NoMemory` out of memory.
    pub fn empty(alloc: Global, blocks: u32) -> Result<CleanImage, NoMemory>
        requires low { 14 ≤ blocks }
        requires high { blocks ≤ 65542 }
        ensures image { IfOk result (λ c. c ≡ image_with blocks []) }
        ensures files { IfOk result (λ c. files_of c ≡ []) }
    {
        match build(alloc, blocks, &[]) {
            Ok(bytes) => Ok(CleanImage { bytes }),
            Err(_) => Err(NoMemory),
        }
    }

    /// Sets a file: the image is made anew with this file after the others, in the place of one that has its name. It answers
    /// whether there is room for it; if not, the image stays as it was.
    ///
    /// The name has 1 to 27 non-zero bytes.
    ///
    /// # Errors
    ///
    /// `NoMemory` out of memory; the image stays as it was.
    pub fn put_file(&mut self, alloc: Global, name: &[u8], bytes: &[u8]) -> Result<bool, NoMemory>
        requires { is_text name.now ≡ true }
        ensures { Puts self.old self.new (record { name = padded_name name.now; bytes = bytes.now }) result }
    {
        match replaced(alloc, &self.bytes, name, bytes) {
            Ok(Some(image)) => {
                self.bytes = image;
                Ok(true)
            }
            Ok(None) => Ok(false),
            Err(_) => Err(NoMemory),
        }
    }

    /// Name and size in bytes of the `k`-th file in the order of names, from 0; `None` if and only if `k` isn't below the number
    /// of files. The name is without the zeros after it.
    pub fn file_at(&self, k: usize) -> Option<(ArrayVec<u8, 27>, u32)>
        ensures file { MatchOption result (slice_get (listing (files_of self.now)) k ≡ None) (λ f. slice_get (listing (files_of self.now)) k ≡ Some (f.0.items, f.1)) }
        ensures within { is_some result ≡ nat_lt k (length (files_of self.now)) }
    {
        listing::file_at(&self.bytes, k)
    }

    /// The bytes of the file of a name; `None` if and only if the image has no such file.
    ///
    /// # Errors
    ///
    /// `NoMemory` out of memory.
    pub fn read_file(&self, alloc: Global, name: &[u8]) -> Result<Option<Vec<u8>>, NoMemory>
        ensures { IfOk result (λ o. MatchOption o (found name.now (placed_files self.now) ≡ None) (λ v. found name.now (placed_files self.now) ≡ Some v.items)) }
    {
        match find(alloc, &self.bytes, name) {
            Ok(bytes) => Ok(bytes),
            Err(_) => Err(NoMemory),
        }
    }

    /// The bytes of the image, which have version 2 and break no rule.
    pub fn bytes(&self) -> &[u8]
        ensures bytes { result.now ≡ self.now }
        ensures clean { IsCleanImage self.now }
    {
        &self.bytes
    }

    /// The bytes of the image, which is used up. They have version 2 and break no rule.
    pub fn into_bytes(self) -> Vec<u8>
        ensures bytes { result.items ≡ self }
        ensures clean { IsCleanImage self }
    {
        let CleanImage { bytes } = self;
        bytes
    }

    /// How many blocks the image has.
    pub fn blocks(&self) -> u32
        ensures { result ≡ length self.now / 512 }
    {
        (self.bytes.len() / 512) as u32
    }
}

/// Whether a text can be the name of a file: 1 to 27 non-zero bytes.
pub fn is_file_name(name: &[u8]) -> bool
    ensures { result ≡ is_text name.now }
{
    0 < name.len() && name.len() <= 27 && has_no_zero(name)
}

// Whether no byte is zero.
fn has_no_zero(bytes: &[u8]) -> bool
    ensures { result ≡ list_all (λ b. not (nat_eq b 0)) bytes.now }
{
    bytes.iter().all(|b| *b != 0)
}

// The bytes of the file of a name, if there is one.
fn find(alloc: Global, image: &[u8], name: &[u8]) -> Result<Option<Vec<u8>>, AllocError>
    requires clean { IsCleanImage image.now }
    ensures { IfOk result (λ o. MatchOption o (found name.now (placed_files image.now) ≡ None) (λ v. found name.now (placed_files image.now) ≡ Some v.items)) }
{
    if !is_file_name(name) {
        return Ok(None);
    }
    let blocks = (image.len() / 512) as u32;
    let bytes = read_named(alloc, Geometry { dirs: 6, blocks }, image, &pad(name))?;
    Ok(bytes)
}

// The image with a file set, if there is room for it.
fn replaced(
    alloc: Global,
    image: &[u8],
    name: &[u8],
    bytes: &[u8],
) -> Result<Option<Vec<u8>>, AllocError>
    requires clean { IsCleanImage image.now }
    requires name { is_text name.now ≡ true }
    ensures { IfOk result (λ o. MatchOption o
        (have_room (geometry_2 (length image.now / 512)) (with_set (record { name = padded_name name.now; bytes = bytes.now }) (placed_files image.now)) ≡ false)
        (λ v. (have_room (geometry_2 (length image.now / 512)) (with_set (record { name = padded_name name.now; bytes = bytes.now }) (placed_files image.now)) ≡ true)
        × (v.items ≡ image_with (length image.now / 512) (with_set (record { name = padded_name name.now; bytes = bytes.now }) (placed_files image.now))))) }
{
    let blocks = (image.len() / 512) as u32;
    let files = files_with(alloc, blocks, image, name, bytes)?;
    if have_room(blocks, &files) {
        let made = build(alloc, blocks, &files)?;
        Ok(Some(made))
    } else {
        Ok(None)
    }
}

// The files of a clean image with a file set.
fn files_with(
    alloc: Global,
    blocks: u32,
    image: &[u8],
    name: &[u8],
    bytes: &[u8],
) -> Result<Vec<NamedFile>, AllocError>
    requires clean { IsCleanImage image.now }
    requires blocks { blocks ≡ length image.now / 512 }
    requires name { is_text name.now ≡ true }
    ensures { IfOk result (λ v. all_files v.items ≡ with_set (record { name = padded_name name.now; bytes = bytes.now }) (placed_files image.now)) }
{
    let name = pad(name);
    let mut files = read_others(alloc, Geometry { dirs: 6, blocks }, image, &name)?;
    let bytes = Vec::from_slice(alloc, bytes)?;
    files.push(NamedFile { name, bytes })?;
    Ok(files)
}

// A name with zeros up to 28 bytes.
fn pad(name: &[u8]) -> [u8; 28]
    requires { length name.now ≤ 28 }
    ensures { result ≡ padded_name name.now }
{
    let mut padded = [0u8; 28];
    padded[..name.len()].copy_from_slice(name);
    padded
}

// A clean image, as it is worked on.
fn open(alloc: Global, bytes: Vec<u8>) -> Result<CleanImage, CheckFault>
    requires { fault bytes.items ≡ None }
    ensures image { MatchResult result (λ c. c ≡ opened bytes.items) (λ e. Refuses (fault bytes.items) e) }
{
    if dirs_of(&bytes) == 6 {
        return Ok(CleanImage { bytes });
    }
    let bytes = migrate(alloc, &bytes)?;
    Ok(CleanImage { bytes })
}

// The image of version 2 with the files of an image of version 1.
fn migrate(alloc: Global, bytes: &[u8]) -> Result<Vec<u8>, AllocError>
    requires faultless { fault bytes.now ≡ None }
    requires version { is_version_2 bytes.now ≡ false }
    ensures { IfOk result (λ v. v.items ≡ image_with (length bytes.now / 512 + 6) (placed_files bytes.now)) }
{
    let blocks = (bytes.len() / 512) as u32;
    let files = read_files(alloc, Geometry { dirs: 1, blocks }, bytes)?;
    build(alloc, blocks + 6, &files)
}
