//! The files of an image, read off its bytes.

ghost use Rattle.std.specs.Prelude.{◌≡◌, ◌*◌, ◌≤◌, ◌++◌, length, IfOk, OnOk, MatchOption, None, Some};
ghost use Rattle.std.specs.List.{flat_map};
ghost use Rattle.lfs_check.specs.Geometries.{IsGeometry};
ghost use Rattle.lfs_check.specs.Rules.{block_in};
ghost use Rattle.lfs_check.specs.Fields.{fields_of, directory_entries};
ghost use Rattle.lfs_layout.specs.Files.{content_of, files_in, without_name, other_entries, content_named, entry_named};
ghost use Rattle.lfs_layout.specs.Made.{all_files};

use crate::files::NamedFile;
use lfs_check::{
    Fields, Geometry, entry_is_used, file_blocks, read_directory, read_indexes, read_nexts,
};
use lfs_format::Entry;
use std::alloc::{AllocError, Global};

/// The files of an image, in the order of its entries.
pub(crate) fn read_files(
    alloc: Global,
    geometry: Geometry,
    image: &[u8],
) -> Result<Vec<NamedFile>, AllocError>
    requires geometry { IsGeometry geometry }
    requires whole { 512 * geometry.blocks ≤ length image.now }
    ensures { IfOk result (λ v. all_files v.items ≡ files_in geometry (fields_of geometry image.now).indexes image.now (directory_entries geometry image.now)) }
{
    let directory = read_directory(alloc, geometry, image)?;
    let indexes = read_indexes(alloc, geometry, image)?;
    let nexts = read_nexts(alloc, &indexes)?;
    let fields = Fields {
        geometry,
        indexes: indexes.as_slice(),
        nexts: nexts.as_slice(),
    };
    read_entries(alloc, &fields, image, &directory.entries)
}

/// The files of an image but that of a name, in the order of its entries.
#[tactic(auto, using(crate::proofs::FilesSet::files_without))]
pub(crate) fn read_others(
    alloc: Global,
    geometry: Geometry,
    image: &[u8],
    name: &[u8; 28],
) -> Result<Vec<NamedFile>, AllocError>
    requires geometry { IsGeometry geometry }
    requires whole { 512 * geometry.blocks ≤ length image.now }
    ensures { IfOk result (λ v. all_files v.items ≡ without_name name.now (files_in geometry (fields_of geometry image.now).indexes image.now (directory_entries geometry image.now))) }
{
    let directory = read_directory(alloc, geometry, image)?;
    let indexes = read_indexes(alloc, geometry, image)?;
    let nexts = read_nexts(alloc, &indexes)?;
    let entries = entries_without(alloc, &directory.entries, name)?;
    let fields = Fields {
        geometry,
        indexes: indexes.as_slice(),
        nexts: nexts.as_slice(),
    };
    let files = read_entries(alloc, &fields, image, &entries)?;
    Ok(files)
}

// The entries but those of a name.
fn entries_without(
    alloc: Global,
    entries: &[Entry],
    name: &[u8; 28],
) -> Result<Vec<Entry>, AllocError>
    ensures { IfOk result (λ v. v.items ≡ other_entries name.now entries.now) }
{
    let mut others = Vec::new(alloc);
    for entry in entries {
        if entry.name != *name {
            others.push(*entry)?;
        }
    }
    Ok(others)
}

/// The bytes of the file of a name, if there is one.
pub(crate) fn read_named(
    alloc: Global,
    geometry: Geometry,
    image: &[u8],
    name: &[u8; 28],
) -> Result<Option<Vec<u8>>, AllocError>
    requires geometry { IsGeometry geometry }
    requires whole { 512 * geometry.blocks ≤ length image.now }
    ensures { IfOk result (λ o. MatchOption o
        (content_named name.now (files_in geometry (fields_of geometry image.now).indexes image.now (directory_entries geometry image.now)) ≡ None)
        (λ v. content_named name.now (files_in geometry (fields_of geometry image.now).indexes image.now (directory_entries geometry image.now)) ≡ Some v.items)) }
{
    let directory = read_directory(alloc, geometry, image)?;
    match entry_named(&directory.entries, name) {
        None => Ok(None),
        Some(entry) => {
            let indexes = read_indexes(alloc, geometry, image)?;
            let nexts = read_nexts(alloc, &indexes)?;
            let fields = Fields {
                geometry,
                indexes: indexes.as_slice(),
                nexts: nexts.as_slice(),
            };
            let bytes = read_bytes(alloc, &fields, image, &entry)?;
            Ok(Some(bytes))
        }
    }
}

// The first used entry of a name.
fn entry_named(entries: &[Entry], name: &[u8; 28]) -> Option<Entry>
    ensures { result ≡ entry_named name.now entries.now }
{
    for entry in entries {
        if entry_is_used(entry) && entry.name == *name {
            return Some(*entry);
        }
    }
    None
}

/// The files of the used ones among entries, in their order.
pub(crate) fn read_entries(
    alloc: Global,
    fields: &Fields<'_>,
    image: &[u8],
    entries: &[Entry],
) -> Result<Vec<NamedFile>, AllocError>
    ensures { IfOk result (λ v. all_files v.items ≡ files_in fields.now.geometry fields.now.indexes.now image.now entries.now) }
{
    let mut files = Vec::new(alloc);
    for entry in entries {
        if entry_is_used(entry) {
            let bytes = read_bytes(alloc, fields, image, entry)?;
            files.push(NamedFile {
                name: entry.name,
                bytes,
            })?;
        }
    }
    Ok(files)
}

// The bytes of the file of an entry.
fn read_bytes(
    alloc: Global,
    fields: &Fields<'_>,
    image: &[u8],
    entry: &Entry,
) -> Result<Vec<u8>, AllocError>
    ensures { IfOk result (λ v. v.items ≡ content_of fields.now.geometry fields.now.indexes.now image.now entry.now) }
{
    let numbers = file_blocks(alloc, fields, entry)?;
    let mut bytes = Vec::new(alloc);
    add_blocks(&mut bytes, image, &numbers)?;
    bytes.truncate(entry.size as usize);
    Ok(bytes)
}

// Appends the blocks of an image.
fn add_blocks(bytes: &mut Vec<u8>, image: &[u8], numbers: &[u32]) -> Result<(), AllocError>
    ensures { OnOk result (bytes.new.items ≡ bytes.old.items ++ flat_map (block_in image.now) numbers.now) }
{
    for j in 0..numbers.len() {
        add_block(bytes, image, numbers[j])?;
    }
    Ok(())
}

// Appends a block of an image, or as much of it as there is.
fn add_block(bytes: &mut Vec<u8>, image: &[u8], number: u32) -> Result<(), AllocError>
    ensures { OnOk result (bytes.new.items ≡ bytes.old.items ++ block_in image.now number) }
{
    let at = 512 * number as usize;
    if at < image.len() {
        let rest = &image[at..];
        bytes.extend_from_slice(&rest[..rest.len().min(512)])?;
    }
    Ok(())
}
