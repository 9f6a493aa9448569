//! The image that is made of files.

ghost use Rattle.std.specs.Prelude.{◌≡◌, ◌*◌, ◌≤◌, ◌++◌, length, IfOk, OnOk};
ghost use Rattle.lfs_format.specs.Directory.{dir_bytes};
ghost use Rattle.lfs_check.specs.Fields.{joined};
ghost use Rattle.lfs_layout.specs.Made.{all_files, dir_for, image_with, index_disk, Room};

use crate::data_blocks::add_data;
use crate::directory::{make_dir, make_entries, make_header};
use crate::files::NamedFile;
use crate::index_blocks::{make_disk, make_indexes};
use lfs_check::Header;
use lfs_format::{Entry, Index};
use std::alloc::{AllocError, Global};

/// The image of version 2 with these files, each of which takes the lowest free blocks.
pub(crate) fn build(alloc: Global, blocks: u32, files: &[NamedFile]) -> Result<Vec<u8>, AllocError>
    requires { Room blocks (all_files files.now) }
    ensures { IfOk result (λ v. v.items ≡ image_with blocks (all_files files.now)) }
{
    let header = make_header(blocks, files);
    let entries = make_entries(alloc, blocks, files)?;
    let indexes = make_indexes(alloc, blocks, files)?;
    let mut image = Vec::new(alloc);
    add_dirs(&mut image, header, &entries)?;
    add_disks(&mut image, (blocks as usize + 63) / 64, &indexes)?;
    add_data(&mut image, blocks, files)?;
    Ok(image)
}

// Appends the directory blocks.
#[tactic(auto, using(lfs_check::proofs::Numbered::joined_more, lfs_check::proofs::Numbered::joined_none))]
fn add_dirs(image: &mut Vec<u8>, header: Header, entries: &[Entry]) -> Result<(), AllocError>
    requires { length entries.now ≡ 78 }
    ensures { OnOk result (image.new.items ≡ image.old.items ++ joined (λ d. dir_bytes (dir_for header entries.now d)) 6) }
{
    for d in 0..6 {
        image.extend_from_slice(&make_dir(header, entries, d))?;
    }
    Ok(())
}

// Appends the blocks of index blocks.
#[tactic(auto, using(lfs_check::proofs::Numbered::joined_more, lfs_check::proofs::Numbered::joined_none))]
fn add_disks(image: &mut Vec<u8>, disks: usize, indexes: &[Index]) -> Result<(), AllocError>
    requires { 7 * disks ≤ length indexes.now }
    ensures { OnOk result (image.new.items ≡ image.old.items ++ joined (index_disk indexes.now) disks) }
{
    for d in 0..disks {
        image.extend_from_slice(&make_disk(indexes, d))?;
    }
    Ok(())
}
