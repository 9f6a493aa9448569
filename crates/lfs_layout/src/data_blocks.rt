//! The data blocks of an image that is made.

ghost use Rattle.std.specs.Prelude.{◌≡◌, ◌+◌, ◌≤◌, ◌<◌, ◌++◌, ◌-◌, OnOk};
ghost use Rattle.std.specs.List.{flat_map};
ghost use Rattle.lfs_check.specs.Empty.{upwards};
ghost use Rattle.lfs_layout.specs.Made.{all_data, file_of, all_files, free_data, geometry_2, padded, Room};

use crate::files::{NamedFile, data_needed, data_total};
use crate::index_blocks::next_below;
use byteorder::{ByteOrder, LittleEndian};
use std::alloc::AllocError;

/// Appends the data blocks of files, and free ones, each of which names the next.
pub(crate) fn add_data(
    image: &mut Vec<u8>,
    blocks: u32,
    files: &[NamedFile],
) -> Result<(), AllocError>
    requires { Room blocks (all_files files.now) }
    ensures { OnOk result (image.new.items ≡ image.old.items ++ all_data (geometry_2 blocks) (all_files files.now)) }
{
    add_files(image, files)?;
    let first = 6 + (blocks + 63) / 64 + data_total(files) as u32;
    add_free(image, first, blocks)
}

// Appends a file's bytes, and zeros up to whole blocks.
fn add_file(image: &mut Vec<u8>, file: &NamedFile) -> Result<(), AllocError>
    ensures { OnOk result (image.new.items ≡ image.old.items ++ padded (file_of file.now)) }
{
    image.extend_from_slice(&file.bytes)?;
    let rest = 512 * data_needed(file) - file.bytes.len();
    let zeros = [0u8; 512];
    image.extend_from_slice(&zeros[..rest])?;
    Ok(())
}

// Appends the data blocks of files.
fn add_files(image: &mut Vec<u8>, files: &[NamedFile]) -> Result<(), AllocError>
    ensures { OnOk result (image.new.items ≡ image.old.items ++ flat_map padded (all_files files.now)) }
{
    for file in files {
        add_file(image, file)?;
    }
    Ok(())
}

// A free data block, which names the next below `blocks`.
fn make_free(number: u32, blocks: u32) -> [u8; 512]
    requires { number < blocks }
    ensures { result ≡ free_data (geometry_2 blocks) number }
{
    let mut block = [0u8; 512];
    LittleEndian::write_u32(&mut block[..4], next_below(number, blocks));
    block
}

// Appends the free data blocks from a number on.
fn add_free(image: &mut Vec<u8>, first: u32, blocks: u32) -> Result<(), AllocError>
    requires { first ≤ blocks }
    ensures { OnOk result (image.new.items ≡ image.old.items ++ flat_map (free_data (geometry_2 blocks)) (upwards first (blocks - first))) }
{
    for number in first..blocks {
        image.extend_from_slice(&make_free(number, blocks))?;
    }
    Ok(())
}
