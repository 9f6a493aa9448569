//! Where the parts of a disk are.

ghost use Rattle.std.specs.Prelude.{◌≡◌, ◌<◌};
ghost use Rattle.lfs_check.specs.Geometries.{index_count, first_data, index_block, entry_block, IsGeometry};

/// A disk of `blocks` blocks, of which the first `dirs` hold the directory: one in version 1, six in version 2.
///
/// [`indexes_on`], [`data_from`], [`block_of_index`] and the calls that read the fields of an image require that `dirs` is at most 6, and
/// `blocks` from `dirs + 7` to 65542.
#[derive(Clone, Copy)]
pub struct Geometry {
    pub dirs: u32,
    pub blocks: u32,
}

/// How many index blocks there are.
pub fn indexes_on(geometry: Geometry) -> u32
    requires geometry { IsGeometry geometry }
    ensures { result ≡ index_count geometry }
{
    7 * ((geometry.blocks + 63) / 64)
}

/// The first data block.
pub fn data_from(geometry: Geometry) -> u32
    requires geometry { IsGeometry geometry }
    ensures { result ≡ first_data geometry }
{
    geometry.dirs + (geometry.blocks + 63) / 64
}

/// The disk block of an index block.
pub fn block_of_index(geometry: Geometry, index: u32) -> u32
    requires geometry { IsGeometry geometry }
    ensures { result ≡ index_block geometry index }
{
    geometry.dirs + index / 7
}

/// The disk block of an entry, whose number is below 78.
pub fn block_of_entry(geometry: Geometry, entry: usize) -> u32
    requires few { entry < 78 }
    ensures { result ≡ entry_block geometry entry }
{
    if geometry.dirs == 1 {
        entry as u32 / 20
    } else {
        entry as u32 / 13
    }
}
