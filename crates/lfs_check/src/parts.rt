//! The fields that the walks of files read.

ghost use Rattle.std.specs.Prelude.{◌≡◌, length};
ghost use Rattle.lfs_check.specs.Geometries.{index_count, IsGeometry};
ghost use Rattle.lfs_check.specs.Checks.{nexts_of};

use crate::geometry::Geometry;
use lfs_format::Index;

/// The index blocks of a disk, and the next of each.
#[derive(Clone, Copy)]
pub struct Fields<'a> {
    /// Where the parts of the disk are.
    pub geometry: Geometry,
    /// Its index blocks.
    pub indexes: &'a [Index],
    /// The next of each.
    pub nexts: &'a [u32],
    pub ghost right: { IsGeometry geometry },
    pub ghost count: { length indexes.now ≡ index_count geometry },
    pub ghost chained: { nexts.now ≡ nexts_of indexes.now },
}
