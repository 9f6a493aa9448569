//! What a name is mapped to.

use arrayvec::ArrayVec;
use xinu_base::Dev;

/// A name, and the device that gets it.
#[derive(Drop)]
pub struct MappedName {
    /// The device. `Names::map` never answers the name space itself.
    pub device: Dev,
    /// The name, of at most 127 bytes.
    pub name: ArrayVec<u8, 127>,
}

/// The answer to a name that is mapped to nothing.
#[derive(Clone, Copy, PartialEq, Eq)]
pub struct NoMap;
