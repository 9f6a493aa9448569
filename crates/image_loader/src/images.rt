//! The image of a program. It keeps true, as a ghost fact, that it can be loaded into RAM.

ghost use Rattle.image_loader.specs.Parts.{IsImage, loaded};

use crate::parts::Part;
use arrayvec::ArrayVec;

/// An image: its parts, and how its first process begins.
///
/// It has one to eight parts. Each lies in RAM and has at most as many bytes as addresses, and no two share an address.
#[derive(Drop)]
pub struct Image<'a> {
    /// The parts, in the order in which they are loaded.
    pub parts: ArrayVec<Part<'a>, 8>,
    /// The address of the first instruction: a multiple of 4, whose four bytes are bytes of one part.
    pub entry: u32,
    /// The priority of the first process, from 1 to 32767.
    pub priority: i16,
    /// The size in bytes that is asked for its stack, any number.
    pub stack: u32,
    pub ghost is_image: { IsImage (loaded parts.items entry priority stack) },
}
