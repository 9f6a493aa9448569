//! The parts of an image.

ghost use Rattle.std.specs.Prelude.{◌≡◌, []};

/// A part of an image: bytes, and the addresses that they and the zeros after them take.
#[derive(Clone, Copy, Drop)]
pub struct Part<'a> {
    /// The address of the first byte.
    pub place: u32,
    /// The bytes that are loaded there.
    pub bytes: &'a [u8],
    /// How many addresses the part takes.
    pub size: u32,
}

impl Default for Part<'_> {
    ghost is_default = { λ part. (part.place ≡ 0) × (part.bytes.now ≡ []) × (part.size ≡ 0) };

    fn default() -> Self {
        Part {
            place: 0,
            bytes: &[],
            size: 0,
        }
    }
}
