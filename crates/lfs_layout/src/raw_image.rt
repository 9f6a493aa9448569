//! The image of a disk without files.

ghost use Rattle.std.specs.Prelude.{◌≡◌, true, false, MatchResult, List, ℕ};
ghost use Rattle.lfs_layout.specs.Images.{is_raw};

use lfs_check::DiskFault;
use std::marker::Model;

/// A disk without files: 8 to 65,536 whole blocks. A clause sees the bytes.
#[derive(Drop)]
pub struct RawImage {
    bytes: Vec<u8>,
}

impl Model for RawImage {
    ghost Value = { List ℕ };

    ghost view = { λ r. r.bytes.items };

    ghost invariant = { λ r. is_raw r.bytes.items ≡ true };
}

impl RawImage {
    /// Takes the bytes of an image, if they are 8 to 65,536 whole blocks.
    ///
    /// # Errors
    ///
    /// Rule 0 at block 0 if and only if they are not; the bytes are dropped.
    pub fn new(bytes: Vec<u8>) -> Result<RawImage, DiskFault>
        ensures { MatchResult result (λ r. (is_raw bytes.items ≡ true) × (r ≡ bytes.items)) (λ f. (is_raw bytes.items ≡ false) × (f ≡ record { block = 0; rule = 0 })) }
    {
        if bytes.len() % 512 == 0 && bytes.len() >= 4096 && bytes.len() <= 33_554_432 {
            Ok(RawImage { bytes })
        } else {
            Err(DiskFault { block: 0, rule: 0 })
        }
    }

    /// The bytes of the image.
    pub fn bytes(&self) -> &[u8]
        ensures bytes { result.now ≡ self.now }
        ensures raw { is_raw self.now ≡ true }
    {
        &self.bytes
    }

    /// The bytes of the image, which is used up.
    pub fn into_bytes(self) -> Vec<u8>
        ensures bytes { result.items ≡ self }
        ensures raw { is_raw self ≡ true }
    {
        let RawImage { bytes } = self;
        bytes
    }
}
