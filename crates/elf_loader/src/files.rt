//! The reader of image files of either kind.

ghost use Rattle.std.specs.Prelude.{◌≡◌, Some, None, MatchResult};
ghost use Rattle.elf_loader.specs.LoadedFiles as files;
ghost use Rattle.elf_loader.specs.LoadedFiles.{load_fault, loads};
ghost use Rattle.image_loader.specs.Images.{loaded_of};

use crate::faults::LoadFault;
use crate::reader::read_elf;
use image_loader::{Image, read_image};

/// The letters with which an ELF file begins.
const ELF: &[u8] = b"\x7fELF";

/// The image of a file's bytes: of an ELF file if they begin with its letters, and else of an image file. Nothing is allocated.
///
/// # Errors
///
/// The first test of its kind that the file fails.
#[tactic(auto, unfolding(crate::specs::LoadedFiles::load_fault, crate::specs::LoadedFiles::loads))]
pub fn load(bytes: &[u8]) -> Result<Image<'_>, LoadFault>
    ensures loads { MatchResult result (λ image. loads bytes.now ≡ Some (loaded_of image)) (λ _. loads bytes.now ≡ None) }
    ensures fault { MatchResult result (λ _. load_fault bytes.now ≡ None) (λ fault. load_fault bytes.now ≡ Some fault) }
{
    if is_elf(bytes) {
        match read_elf(bytes) {
            Ok(image) => Ok(image),
            Err(fault) => Err(LoadFault::Elf(fault)),
        }
    } else {
        match read_image(bytes) {
            Ok(image) => Ok(image),
            Err(fault) => Err(LoadFault::Image(fault)),
        }
    }
}

// Whether the bytes begin with the letters of an ELF file.
fn is_elf(bytes: &[u8]) -> bool
    ensures { result ≡ files.is_elf bytes.now }
{
    bytes.starts_with(ELF)
}
