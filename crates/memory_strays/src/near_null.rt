//! The addresses near null: a pointer that is null leads to them, and so does a field of what it should point to.

ghost use Rattle.std.specs.Prelude.{◌≡◌, map};
ghost use Rattle.std.specs.List.{list_any};
ghost use Rattle.elf_loader.specs.LoadedFiles.{loads};
ghost use Rattle.image_loader.specs.Parts.{part_of};
ghost use Rattle.memory_strays.specs.NearNull as specs;

use elf_loader::load;
use image_loader::Part;

/// How many addresses are near null, from 0 on.
const NEAR: u32 = 16;

/// Whether an address is near null.
pub(crate) fn is_near_null(address: u32) -> bool
    ensures is { result ≡ specs.is_near_null address }
{
    address < NEAR
}

/// Whether an image in these files lies near null.
pub(crate) fn lie_near_null(files: &[Vec<u8>]) -> bool
    ensures lie { result ≡ specs.lie_near_null (map (λ v. v.items) files.now) }
{
    for file in files {
        if lies_near_null(file.as_slice()) {
            return true;
        }
    }
    false
}

// Whether the image in a file lies near null.
fn lies_near_null(file: &[u8]) -> bool
    ensures lies { result ≡ specs.loaded_near_null (loads file.now) }
{
    match load(file) {
        Ok(image) => have_near_null(image.parts.as_slice()),
        Err(_) => false,
    }
}

// Whether one of these parts has an address near null.
fn have_near_null(parts: &[Part<'_>]) -> bool
    ensures have { result ≡ list_any specs.part_near_null (map part_of parts.now) }
{
    for part in parts {
        if is_near_null(part.place) && part.size > 0 {
            return true;
        }
    }
    false
}
