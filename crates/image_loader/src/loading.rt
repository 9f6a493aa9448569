//! Images one after another in RAM: the first that overlaps an earlier one, where the last one ends, and how they are loaded.

ghost use Rattle.std.specs.Prelude.{◌≡◌, ◌≤◌, [], length, map, true};
ghost use Rattle.std.specs.List.{list_all, list_any};
ghost use Rattle.image_loader.specs.Images.{loaded_of};
ghost use Rattle.image_loader.specs.Parts.{lies_in_ram, part_of};
ghost use Rattle.xinu_model.specs.Boot as boot;

use crate::images::Image;
use crate::parts::Part;
use rv_hart::Ram;

/// The number, from 1 on, of the first image that overlaps an earlier one. `None` if and only if no two overlap. There are at most eight.
pub fn first_overlap(images: &[Image<'_>]) -> Option<u8>
    requires few { length images.now ≤ 8 }
    ensures first { result ≡ boot.first_overlap 1 [] (map loaded_of images.now) }
{
    let mut earlier = 0;
    for image in images {
        if overlaps_any(image, &images[..earlier]) {
            return Some(earlier as u8 + 1);
        }
        earlier += 1;
    }
    None
}

/// The greatest address after one of the images, at most 1048576, and 0 if there is none.
pub fn end_of_all(images: &[Image<'_>]) -> u32
    ensures end { result ≡ boot.end_of_all (map loaded_of images.now) }
    ensures in_ram { result ≤ 1048576 }
{
    let mut end = 0;
    for image in images {
        end = image.end().max(end);
    }
    end
}

/// Puts the bytes of the images in their places, one after another.
pub fn load_all(ram: &mut Ram, images: &[Image<'_>])
    ensures loaded { ram.new ≡ boot.with_images (map loaded_of images.now) ram.old }
{
    for image in images {
        load(ram, image.parts.as_slice());
    }
}

// Whether an image overlaps one of these.
fn overlaps_any(image: &Image<'_>, others: &[Image<'_>]) -> bool
    ensures overlaps { result ≡ list_any (boot.overlap (loaded_of image.now)) (map loaded_of others.now) }
{
    for other in others {
        if image.overlaps(other) {
            return true;
        }
    }
    false
}

// Puts the bytes of the parts in their places.
fn load(ram: &mut Ram, parts: &[Part<'_>])
    requires lie { list_all lies_in_ram (map part_of parts.now) ≡ true }
    ensures loaded { ram.new ≡ boot.with_parts (map part_of parts.now) ram.old }
{
    for part in parts {
        let _ = ram.copy_in(part.place, part.bytes);
    }
}
