//! Where an image lies in RAM: whether two overlap, and where one ends.

ghost use Rattle.std.specs.Prelude.{◌≡◌, ◌≤◌, map, true};
ghost use Rattle.std.specs.List.{list_all, list_any};
ghost use Rattle.image_loader.specs.Images.{loaded_of};
ghost use Rattle.image_loader.specs.Parts.{lies_in_ram, part_of};
ghost use Rattle.xinu_model.specs.Boot as boot;

use crate::images::Image;
use crate::parts::Part;

impl Image<'_> {
    /// Whether the image shares an address with another.
    pub fn overlaps(&self, other: &Image<'_>) -> bool
        ensures overlaps { result ≡ boot.overlap (loaded_of self.now) (loaded_of other.now) }
    {
        overlap(self.parts.as_slice(), other.parts.as_slice())
    }

    /// The greatest address after one of its parts, at most 1048576.
    pub fn end(&self) -> u32
        ensures end { result ≡ boot.end_of (map part_of self.now.parts.items) }
        ensures in_ram { result ≤ 1048576 }
    {
        end_of(self.parts.as_slice())
    }
}

impl Part<'_> {
    /// Whether the part shares an address with another.
    pub fn meets(&self, other: &Part<'_>) -> bool
        ensures meet { result ≡ boot.parts_meet (part_of self.now) (part_of other.now) }
    {
        let start = u64::from(self.place);
        let other_start = u64::from(other.place);
        (0 < self.size && 0 < other.size)
            && (start < other_start + u64::from(other.size)
                && other_start < start + u64::from(self.size))
    }
}

// Whether a part of one image shares an address with a part of another.
fn overlap(parts: &[Part<'_>], others: &[Part<'_>]) -> bool
    ensures overlap { result ≡ list_any (λ x. list_any (boot.parts_meet x) (map part_of others.now)) (map part_of parts.now) }
{
    for part in parts {
        if meets_any(part, others) {
            return true;
        }
    }
    false
}

// Whether a part shares an address with one of these.
fn meets_any(part: &Part<'_>, others: &[Part<'_>]) -> bool
    ensures meets { result ≡ list_any (boot.parts_meet (part_of part.now)) (map part_of others.now) }
{
    for other in others {
        if part.meets(other) {
            return true;
        }
    }
    false
}

// The greatest address after one of the parts.
fn end_of(parts: &[Part<'_>]) -> u32
    requires lie { list_all lies_in_ram (map part_of parts.now) ≡ true }
    ensures end { result ≡ boot.end_of (map part_of parts.now) }
    ensures in_ram { result ≤ 1048576 }
{
    let mut end = 0;
    for part in parts {
        end = (part.place + part.size).max(end);
    }
    end
}
