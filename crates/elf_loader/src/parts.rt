//! The parts of an image that the segments of an ELF file load.

ghost use Rattle.std.specs.Prelude.{◌≡◌, ◌≤◌, ◌<◌, true, not, length, filter, map, MatchOption, IfSome};
ghost use Rattle.std.specs.List.{list_all};
ghost use Rattle.elf_loader.specs.ElfFiles as files;
ghost use Rattle.elf_loader.specs.ElfHeaders.{fits_memory, is_load, loaded_segment, loaded_segments};
ghost use Rattle.image_loader.specs.Parts as images;
ghost use Rattle.image_loader.specs.Parts.{part_of};

use crate::segments::{Segment, Segments};
use arrayvec::ArrayVec;
use image_loader::Part;

/// The parts of an image.
pub(crate) type Parts<'a> = ArrayVec<Part<'a>, 8>;

/// The parts that the segments load, in their order; `None` if they are more than eight.
pub(crate) fn parts_of<'a>(bytes: &'a [u8], segments: Segments<'_>) -> Option<Parts<'a>>
    requires { list_all (fits_memory bytes.now) (filter is_load segments) ≡ true }
    ensures parts { MatchOption result (8 < length (filter is_load segments.entry)) (λ parts. (map part_of parts.items ≡ loaded_segments bytes.now segments.entry) × (length (filter is_load segments.entry) ≤ 8)) }
    ensures lie { IfSome result (λ parts. list_all images.lies_in_ram (map part_of parts.items) ≡ true) }
{
    let mut parts = Parts::new();
    let mut rest = segments;
    while let Some(segment) = rest.next() {
        if segment.is_load() {
            if parts.is_full() {
                return None;
            }
            parts.push(part_in(bytes, &segment));
        }
    }
    Some(parts)
}

// The part that a segment loads.
fn part_in<'a>(bytes: &'a [u8], segment: &Segment) -> Part<'a>
    requires { fits_memory bytes.now segment.now ≡ true }
    ensures { part_of result ≡ loaded_segment bytes.now segment.now }
{
    Part {
        place: segment.place,
        bytes: segment.bytes_in(bytes),
        size: segment.memory_size,
    }
}

/// Whether no two of the parts share an address.
pub(crate) fn are_apart(parts: &[Part<'_>]) -> bool
    ensures { result ≡ images.are_apart (map part_of parts.now) }
{
    for i in 0..parts.len() {
        if !shares_none(&parts[i], &parts[i + 1..]) {
            return false;
        }
    }
    true
}

// Whether a part shares an address with none of the others.
fn shares_none(part: &Part<'_>, others: &[Part<'_>]) -> bool
    ensures { result ≡ list_all (λ other. not (images.share_address (part_of part.now) other)) (map part_of others.now) }
{
    for other in others {
        if share_address(part, other) {
            return false;
        }
    }
    true
}

// Whether some address belongs to both parts.
fn share_address(part: &Part<'_>, other: &Part<'_>) -> bool
    ensures { result ≡ images.share_address (part_of part.now) (part_of other.now) }
{
    let first = part.place.max(other.place) as u64;
    let end = part.place as u64 + part.size as u64;
    let other_end = other.place as u64 + other.size as u64;
    first < end.min(other_end)
}

/// Whether an address is a multiple of 4, and its four bytes are bytes of one part.
pub(crate) fn is_entry(entry: u32, parts: &[Part<'_>]) -> bool
    ensures { result ≡ files.is_entry entry (map part_of parts.now) }
{
    if entry % 4 != 0 {
        return false;
    }
    for part in parts {
        if holds_word(entry, part) {
            return true;
        }
    }
    false
}

// Whether the four bytes from an address on are bytes of the part.
fn holds_word(address: u32, part: &Part<'_>) -> bool
    ensures { result ≡ images.holds_word address (part_of part.now) }
{
    part.place <= address && address as u64 + 4 <= part.place as u64 + part.bytes.len() as u64
}
