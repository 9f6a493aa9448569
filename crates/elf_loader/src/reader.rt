//! The reader of ELF files.

ghost use Rattle.std.specs.Prelude.{◌≡◌, map, true, pos, Some, None, IfOk, MatchResult};
ghost use Rattle.std.specs.List.{list_all};
ghost use Rattle.elf_loader.specs.ElfFiles as files;
ghost use Rattle.elf_loader.specs.ElfFiles.{elf_fault, elf_image, elf_loaded, segments_fault};
ghost use Rattle.elf_loader.specs.ElfHeaders.{elf_header_of};
ghost use Rattle.image_loader.specs.Images.{loaded_of};
ghost use Rattle.image_loader.specs.Parts.{lies_in_ram, part_of};

use crate::faults::ElfFault;
use crate::header::{ElfHeader, HEADER_SIZE};
use crate::notes::{Settings, settings_of};
use crate::parts::{Parts, are_apart, is_entry, parts_of};
use crate::segments::{Segments, all_fit, has_dynamic};
use image_loader::Image;

/// The greatest priority of a process.
const GREATEST_PRIORITY: u32 = 32_767;

/// The image of an ELF file's bytes, whose parts are the loaded segments. It borrows their bytes: nothing is allocated.
///
/// The priority is 20 and the stack 4096, unless a note named `XINU`, of type 1, gives both in a description of two words.
///
/// # Errors
///
/// The first test that fails, in the order of `ElfFault`, if the bytes aren't an ELF file that loads.
pub fn read_elf(bytes: &[u8]) -> Result<Image<'_>, ElfFault>
    ensures loads { MatchResult result (λ image. elf_image bytes.now ≡ Some (loaded_of image)) (λ _. elf_image bytes.now ≡ None) }
    ensures fault { MatchResult result (λ _. elf_fault bytes.now ≡ None) (λ fault. elf_fault bytes.now ≡ Some fault) }
{
    if bytes.len() < HEADER_SIZE {
        return Err(ElfFault::Short);
    }
    let header = ElfHeader::of(bytes);
    match header_fault(bytes, &header) {
        Some(fault) => Err(fault),
        None => read_segments(bytes, &header),
    }
}

// The first test that the header fails.
fn header_fault(bytes: &[u8], header: &ElfHeader) -> Option<ElfFault>
    requires { header.now ≡ elf_header_of bytes.now }
    ensures { result ≡ files.first_failing (files.header_checks bytes.now) }
{
    if !header.is_of_class() {
        Some(ElfFault::Class)
    } else if !header.is_of_kind() {
        Some(ElfFault::Kind)
    } else if !header.has_segments(bytes) {
        Some(ElfFault::Headers)
    } else {
        None
    }
}

// The image of the segments of a file whose header holds.
#[tactic(auto, unfolding(crate::specs::ElfFiles::segments_fault, crate::specs::ElfFiles::image_fault_of))]
fn read_segments<'a>(bytes: &'a [u8], header: &ElfHeader) -> Result<Image<'a>, ElfFault>
    requires header { header.now ≡ elf_header_of bytes.now }
    requires table { files.has_segments bytes.now header.now ≡ true }
    ensures fault { MatchResult result (λ _. segments_fault bytes.now ≡ None) (λ fault. segments_fault bytes.now ≡ Some fault) }
    ensures image { IfOk result (λ image. loaded_of image ≡ elf_loaded bytes.now) }
{
    if has_dynamic(Segments::of(bytes, header)) {
        return Err(ElfFault::Dynamic);
    }
    if !all_fit(bytes, Segments::of(bytes, header)) {
        return Err(ElfFault::Segment);
    }
    let settings = settings_of(bytes, Segments::of(bytes, header));
    match parts_of(bytes, Segments::of(bytes, header)) {
        Some(parts) => image_of(header.entry, parts, settings),
        None => Err(ElfFault::TooMany),
    }
}

// The image of these parts, with this entry and these settings.
fn image_of(entry: u32, parts: Parts<'_>, settings: Settings) -> Result<Image<'_>, ElfFault>
    requires lie { list_all lies_in_ram (map part_of parts.items) ≡ true }
    ensures fault { MatchResult result (λ _. files.first_failing (files.image_checks entry (map part_of parts.entry.items) settings) ≡ None) (λ fault. files.first_failing (files.image_checks entry (map part_of parts.entry.items) settings) ≡ Some fault) }
    ensures image { IfOk result (λ image. loaded_of image ≡ record { parts = map part_of parts.entry.items; entry = entry; priority = pos settings.priority; stack = settings.stack }) }
{
    if !are_apart(parts.as_slice()) {
        return Err(ElfFault::Meet);
    }
    if !is_entry(entry, parts.as_slice()) {
        return Err(ElfFault::Entry);
    }
    if settings.priority < 1 || settings.priority > GREATEST_PRIORITY {
        return Err(ElfFault::Note);
    }
    Ok(Image {
        parts,
        entry,
        priority: settings.priority as i16,
        stack: settings.stack,
    })
}
