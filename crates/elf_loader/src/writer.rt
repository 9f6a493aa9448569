//! The writer of ELF files.

ghost use Rattle.std.specs.Prelude.{◌≡◌, ◌++◌, IfOk, OnOk};
ghost use Rattle.elf_loader.specs.WrittenElf.{IsWholeImage, elf_file, words_bytes, written_header, written_note, written_segments};
ghost use Rattle.xinu_model.specs.Words.{word};
ghost use Rattle.image_loader.specs.Images.{loaded_of};

use image_loader::{Image, Part};
use std::alloc::{AllocError, Global};
use xinu_base::NoMemory;

/// The letters of an ELF file; words of 32 bits, the lowest byte first, in version 1; a program for RISC-V.
const IDENT: &[u8] = &[
    0x7f, b'E', b'L', b'F', 1, 1, 1, 0, 0, 0, 0, 0, 0, 0, 0, 0, 2, 0, 243, 0,
];
/// The size of the header, the size and the number of those of segments; no sections.
const SIZES: &[u8] = &[52, 0, 32, 0, 2, 0, 0, 0, 0, 0, 0, 0];
/// The header of the note's segment.
const NOTES: &[u32] = &[4, 116, 0, 0, 28, 28, 4, 4];
/// The name of the note, with zeros up to a multiple of four bytes.
const NAME: &[u8] = b"XINU\0\0\0\0";

/// The ELF file of an image of one part, whose content has the part's size, as an image file gives it.
///
/// It has a loaded segment with the content, and a note with the priority and the stack. `read_elf` gives the image back.
///
/// # Errors
///
/// `NoMemory` out of memory.
pub fn write_elf(alloc: Global, image: &Image<'_>) -> Result<Vec<u8>, NoMemory>
    requires whole { IsWholeImage (loaded_of image.now) }
    ensures file { IfOk result (λ file. file.items ≡ elf_file (loaded_of image.now)) }
{
    match file_of(alloc, image) {
        Ok(file) => Ok(file),
        Err(_) => Err(NoMemory),
    }
}

// The file of an image of one part.
fn file_of(alloc: Global, image: &Image<'_>) -> Result<Vec<u8>, AllocError>
    requires whole { IsWholeImage (loaded_of image.now) }
    ensures file { IfOk result (λ file. file.items ≡ elf_file (loaded_of image.now)) }
{
    let part = image.parts[0];
    let priority = i32::from(image.priority).cast_unsigned();
    let mut file = Vec::new(alloc);
    push_headers(&mut file, &part, image.entry)?;
    push_note(&mut file, priority, image.stack)?;
    file.extend_from_slice(part.bytes)?;
    Ok(file)
}

// Appends the headers of the file and of the segments.
fn push_headers(file: &mut Vec<u8>, part: &Part<'_>, entry: u32) -> Result<(), AllocError>
    ensures headers { OnOk result (file.new.items ≡ file.old.items ++ written_header entry ++ written_segments part.now.place part.now.size) }
{
    push_header(file, entry)?;
    push_segments(file, part)
}

// Appends the headers of the segments.
fn push_segments(file: &mut Vec<u8>, part: &Part<'_>) -> Result<(), AllocError>
    ensures segments { OnOk result (file.new.items ≡ file.old.items ++ written_segments part.now.place part.now.size) }
{
    push_words(
        file,
        &[1, 144, part.place, part.place, part.size, part.size, 7, 1],
    )?;
    push_words(file, NOTES)
}

// Appends the header of the file.
fn push_header(file: &mut Vec<u8>, entry: u32) -> Result<(), AllocError>
    ensures header { OnOk result (file.new.items ≡ file.old.items ++ written_header entry) }
{
    file.extend_from_slice(IDENT)?;
    push_words(file, &[1, entry, 52, 0, 0])?;
    file.extend_from_slice(SIZES)
}

// Appends the note.
fn push_note(file: &mut Vec<u8>, priority: u32, stack: u32) -> Result<(), AllocError>
    ensures note { OnOk result (file.new.items ≡ file.old.items ++ written_note priority stack) }
{
    push_words(file, &[5, 8, 1])?;
    file.extend_from_slice(NAME)?;
    push_words(file, &[priority, stack])
}

// Appends words, each with its lowest byte first.
fn push_words(file: &mut Vec<u8>, words: &[u32]) -> Result<(), AllocError>
    ensures words { OnOk result (file.new.items ≡ file.old.items ++ words_bytes words.now) }
{
    for word in words {
        file.extend_from_slice(&word.to_le_bytes())?;
    }
    Ok(())
}
