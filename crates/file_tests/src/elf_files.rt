//! ELF files, each with its image or its fault.

ghost use Rattle.std.specs.Prelude.{◌≤◌};

use byteorder::{ByteOrder, LittleEndian};
use elf_loader::{ElfFault, LoadFault, load, read_elf, write_elf};
use image_loader::read_image;
use std::alloc::Global;
use std::process::Abort;

/// A program of four instructions, as an assembler and a linker make it: the file's header, the header of one loaded segment of
/// 16 bytes at 65620, and these bytes at 84.
const PROGRAM: [u8; 100] = [
    0x7f, b'E', b'L', b'F', 1, 1, 1, 0, 0, 0, 0, 0, 0, 0, 0, 0, // what kind of ELF file
    2, 0, 243, 0, 1, 0, 0, 0, 0x54, 0, 1, 0, 52, 0, 0, 0, // a program; the entry; the headers
    0, 0, 0, 0, 0, 0, 0, 0, 52, 0, 32, 0, 1, 0, 0, 0, 0, 0, 0, 0, // one header of 32 bytes
    1, 0, 0, 0, 84, 0, 0, 0, 0x54, 0, 1, 0, 0x54, 0, 1, 0, // loaded, from byte 84 to 65620
    16, 0, 0, 0, 16, 0, 0, 0, 5, 0, 0, 0, 4, 0, 0, 0, // 16 bytes and 16 addresses
    0x93, 0x08, 0x10, 0x00, 0x73, 0x00, 0x00, 0x00, // the content
    0x93, 0x08, 0x90, 0x00, 0x73, 0x00, 0x00, 0x00,
];

/// An image file of the same content, at 0.
const IMAGE: [u8; 44] = [
    b'X', b'I', b'M', b'G', 1, 0, 0, 0, 0, 0, 0, 0, 16, 0, 0, 0, // up to the length
    0, 0, 0, 0, 21, 0, 0, 0, 0, 32, 0, 0, // the entry, the priority and the stack
    0x93, 0x08, 0x10, 0x00, 0x73, 0x00, 0x00, 0x00, 0x93, 0x08, 0x90, 0x00, 0x73, 0x00, 0x00, 0x00,
];

/// Another word of the program, at a place, and the first test that then fails.
const FAULTS: [(usize, u32, ElfFault); 21] = [
    // words of 64 bits, and the highest byte first
    (4, 0x0001_0102, ElfFault::Class),
    (4, 0x0001_0201, ElfFault::Class),
    // version 0
    (4, 0x0000_0101, ElfFault::Class),
    // a library, and another machine
    (16, 0x00F3_0003, ElfFault::Kind),
    (16, 0x003E_0002, ElfFault::Kind),
    // headers of 40 bytes
    (40, 0x0028_0034, ElfFault::Headers),
    // more headers than bytes
    (44, 3, ElfFault::Headers),
    // headers after the end, and at the end of all words
    (28, 69, ElfFault::Headers),
    (28, u32::MAX, ElfFault::Headers),
    // a program that loads it
    (52, 3, ElfFault::Dynamic),
    // more bytes than addresses
    (72, 15, ElfFault::Segment),
    // bytes after the end of the file, and from the end of all words
    (56, 85, ElfFault::Segment),
    (56, u32::MAX, ElfFault::Segment),
    // addresses after RAM, and at the end of all words
    (60, 1_048_561, ElfFault::Segment),
    (60, u32::MAX, ElfFault::Segment),
    // no segment, one that isn't loaded, and one without an address
    (44, 0, ElfFault::Entry),
    (52, 2, ElfFault::Entry),
    (72, 0, ElfFault::Entry),
    // an odd entry, one ahead of the segment, and one after its bytes
    (24, 65_622, ElfFault::Entry),
    (24, 65_616, ElfFault::Entry),
    (24, 65_636, ElfFault::Entry),
];

/// Another word of the file that is written for the image, at a place, and the priority and the stack that are read, or the fault.
const NOTES: [(usize, u32, Result<(i16, u32), ElfFault>); 11] = [
    // the note as it is
    (140, 8192, Ok((21, 8192))),
    // another name, and a longer one
    (128, 0x554E_4959, Ok((20, 4096))),
    (116, 6, Ok((20, 4096))),
    // a description of three words
    (120, 12, Ok((20, 4096))),
    // another type, and a segment of another type
    (124, 2, Ok((20, 4096))),
    (84, 5, Ok((20, 4096))),
    // a segment that leaves the file, and one that is a byte short
    (88, 133, Ok((20, 4096))),
    (100, 27, Ok((20, 4096))),
    // priorities 0, 32767 and 32768
    (136, 0, Err(ElfFault::Note)),
    (136, 32_767, Ok((32_767, 8192))),
    (136, 32_768, Err(ElfFault::Note)),
];

// Writes a word into a file, if it has that place.
fn put(file: &mut [u8], at: usize, word: u32) {
    if at < file.len() && file.len() - at >= 4 {
        LittleEndian::write_u32(&mut file[at..], word);
    }
}

// The program with another word at a place.
fn with_word(at: usize, word: u32) -> [u8; 100] {
    let mut file = PROGRAM;
    put(&mut file, at, word);
    file
}

// Whether the file loads as one part with these bytes, at this place and of this size.
fn has_part(file: &[u8], bytes: &[u8], place: u32, size: u32) -> bool {
    match load(file) {
        Ok(image) => match image.parts.as_slice() {
            [part] => part.bytes == bytes && part.place == place && part.size == size,
            _ => false,
        },
        Err(_) => false,
    }
}

// The entry, the priority and the stack of a file that loads.
fn settings(file: &[u8]) -> Option<(u32, i16, u32)> {
    let image = load(file).ok()?;
    Some((image.entry, image.priority, image.stack))
}

#[test]
fn a_program_is_its_loaded_segments(rt: HostRuntime) {
    // eight addresses more than bytes
    let file = with_word(72, 24);
    assert!(rt; has_part(&file, &PROGRAM[84..], 65_620, 24));
    assert!(rt; settings(&file) == Some((65_620, 20, 4096)));
}

#[test]
fn the_first_test_that_fails_is_the_fault(rt: HostRuntime) {
    for (at, word, fault) in &FAULTS {
        let found = load(&with_word(*at, *word)).err();
        assert!(rt; found == Some(LoadFault::Elf(*fault)), "{word} at {at}");
    }
}

// Writes the header of a segment of four bytes, which are the last of a file of 344.
fn put_segment(file: &mut [u8; 344], at: usize, kind: u32, place: u32)
    requires { at ≤ 312 }
{
    LittleEndian::write_u32(&mut file[at..], kind);
    LittleEndian::write_u32(&mut file[at + 4..], 340);
    LittleEndian::write_u32(&mut file[at + 8..], place);
    LittleEndian::write_u32(&mut file[at + 16..], 4);
    LittleEndian::write_u32(&mut file[at + 20..], 4);
}

// A file with nine segments, of which those outside RAM are of a kind that isn't loaded.
fn with_segments(places: [u32; 9]) -> [u8; 344] {
    let mut file = [0u8; 344];
    file[..52].copy_from_slice(&PROGRAM[..52]);
    LittleEndian::write_u16(&mut file[44..], 9);
    LittleEndian::write_u32(&mut file[24..], 4);
    for i in 0..9 {
        let kind = if places[i] < 1_048_576 { 1 } else { 6 };
        put_segment(&mut file, 52 + 32 * i, kind, places[i]);
    }
    file
}

/// Places of nine segments, and the fault.
const SEGMENTS: [(&[u32; 9], Option<ElfFault>); 4] = [
    (&[0, 4, 8, 12, 16, 20, 24, 28, 2_000_000], None),
    (&[0, 4, 8, 12, 16, 20, 24, 28, 32], Some(ElfFault::TooMany)),
    (
        &[0, 4, 8, 12, 16, 20, 24, 27, 2_000_000],
        Some(ElfFault::Meet),
    ),
    (
        &[24, 4, 8, 12, 16, 20, 27, 31, 2_000_000],
        Some(ElfFault::Meet),
    ),
];

#[test]
fn at_most_eight_segments_that_do_not_meet_are_loaded(rt: HostRuntime) {
    for (places, fault) in &SEGMENTS {
        assert!(rt;
            read_elf(&with_segments(**places)).err() == *fault,
            "{places:?}"
        );
    }
}

// The ELF file that is written for the image.
fn written(rt: &impl Abort, alloc: Global) -> Vec<u8> {
    let Ok(image) = read_image(&IMAGE) else {
        rt.abort()
    };
    match write_elf(alloc, &image) {
        Ok(file) => file,
        Err(_) => rt.abort(),
    }
}

#[test]
fn a_written_file_is_read_back(rt: HostRuntime) {
    let file = written(&rt, rt.alloc());
    assert!(rt; file.len() == 160 && has_part(&file, &IMAGE[28..], 0, 16));
    assert!(rt; settings(&file) == Some((0, 21, 8192)));
}

// The priority and the stack of the written file with another word, or its fault.
fn noted(rt: &impl Abort, alloc: Global, at: usize, word: u32) -> Result<(i16, u32), ElfFault> {
    let mut file = written(rt, alloc);
    put(&mut file, at, word);
    match read_elf(&file) {
        Ok(image) => Ok((image.priority, image.stack)),
        Err(fault) => Err(fault),
    }
}

#[test]
fn a_note_that_counts_is_the_first_of_its_name(rt: HostRuntime) {
    for (at, word, wanted) in &NOTES {
        assert!(rt;
            noted(&rt, rt.alloc(), *at, *word) == *wanted,
            "{word} at {at}"
        );
    }
}
