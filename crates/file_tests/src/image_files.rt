//! Image files, each with its image or its fault.

use byteorder::{ByteOrder, LittleEndian};
use image_loader::ImageFault::{self, Entry, Length, Magic, Place, Priority, Short, Version};
use image_loader::read_image;

/// A program of four instructions: two calls, each with its number in a register.
const FILE: [u8; 44] = [
    b'X', b'I', b'M', b'G', 1, 0, 0, 0, // the letters and the version
    0, 0, 0, 0, 16, 0, 0, 0, // the place and the length
    0, 0, 0, 0, 20, 0, 0, 0, // the entry and the priority
    0, 16, 0, 0, // the stack
    0x93, 0x08, 0x10, 0x00, 0x73, 0x00, 0x00, 0x00, // the content
    0x93, 0x08, 0x90, 0x00, 0x73, 0x00, 0x00, 0x00,
];

/// The letters with which a file begins, as a word.
const XIMG: u32 = 0x474D_4958;

/// Fields of a header ahead of the program's content, and the fault.
const FIELDS: [(&[u32; 7], Option<ImageFault>); 23] = [
    (&[XIMG, 1, 0, 16, 0, 20, 4096], None),
    (&[XIMG, 1, 4, 16, 16, 1, 0], None),
    (&[XIMG, 1, 1_048_560, 16, 1_048_572, 32_767, u32::MAX], None),
    // one field
    (&[XIMG + 1, 1, 0, 16, 0, 20, 4096], Some(Magic)),
    (&[XIMG, 0, 0, 16, 0, 20, 4096], Some(Version)),
    (&[XIMG, 2, 0, 16, 0, 20, 4096], Some(Version)),
    (&[XIMG, 1, 0, 12, 0, 20, 4096], Some(Length)),
    (&[XIMG, 1, 0, u32::MAX, 0, 20, 4096], Some(Length)),
    (&[XIMG, 1, 2, 16, 4, 20, 4096], Some(Place)),
    (&[XIMG, 1, 1_048_564, 16, 1_048_564, 20, 4096], Some(Place)),
    (&[XIMG, 1, 0xFFFF_FFFC, 16, 0, 20, 4096], Some(Place)),
    (&[XIMG, 1, 0, 16, 2, 20, 4096], Some(Entry)),
    (&[XIMG, 1, 0, 16, 16, 20, 4096], Some(Entry)),
    (&[XIMG, 1, 4, 16, 0, 20, 4096], Some(Entry)),
    (&[XIMG, 1, 0, 16, 0xFFFF_FFFC, 20, 4096], Some(Entry)),
    (&[XIMG, 1, 0, 16, 0, 0, 4096], Some(Priority)),
    (&[XIMG, 1, 0, 16, 0, 32_768, 4096], Some(Priority)),
    (&[XIMG, 1, 0, 16, 0, 65_556, 4096], Some(Priority)),
    // several fields
    (&[0, 0, 2, 0, 2, 0, 0], Some(Magic)),
    (&[XIMG, 0, 2, 0, 2, 0, 0], Some(Version)),
    (&[XIMG, 1, 2, 0, 2, 0, 0], Some(Length)),
    (&[XIMG, 1, 2, 16, 2, 0, 0], Some(Place)),
    (&[XIMG, 1, 0, 16, 2, 0, 0], Some(Entry)),
];

// The bytes of a header.
fn header_of(fields: [u32; 7]) -> [u8; 28] {
    let mut header = [0; 28];
    for i in 0..7 {
        LittleEndian::write_u32(&mut header[4 * i..], fields[i]);
    }
    header
}

// The program after another header.
fn file_of(fields: [u32; 7]) -> [u8; 44] {
    let mut file = FILE;
    file[..28].copy_from_slice(&header_of(fields));
    file
}

// Whether the file is one part with these bytes, at this place and of this size.
fn has_part(file: &[u8], bytes: &[u8], place: u32, size: u32) -> bool {
    match read_image(file) {
        Ok(image) => match image.parts.as_slice() {
            [part] => part.bytes == bytes && part.place == place && part.size == size,
            _ => false,
        },
        Err(_) => false,
    }
}

// The entry, the priority and the stack of a file that reads.
fn settings(file: &[u8]) -> Option<(u32, i16, u32)> {
    let image = read_image(file).ok()?;
    Some((image.entry, image.priority, image.stack))
}

#[test]
fn an_image_is_its_header_and_its_content(rt: HostRuntime) {
    assert!(rt; has_part(&FILE, &FILE[28..], 0, 16));
    assert!(rt; settings(&FILE) == Some((0, 20, 4096)));
}

#[test]
fn the_first_field_that_does_not_hold_is_the_fault(rt: HostRuntime) {
    for (fields, fault) in &FIELDS {
        assert!(rt;
            read_image(&file_of(**fields)).err() == *fault,
            "{fields:?}"
        );
    }
    assert!(rt; read_image(&FILE[..27]).err() == Some(Short));
}
