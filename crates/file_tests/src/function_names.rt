//! The functions of an ELF file, by their addresses.

ghost use Rattle.std.specs.Prelude.{◌≤◌};

use byteorder::{ByteOrder, LittleEndian};
use elf_symbols::function_at;

/// A program that clang 14 and its linker made, without its comments. By `nm` it has the functions `_start` at 4096, `stop` at 4104 and
/// `main` at 4108, and the data `table` at 4116.
const PROGRAM: [u8; 524] = [
    0x7f, 0x45, 0x4c, 0x46, 1, 1, 1, 0, 0, 0, 0, 0, 0, 0, 0, 0, 2, 0, 0xf3, 0, 1, 0, 0, 0, 0, 0x10,
    0, 0, 0x34, 0, 0, 0, 0x1c, 1, 0, 0, 0, 0, 0, 0, 0x34, 0, 0x20, 0, 2, 0, 0x28, 0, 6, 0, 4, 0, 1,
    0, 0, 0, 0x74, 0, 0, 0, 0, 0x10, 0, 0, 0, 0x10, 0, 0, 0x18, 0, 0, 0, 0x18, 0, 0, 0, 7, 0, 0, 0,
    4, 0, 0, 0, 0x51, 0xe5, 0x74, 0x64, 0, 0, 0, 0, 0, 0, 0, 0, 0, 0, 0, 0, 0, 0, 0, 0, 0, 0, 0, 0,
    6, 0, 0, 0, 0, 0, 0, 0, 0x97, 0, 0, 0, 0xe7, 0x80, 0xc0, 0, 0x6f, 0, 0, 0, 0x13, 5, 0, 0, 0x67,
    0x80, 0, 0, 1, 0, 0, 0, 0, 0, 0, 0, 0, 0, 0, 0, 0, 0, 0, 0, 0, 0, 0, 0, 8, 0, 0, 0, 8, 0x10, 0,
    0, 0, 0, 0, 0, 0, 0, 1, 0, 0x12, 0, 0, 0, 0x14, 0x10, 0, 0, 0, 0, 0, 0, 0, 0, 2, 0, 1, 0, 0, 0,
    0, 0x10, 0, 0, 0, 0, 0, 0, 0x10, 0, 1, 0, 0x0d, 0, 0, 0, 0x0c, 0x10, 0, 0, 0, 0, 0, 0, 0x12, 0,
    1, 0, 0, 0x2e, 0x74, 0x65, 0x78, 0x74, 0, 0x2e, 0x73, 0x68, 0x73, 0x74, 0x72, 0x74, 0x61, 0x62,
    0, 0x2e, 0x73, 0x74, 0x72, 0x74, 0x61, 0x62, 0, 0x2e, 0x73, 0x79, 0x6d, 0x74, 0x61, 0x62, 0,
    0x2e, 0x64, 0x61, 0x74, 0x61, 0, 0, 0x5f, 0x73, 0x74, 0x61, 0x72, 0x74, 0, 0x73, 0x74, 0x6f,
    0x70, 0, 0x6d, 0x61, 0x69, 0x6e, 0, 0x74, 0x61, 0x62, 0x6c, 0x65, 0, 0, 0, 0, 0, 0, 0, 0, 0, 0,
    0, 0, 0, 0, 0, 0, 0, 0, 0, 0, 0, 0, 0, 0, 0, 0, 0, 0, 0, 0, 0, 0, 0, 0, 0, 0, 0, 0, 0, 0, 0, 0,
    1, 0, 0, 0, 1, 0, 0, 0, 6, 0, 0, 0, 0, 0x10, 0, 0, 0x74, 0, 0, 0, 0x14, 0, 0, 0, 0, 0, 0, 0, 0,
    0, 0, 0, 4, 0, 0, 0, 0, 0, 0, 0, 0x21, 0, 0, 0, 1, 0, 0, 0, 3, 0, 0, 0, 0x14, 0x10, 0, 0, 0x88,
    0, 0, 0, 4, 0, 0, 0, 0, 0, 0, 0, 0, 0, 0, 0, 1, 0, 0, 0, 0, 0, 0, 0, 0x19, 0, 0, 0, 2, 0, 0, 0,
    0, 0, 0, 0, 0, 0, 0, 0, 0x8c, 0, 0, 0, 0x50, 0, 0, 0, 5, 0, 0, 0, 3, 0, 0, 0, 4, 0, 0, 0, 0x10,
    0, 0, 0, 7, 0, 0, 0, 3, 0, 0, 0, 0, 0, 0, 0, 0, 0, 0, 0, 0xdc, 0, 0, 0, 0x27, 0, 0, 0, 0, 0, 0,
    0, 0, 0, 0, 0, 1, 0, 0, 0, 0, 0, 0, 0, 0x11, 0, 0, 0, 3, 0, 0, 0, 0, 0, 0, 0, 0, 0, 0, 0, 3, 1,
    0, 0, 0x18, 0, 0, 0, 0, 0, 0, 0, 0, 0, 0, 0, 1, 0, 0, 0, 0, 0, 0, 0,
];

/// Addresses, each with its function and the distance from there.
const PLACES: [(u32, Option<(&str, u32)>); 9] = [
    (0, None),
    (4095, None),
    (4096, Some(("_start", 0))),
    (4100, Some(("_start", 4))),
    (4104, Some(("stop", 0))),
    (4107, Some(("stop", 3))),
    (4108, Some(("main", 0))),
    (4116, Some(("main", 8))),
    (u32::MAX, Some(("main", 4_294_963_187))),
];

// Whether a file has this function before an address, at this distance.
fn is_at(file: &[u8], address: u32, place: Option<(&str, u32)>) -> bool {
    match (function_at(file, address), place) {
        (Some(found), Some((name, offset))) => {
            found.name == name.as_bytes() && found.offset == offset
        }
        (None, None) => true,
        _ => false,
    }
}

#[test]
fn an_address_is_in_the_function_that_begins_last_before_it(rt: HostRuntime) {
    for (address, place) in &PLACES {
        assert!(rt; is_at(&PROGRAM, *address, *place), "{address}");
    }
}

// The program with another word at a place.
fn with_word(at: usize, word: u32) -> [u8; 524]
    requires { at ≤ 520 }
{
    let mut file = PROGRAM;
    LittleEndian::write_u32(&mut file[at..], word);
    file
}

/// Another word of the program, at a place, with which it has no functions.
const SPOILT: [(usize, u32); 9] = [
    // other letters, words of 64 bits, and another machine
    (0, 0x464c_457e),
    (4, 0x0001_0102),
    (16, 0x003e_0002),
    // headers of the sections after the end, and of another size
    (32, 285),
    (46, 0x0006_0020),
    // symbols of another size, after the end, and with strings of no section
    (440, 24),
    (420, 500),
    (428, 6),
    // a table of strings that is none
    (488, 1),
];

#[test]
fn a_file_whose_tables_are_spoilt_has_no_functions(rt: HostRuntime) {
    for (at, word) in &SPOILT {
        assert!(rt;
            function_at(&with_word(*at, *word), 4096).is_none(),
            "{word} at {at}"
        );
    }
}
