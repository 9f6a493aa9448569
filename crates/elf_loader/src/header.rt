//! The header of an ELF file.

ghost use Rattle.std.specs.Prelude.{◌≡◌, ◌≤◌, ◌+◌, ◌*◌, ◌<◌, length};
ghost use Rattle.elf_loader.specs.ElfFiles as files;
ghost use Rattle.elf_loader.specs.ElfHeaders.{elf_header_of};
ghost use Rattle.xinu_model.specs.Memory.{number_at};

use byteorder::{ByteOrder, LittleEndian};

/// The number of bytes of a file's header.
pub(crate) const HEADER_SIZE: usize = 52;
/// The number of bytes of a segment's header.
pub(crate) const SEGMENT_SIZE: usize = 32;
/// Words of 32 bits.
const CLASS_32: u8 = 1;
/// The lowest byte first.
const LOWEST_FIRST: u8 = 1;
/// The version of the format.
const VERSION: u8 = 1;
/// The type of a file that is a program.
const PROGRAM: u16 = 2;
/// The processor RISC-V.
const RISC_V: u16 = 243;

/// The fields of a file's header that say how it is loaded.
#[derive(Clone, Copy)]
pub(crate) struct ElfHeader {
    /// The width of words.
    pub class: u8,
    /// The order of bytes.
    pub encoding: u8,
    /// The version of the format.
    pub version: u8,
    /// What the file is: a program, a library, ..
    pub kind: u16,
    /// The machine for which it is.
    pub machine: u16,
    /// The address of the first instruction.
    pub entry: u32,
    /// Where the headers of the segments begin in the file.
    pub table: u32,
    /// The number of bytes of each.
    pub size: u16,
    /// How many there are.
    pub count: u16,
}

impl ElfHeader {
    /// The header with which the bytes begin.
    pub(crate) fn of(bytes: &[u8]) -> ElfHeader
        requires { 52 ≤ length bytes.now }
        ensures { result ≡ elf_header_of bytes.now }
    {
        ElfHeader {
            class: bytes[4],
            encoding: bytes[5],
            version: bytes[6],
            kind: half_at(bytes, 16),
            machine: half_at(bytes, 18),
            entry: word_at(bytes, 24),
            table: word_at(bytes, 28),
            size: half_at(bytes, 42),
            count: half_at(bytes, 44),
        }
    }

    /// Whether the file has words of 32 bits, the lowest byte first, in version 1.
    pub(crate) fn is_of_class(&self) -> bool
        ensures { result ≡ files.is_of_class self.now }
    {
        self.class == CLASS_32 && self.encoding == LOWEST_FIRST && self.version == VERSION
    }

    /// Whether the file is a program for RISC-V.
    pub(crate) fn is_of_kind(&self) -> bool
        ensures { result ≡ files.is_of_kind self.now }
    {
        self.kind == PROGRAM && self.machine == RISC_V
    }

    /// Whether the headers of the segments have 32 bytes each and are in the file, unless there are none.
    pub(crate) fn has_segments(&self, bytes: &[u8]) -> bool
        ensures { result ≡ files.has_segments bytes.now self.now }
    {
        self.count == 0 || (self.size as usize == SEGMENT_SIZE && self.end() <= bytes.len() as u64)
    }

    // The place after the headers of the segments.
    fn end(&self) -> u64
        ensures { result ≡ self.now.table + 32 * self.now.count }
    {
        self.table as u64 + 32 * self.count as u64
    }
}

/// The half word at a place, the lowest byte first.
pub(crate) fn half_at(bytes: &[u8], place: usize) -> u16
    requires { place + 2 ≤ length bytes.now }
    ensures { result ≡ number_at bytes.now place 2 }
{
    LittleEndian::read_u16(&bytes[place..])
}

/// The word at a place, the lowest byte first.
pub(crate) fn word_at(bytes: &[u8], place: usize) -> u32
    requires { place + 4 ≤ length bytes.now }
    ensures { result ≡ number_at bytes.now place 4 }
{
    LittleEndian::read_u32(&bytes[place..])
}
