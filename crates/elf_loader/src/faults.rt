//! What can be wrong with an ELF file, and with an image file of either kind.

ghost use Rattle.std.specs.Prelude.{◌≡◌};
ghost use Rattle.elf_loader.specs.ElfFaults.{elf_fault_number, load_fault_number};

use image_loader::ImageFault;

/// The first test that an ELF file fails, in the order in which the tests are made.
#[derive(Clone, Copy, PartialEq, Eq)]
pub enum ElfFault {
    /// There are fewer bytes than a header has, which is 52.
    Short,
    /// The file isn't of words of 32 bits, the lowest byte first, in version 1.
    Class,
    /// The file isn't a program, or not one for RISC-V.
    Kind,
    /// The headers of the segments haven't 32 bytes each, or aren't in the file.
    Headers,
    /// The program asks for another program that loads it.
    Dynamic,
    /// A loaded segment has more bytes than addresses, or bytes that aren't in the file, or addresses that aren't in RAM.
    Segment,
    /// There are more than eight loaded segments.
    TooMany,
    /// Two loaded segments share an address.
    Meet,
    /// The entry isn't a multiple of 4, or isn't the address of a word that is loaded from the file.
    Entry,
    /// The priority that a note gives isn't from 1 to 32767.
    Note,
}

impl ElfFault {
    /// The number by which the fault is reported, from 11 for `Short` to 20 for `Note`.
    pub fn number(self) -> u8
        ensures { result ≡ elf_fault_number self }
    {
        match self {
            ElfFault::Short => 11,
            ElfFault::Class => 12,
            ElfFault::Kind => 13,
            ElfFault::Headers => 14,
            ElfFault::Dynamic => 15,
            ElfFault::Segment => 16,
            ElfFault::TooMany => 17,
            ElfFault::Meet => 18,
            ElfFault::Entry => 19,
            ElfFault::Note => 20,
        }
    }
}

/// The fault of an image file of either kind.
#[derive(Clone, Copy, PartialEq, Eq)]
pub enum LoadFault {
    /// The fault of a file that doesn't begin as an ELF file.
    Image(ImageFault),
    /// The fault of a file that does.
    Elf(ElfFault),
}

impl LoadFault {
    /// The number by which the fault is reported: 1 to 7, or from 11 on for an ELF file.
    pub fn number(self) -> u8
        ensures { result ≡ load_fault_number self }
    {
        match self {
            LoadFault::Image(fault) => fault.number(),
            LoadFault::Elf(fault) => fault.number(),
        }
    }
}
