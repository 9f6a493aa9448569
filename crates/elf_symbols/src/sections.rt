//! The sections of a file.

ghost use Rattle.std.specs.Prelude.{◌≡◌, ◌≤◌, ◌<◌, ◌+◌, ◌*◌, true, length};
ghost use Rattle.elf_symbols.specs.Sections as spec;
ghost use Rattle.elf_symbols.specs.Symbols.{section_bytes};

use crate::numbers::{half_at, word_at};

/// The number of bytes of a file's header.
const HEADER_SIZE: usize = 52;
/// The number of bytes of a section's header.
const SECTION_SIZE: usize = 40;
/// The type of a section of symbols.
const SYMBOLS: u32 = 2;

/// A section: the fields of its header that say where its symbols or strings are.
#[derive(Clone, Copy, Drop)]
pub struct Section {
    /// What it is: symbols, strings, ..
    pub kind: u32,
    /// Whether it has instructions, and other such marks.
    pub flags: u32,
    /// Where its bytes begin in the file.
    pub offset: u32,
    /// How many bytes it has.
    pub size: u32,
    /// The number of the section with its strings.
    pub link: u32,
    /// The number of bytes of each of its entries.
    pub entry_size: u32,
}

impl Section {
    /// The section whose header is at a place.
    pub fn at(bytes: &[u8], at: usize) -> Section
        requires { at + 40 ≤ length bytes.now }
        ensures { result ≡ spec.section_at bytes.now at }
    {
        Section {
            kind: word_at(bytes, at + 4),
            flags: word_at(bytes, at + 8),
            offset: word_at(bytes, at + 16),
            size: word_at(bytes, at + 20),
            link: word_at(bytes, at + 24),
            entry_size: word_at(bytes, at + 36),
        }
    }

    /// The section of a number.
    #[tactic(auto, unfolding(crate::specs::Sections::has_sections))]
    pub fn numbered(bytes: &[u8], number: u32) -> Section
        requires sections { spec.has_sections bytes.now ≡ true }
        requires number { number < spec.section_count bytes.now }
        ensures { result ≡ spec.section_numbered bytes.now number }
    {
        Section::at(
            bytes,
            word_at(bytes, 32) as usize + SECTION_SIZE * number as usize,
        )
    }

    /// Whether its bytes lie in the file.
    pub fn is_in_file(&self, bytes: &[u8]) -> bool
        ensures { result ≡ spec.is_in_file bytes.now self.now }
    {
        self.offset as u64 + self.size as u64 <= bytes.len() as u64
    }

    /// Its bytes.
    pub fn bytes_in<'a>(&self, bytes: &'a [u8]) -> &'a [u8]
        requires { spec.is_in_file bytes.now self.now ≡ true }
        ensures { result.now ≡ section_bytes bytes.now self.now }
    {
        let offset = self.offset as usize;
        &bytes[offset..offset + self.size as usize]
    }
}

/// Whether the bytes are an ELF file for the machine whose sections have headers that lie in the file.
#[tactic(auto, unfolding(crate::specs::Sections::has_sections))]
pub fn has_sections(bytes: &[u8]) -> bool
    ensures { result ≡ spec.has_sections bytes.now }
{
    bytes.len() >= HEADER_SIZE
        && is_for_machine(bytes)
        && half_at(bytes, 46) as usize == SECTION_SIZE
        && word_at(bytes, 32) as u64 + 40 * half_at(bytes, 48) as u64 <= bytes.len() as u64
}

// Whether the bytes begin like an ELF file of 32 bits, the lowest byte first, for RISC-V.
fn is_for_machine(bytes: &[u8]) -> bool
    requires { 52 ≤ length bytes.now }
    ensures { result ≡ spec.is_for_machine bytes.now }
{
    &bytes[..4] == b"\x7fELF".as_slice()
        && bytes[4] == 1
        && bytes[5] == 1
        && half_at(bytes, 18) == 243
}

/// How many sections there are.
#[tactic(auto, unfolding(crate::specs::Sections::has_sections))]
pub fn section_count(bytes: &[u8]) -> u32
    requires { spec.has_sections bytes.now ≡ true }
    ensures { result ≡ spec.section_count bytes.now }
{
    half_at(bytes, 48) as u32
}

/// The first section of symbols.
#[tactic(auto, unfolding(crate::specs::Sections::has_sections))]
pub fn symbols_section(bytes: &[u8]) -> Option<Section>
    requires { spec.has_sections bytes.now ≡ true }
    ensures { result ≡ spec.symbols_among bytes.now (spec.section_table bytes.now) (spec.section_count bytes.now) }
{
    symbols_among(
        bytes,
        word_at(bytes, 32) as usize,
        half_at(bytes, 48) as usize,
    )
}

// The first section of symbols among so many whose headers are at a place, one after another.
fn symbols_among(bytes: &[u8], table: usize, count: usize) -> Option<Section>
    requires { table + 40 * count ≤ length bytes.now }
    ensures { result ≡ spec.symbols_among bytes.now table count }
{
    let mut at = table;
    for _ in 0..count {
        let section = Section::at(bytes, at);
        if section.kind == SYMBOLS {
            return Some(section);
        }
        at += SECTION_SIZE;
    }
    None
}
