//! In which function, or in which variable, an address is.

ghost use Rattle.std.specs.Prelude.{◌≡◌, true};
ghost use Rattle.elf_symbols.specs.CodePlaces.{seen_place};
ghost use Rattle.elf_symbols.specs.Functions as spec;
ghost use Rattle.elf_symbols.specs.Sections as sections;

use crate::sections::{Section, has_sections, section_count, symbols_section};
use crate::symbols::{Sought, name_at, nearest};

/// The number of bytes of a symbol.
const SYMBOL_SIZE: u32 = 16;
/// The type of a section of strings.
const STRINGS: u32 = 3;

/// A place in a function or a variable.
#[derive(Clone, Copy, Drop)]
pub struct Place<'a> {
    /// The name of the function or variable.
    pub name: &'a [u8],
    /// How many bytes the place is after the beginning.
    pub offset: u32,
}

/// The place of an address: after the function with the greatest address that isn't above it, the first of equals.
///
/// `None` if there is no such function, the bytes aren't an ELF file of 32 bits for RISC-V, they have no symbols, or a table of symbols
/// or strings doesn't lie in the file.
pub fn function_at(bytes: &[u8], address: u32) -> Option<Place<'_>>
    ensures place { seen_place result ≡ spec.function_at bytes.now address }
{
    place_at(Sought::Function, bytes, address)
}

/// The place of an address in a variable that has the byte there: of several the one with the greatest address, the first of equals.
///
/// `None` if there is no such variable, and as [`function_at`] says.
pub fn variable_at(bytes: &[u8], address: u32) -> Option<Place<'_>>
    ensures place { seen_place result ≡ spec.variable_at bytes.now address }
{
    place_at(Sought::Variable, bytes, address)
}

// The place of an address, after what is looked for.
fn place_at(sought: Sought, bytes: &[u8], address: u32) -> Option<Place<'_>>
    ensures place { seen_place result ≡ spec.place_at sought bytes.now address }
{
    if !has_sections(bytes) {
        return None;
    }
    match symbols_section(bytes) {
        Some(section) => {
            if has_symbols(bytes, &section) {
                place_in(sought, bytes, &section, address)
            } else {
                None
            }
        }
        None => None,
    }
}

// Whether a section has symbols of 16 bytes that lie in the file, and so do its strings.
#[tactic(auto, unfolding(crate::specs::Functions::has_symbols))]
fn has_symbols(bytes: &[u8], section: &Section) -> bool
    requires { sections.has_sections bytes.now ≡ true }
    ensures { result ≡ spec.has_symbols bytes.now section.now }
{
    if !(section.entry_size == SYMBOL_SIZE
        && section.is_in_file(bytes)
        && section.link < section_count(bytes))
    {
        return false;
    }
    let strings = Section::numbered(bytes, section.link);
    strings.kind == STRINGS && strings.is_in_file(bytes)
}

// The place of an address, by the symbols of a section.
#[tactic(auto, unfolding(crate::specs::Functions::has_symbols))]
fn place_in<'a>(
    sought: Sought,
    bytes: &'a [u8],
    section: &Section,
    address: u32,
) -> Option<Place<'a>>
    requires sections { sections.has_sections bytes.now ≡ true }
    requires symbols { spec.has_symbols bytes.now section.now ≡ true }
    ensures { seen_place result ≡ spec.place_in sought bytes.now address section.now }
{
    let strings = Section::numbered(bytes, section.link).bytes_in(bytes);
    let count = (section.size / SYMBOL_SIZE) as usize;
    let symbol = nearest(
        sought,
        bytes,
        strings,
        section.offset as usize,
        count,
        address,
    )?;
    Some(Place {
        name: name_at(strings, symbol.name),
        offset: address - symbol.value,
    })
}
