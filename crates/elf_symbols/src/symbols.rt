//! The symbols of a file, and which of them are functions and variables.

ghost use Rattle.std.specs.Prelude.{◌≡◌, ◌≤◌, ◌+◌, ◌*◌, ◌==◌, true, not, length, position, take_while, IfSome, Some};
ghost use Rattle.elf_symbols.specs.Sections as sections;
ghost use Rattle.elf_symbols.specs.SoFar as so_far;
ghost use Rattle.elf_symbols.specs.Symbols as spec;

use crate::numbers::{half_at, word_at};
use crate::sections::{Section, section_count};

/// The number of bytes of a symbol.
const SYMBOL_SIZE: usize = 16;
/// The type of a symbol that is a function.
const FUNCTION: u8 = 2;
/// The type of a symbol that has none.
const UNTYPED: u8 = 0;
/// The type of a symbol that is a variable.
const VARIABLE: u8 = 1;
/// The mark of a section with instructions.
const INSTRUCTIONS: u32 = 4;

/// What a symbol is looked for as.
#[derive(Clone, Copy)]
pub enum Sought {
    /// A function that begins at or before an address.
    Function,
    /// A variable that has the byte at an address.
    Variable,
}

/// A symbol: the fields that say which function or variable it is.
#[derive(Clone, Copy, Drop)]
pub struct Symbol {
    /// Where its name begins among the strings.
    pub name: u32,
    /// Its address.
    pub value: u32,
    /// How many bytes it has.
    pub size: u32,
    /// Its type, in the lowest four bits.
    pub info: u8,
    /// The number of its section.
    pub section: u16,
}

impl Symbol {
    /// The symbol that is at a place.
    fn at(bytes: &[u8], at: usize) -> Symbol
        requires { at + 16 ≤ length bytes.now }
        ensures { result ≡ spec.symbol_at bytes.now at }
    {
        Symbol {
            name: word_at(bytes, at),
            value: word_at(bytes, at + 4),
            size: word_at(bytes, at + 8),
            info: bytes[at + 12],
            section: half_at(bytes, at + 14),
        }
    }

    // Whether it is what is looked for at an address.
    fn is_sought(&self, sought: Sought, bytes: &[u8], strings: &[u8], address: u32) -> bool
        requires { sections.has_sections bytes.now ≡ true }
        ensures { result ≡ spec.is_sought sought bytes.now strings.now address self.now }
    {
        match sought {
            Sought::Function => self.is_function(bytes, strings),
            Sought::Variable => self.is_variable(strings, address),
        }
    }

    // Whether it is a variable with the byte at an address, which isn't before it, that a program names.
    fn is_variable(&self, strings: &[u8], address: u32) -> bool
        ensures { result ≡ spec.is_variable strings.now address self.now }
    {
        self.info % 16 == VARIABLE
            && (address as u64) < self.value as u64 + self.size as u64
            && is_given(name_at(strings, self.name))
    }

    /// Whether it is a function of a section with instructions that a program names.
    fn is_function(&self, bytes: &[u8], strings: &[u8]) -> bool
        requires { sections.has_sections bytes.now ≡ true }
        ensures { result ≡ spec.is_function bytes.now strings.now self.now }
    {
        (self.info % 16 == FUNCTION || self.info % 16 == UNTYPED)
            && has_code(bytes, self.section as u32)
            && is_given(name_at(strings, self.name))
    }
}

// Whether the section of a number has instructions.
#[tactic(auto, unfolding(crate::specs::Symbols::has_code))]
fn has_code(bytes: &[u8], number: u32) -> bool
    requires { sections.has_sections bytes.now ≡ true }
    ensures { result ≡ spec.has_code bytes.now number }
{
    number < section_count(bytes) && Section::numbered(bytes, number).flags / INSTRUCTIONS % 2 == 1
}

// Whether a name isn't empty and isn't one that tools make.
fn is_given(name: &[u8]) -> bool
    ensures { result ≡ spec.is_given name.now }
{
    match name {
        [first, ..] => !(*first == b'$' || *first == b'.'),
        [] => false,
    }
}

/// The name that begins at a place among strings, each of which ends with a zero.
pub fn name_at(strings: &[u8], at: u32) -> &[u8]
    ensures { result.now ≡ spec.name_at strings.now at }
{
    let at = at as usize;
    if at >= strings.len() {
        return &[];
    }
    up_to_zero(&strings[at..])
}

// The bytes before the first zero.
fn up_to_zero(bytes: &[u8]) -> &[u8]
    ensures { result.now ≡ take_while (λ b. not (b == 0)) bytes.now }
{
    match zero_in(bytes) {
        Some(end) => &bytes[..end],
        None => bytes,
    }
}

// Where the first zero is.
fn zero_in(bytes: &[u8]) -> Option<usize>
    ensures zero { result ≡ position (λ b. b == 0) bytes.now }
{
    bytes.iter().position(|b| *b == 0)
}

/// What is looked for at an address among so many symbols at a place: that with the greatest address which isn't above it; the first of equals.
pub fn nearest(
    sought: Sought,
    bytes: &[u8],
    strings: &[u8],
    table: usize,
    count: usize,
    address: u32,
) -> Option<Symbol>
    requires sections { sections.has_sections bytes.now ≡ true }
    requires table { table + 16 * count ≤ length bytes.now }
    ensures nearest { result ≡ spec.nearest (spec.is_sought sought bytes.now strings.now address) address (spec.symbols_from bytes.now table count) }
    ensures bound { IfSome result (λ symbol. symbol.value ≤ address) }
{
    let mut best = None;
    let mut at = table;
    for _ in 0..count {
        best = next_best(sought, bytes, strings, address, best, Symbol::at(bytes, at));
        at += SYMBOL_SIZE;
    }
    best
}

// The nearest so far after one symbol more.
fn next_best(
    sought: Sought,
    bytes: &[u8],
    strings: &[u8],
    address: u32,
    best: Option<Symbol>,
    symbol: Symbol,
) -> Option<Symbol>
    requires { sections.has_sections bytes.now ≡ true }
    ensures { result ≡ so_far.next_best (spec.is_sought sought bytes.now strings.now address) address best symbol }
{
    if symbol.is_sought(sought, bytes, strings, address) && symbol.value <= address {
        nearer(best, symbol)
    } else {
        best
    }
}

// Of the nearest symbol so far and another the one with the greater address, and the first if they are equal.
fn nearer(best: Option<Symbol>, symbol: Symbol) -> Option<Symbol>
    ensures { result ≡ so_far.best_of best (Some symbol) }
{
    match best {
        Some(earlier) => {
            if earlier.value < symbol.value {
                Some(symbol)
            } else {
                Some(earlier)
            }
        }
        None => Some(symbol),
    }
}
