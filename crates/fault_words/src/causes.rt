//! Why a line of assembler is refused.

use asm_syntax::Meaning;

/// Why a line is refused, with the words and numbers that say it.
#[derive(Clone, Copy, Drop)]
pub enum Cause<'a> {
    /// There is too little content for an image.
    NoContent,
    /// It hasn't the form of any line.
    NoForm,
    /// The operands of a word haven't the form that it takes.
    Takes(&'a [u8], Meaning),
    /// A directive is repeated.
    Repeated(&'a [u8]),
    /// A `.place` comes after a label or content.
    Late,
    /// A label is there twice, first at the line of this number.
    LabelTwice(&'a [u8], u32),
    /// There is no instruction or directive of the name.
    NoWord(&'a [u8]),
    /// There is no register of the name.
    NoRegister(&'a [u8]),
    /// There is no call of the name.
    NoCall(&'a [u8]),
    /// There is no label of the name.
    NoLabel(&'a [u8]),
    /// A name is where a number has to be.
    NameForNumber(&'a [u8]),
    /// A name is where the number before a register in parentheses has to be.
    NameForOffset,
    /// A number isn't from the second number to the third.
    Exceeds(i64, i64, i64),
    /// A number is no place of content.
    NoPlace(i64),
    /// An instruction is at this address, not at a multiple of 4.
    Misaligned(u64),
    /// So many bytes at this address don't fit RAM.
    BeyondRam(u64, u64),
    /// From the first address a label at the second is too far away, or odd, for this reach.
    Far(&'a [u8], u64, u64, u64),
    /// A label is no word of the content.
    NoEntry(&'a [u8]),
}
