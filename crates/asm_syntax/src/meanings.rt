//! The words of statements: instructions by the table, and the assembler's own.

ghost use Rattle.std.specs.Prelude.{◌≡◌, Some, None, MatchOption, IfSome};
ghost use Rattle.asm_syntax.specs.CodeMeanings.{seen_meaning, HasRoom};
ghost use Rattle.asm_syntax.specs.Meanings as spec;

use rv_isa::{Row, row_named};

/// What a word asks for.
#[derive(Clone, Copy)]
pub enum Meaning {
    /// An instruction of the table.
    Instruction(Row),
    /// A number is loaded.
    Li,
    /// The address of a label is loaded.
    La,
    /// A register is copied.
    Mv,
    /// Nothing is done.
    Nop,
    /// A jump to a label.
    Jump,
    /// A jump to the return address.
    Ret,
    /// A call of the kernel.
    Sys,
    /// A word of content.
    DotWord,
    /// A byte of content.
    DotByte,
    /// Zero bytes.
    DotZero,
    /// A text.
    DotAscii,
    /// Zero bytes up to a multiple of 4.
    DotAlign,
    /// The place of the content.
    DotPlace,
    /// The label at which the process begins.
    DotEntry,
    /// The priority of the process.
    DotPriority,
    /// The size of its stack.
    DotStack,
}

/// The meaning of a word. `None` if and only if it has none.
pub fn meaning_of(word: &[u8]) -> Option<Meaning>
    ensures meaning { MatchOption result (spec.meaning_of word.now ≡ None) (λ meaning. spec.meaning_of word.now ≡ Some (seen_meaning meaning)) }
    ensures room { IfSome result HasRoom }
{
    match row_named(word) {
        Some(row) => Some(Meaning::Instruction(row)),
        None => own_word(word),
    }
}

// The meaning of a shorthand or a directive.
fn own_word(word: &[u8]) -> Option<Meaning>
    ensures meaning { MatchOption result (spec.named_in spec.own_words word.now ≡ None) (λ meaning. spec.named_in spec.own_words word.now ≡ Some (seen_meaning meaning)) }
    ensures room { IfSome result HasRoom }
{
    let meaning = if word == b"li".as_slice() {
        Meaning::Li
    } else if word == b"la".as_slice() {
        Meaning::La
    } else if word == b"mv".as_slice() {
        Meaning::Mv
    } else if word == b"nop".as_slice() {
        Meaning::Nop
    } else if word == b"j".as_slice() {
        Meaning::Jump
    } else if word == b"ret".as_slice() {
        Meaning::Ret
    } else if word == b"sys".as_slice() {
        Meaning::Sys
    } else {
        return directive(word);
    };
    Some(meaning)
}

// The meaning of a directive.
fn directive(word: &[u8]) -> Option<Meaning>
    ensures meaning { MatchOption result (spec.named_in spec.directives word.now ≡ None) (λ meaning. spec.named_in spec.directives word.now ≡ Some (seen_meaning meaning)) }
    ensures room { IfSome result HasRoom }
{
    let meaning = if word == b".word".as_slice() {
        Meaning::DotWord
    } else if word == b".byte".as_slice() {
        Meaning::DotByte
    } else if word == b".zero".as_slice() {
        Meaning::DotZero
    } else if word == b".ascii".as_slice() {
        Meaning::DotAscii
    } else if word == b".align".as_slice() {
        Meaning::DotAlign
    } else if word == b".place".as_slice() {
        Meaning::DotPlace
    } else if word == b".entry".as_slice() {
        Meaning::DotEntry
    } else if word == b".priority".as_slice() {
        Meaning::DotPriority
    } else if word == b".stack".as_slice() {
        Meaning::DotStack
    } else {
        return None;
    };
    Some(meaning)
}
