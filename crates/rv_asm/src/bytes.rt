//! The bytes of statements.

ghost use Rattle.std.specs.Prelude.{◌≡◌, ◌<◌, ◌++◌, [], ◌∷◌, true, is_some, replicate, OnOk};
ghost use Rattle.asm_syntax.specs.CodeStatements.{seen_statement, IsProper};
ghost use Rattle.asm_syntax.specs.Statements.{word_bytes};
ghost use Rattle.asm_syntax.specs.Texts.{bytes_of, text_bytes};
ghost use Rattle.rv_asm.specs.Assembly as spec;
ghost use Rattle.rv_asm.specs.CodeLabels.{found};

use crate::judging::{address, address_word, offset_word};
use crate::labels::Labels;
use asm_syntax::{Statement, load, next_byte};
use rv_isa::{Form, word_with};
use std::alloc::AllocError;

/// Appends the bytes of a statement at an address, given the labels.
pub(crate) fn push_statement(
    content: &mut Vec<u8>,
    labels: &Labels<'_>,
    at: u64,
    statement: &Statement<'_>,
) -> Result<(), AllocError>
    requires proper { IsProper statement.now }
    ensures bytes { OnOk result (content.new.items ≡ content.old.items ++ spec.bytes_at (found labels.now) at (seen_statement statement.now)) }
{
    match statement {
        Statement::One(word) => push_word(content, *word),
        Statement::Two(first, second) => push_words(content, *first, *second),
        Statement::Branch {
            bits,
            rs1,
            rs2,
            label,
        } => {
            let offset = offset_word(at, address(labels, label));
            push_word(content, word_with(*bits, Form::B, 0, *rs1, *rs2, offset))
        }
        Statement::JumpTo { rd, label } => {
            let offset = offset_word(at, address(labels, label));
            push_word(content, word_with(0x6f, Form::J, *rd, 0, 0, offset))
        }
        Statement::AddressOf { rd, label } => {
            let (upper, lower) = load(*rd, address_word(labels, label));
            push_words(content, upper, lower)
        }
        Statement::Word(word) => push_word(content, *word),
        Statement::Byte(byte) => push_byte(content, *byte),
        Statement::Text(text) => push_text(content, text),
        Statement::WordAt(label) => push_word(content, address_word(labels, label)),
        Statement::Zeros(n) => push_zeros(content, *n as u64),
        Statement::Align => push_zeros(content, (4 - at % 4) % 4),
        _ => Ok(()),
    }
}

/// Appends the bytes of a word, the lowest first.
pub(crate) fn push_word(content: &mut Vec<u8>, word: u32) -> Result<(), AllocError>
    ensures bytes { OnOk result (content.new.items ≡ content.old.items ++ word_bytes word) }
{
    content.extend_from_slice(&[
        (word % 256) as u8,
        (word / 256 % 256) as u8,
        (word / 65536 % 256) as u8,
        (word / 16_777_216 % 256) as u8,
    ])
}

// Appends the bytes of two words.
fn push_words(content: &mut Vec<u8>, first: u32, second: u32) -> Result<(), AllocError>
    ensures bytes { OnOk result (content.new.items ≡ content.old.items ++ (word_bytes first ++ word_bytes second)) }
{
    push_word(content, first)?;
    push_word(content, second)
}

// Appends a byte.
fn push_byte(content: &mut Vec<u8>, byte: u8) -> Result<(), AllocError>
    ensures bytes { OnOk result (content.new.items ≡ content.old.items ++ byte ∷ []) }
{
    content.push(byte)?;
    Ok(())
}

// Appends the bytes that a text stands for.
fn push_text(content: &mut Vec<u8>, text: &[u8]) -> Result<(), AllocError>
    requires bytes { is_some (text_bytes text.now) ≡ true }
    ensures bytes { OnOk result (content.new.items ≡ content.old.items ++ bytes_of text.now) }
{
    let mut rest = text;
    while !rest.is_empty() {
        match next_byte(rest) {
            Some((byte, next)) => {
                content.push(byte)?;
                rest = next;
            }
            None => return Ok(()),
        }
    }
    Ok(())
}

// Appends n zero bytes.
fn push_zeros(content: &mut Vec<u8>, n: u64) -> Result<(), AllocError>
    ensures bytes { OnOk result (content.new.items ≡ content.old.items ++ replicate n 0) }
{
    for _ in 0..n {
        content.push(0)?;
    }
    Ok(())
}
