//! The sizes and the kinds of statements.

ghost use Rattle.std.specs.Prelude.{◌≡◌, ◌+◌, length, true, is_some};
ghost use Rattle.asm_syntax.specs.CodeStatements.{seen_statement, IsProper};
ghost use Rattle.asm_syntax.specs.Texts.{bytes_of, text_bytes};
ghost use Rattle.rv_asm.specs.Layouts as spec;

use asm_syntax::{Statement, next_byte};

/// How many bytes a statement puts at an address. The statement is a proper one, as a line has it.
pub fn size_at(at: u64, statement: &Statement<'_>) -> u64
    requires proper { IsProper statement.now }
    ensures size { result ≡ spec.size_at at (seen_statement statement.now) }
{
    match statement {
        Statement::One(_)
        | Statement::Branch { .. }
        | Statement::JumpTo { .. }
        | Statement::Word(_)
        | Statement::WordAt(_) => 4,
        Statement::Two(_, _) | Statement::AddressOf { .. } => 8,
        Statement::Byte(_) => 1,
        Statement::Text(text) => text_size(text),
        Statement::Zeros(n) => *n as u64,
        Statement::Align => (4 - at % 4) % 4,
        Statement::Empty
        | Statement::Malformed
        | Statement::Unresolved
        | Statement::Excessive
        | Statement::NameFor(_)
        | Statement::NegativeFor(_)
        | Statement::Place(_)
        | Statement::Entry(_)
        | Statement::Priority(_)
        | Statement::Stack(_) => 0,
    }
}

// How many bytes a text stands for.
fn text_size(text: &[u8]) -> u64
    requires bytes { is_some (text_bytes text.now) ≡ true }
    ensures size { result ≡ length (bytes_of text.now) }
{
    let mut size = 0;
    let mut rest = text;
    while !rest.is_empty() {
        match next_byte(rest) {
            Some((_, next)) => {
                size += 1;
                rest = next;
            }
            None => return size,
        }
    }
    size
}

/// Whether a statement puts instructions.
pub fn is_code(statement: &Statement<'_>) -> bool
    ensures code { result ≡ spec.is_code (seen_statement statement.now) }
{
    match statement {
        Statement::One(_)
        | Statement::Two(_, _)
        | Statement::Branch { .. }
        | Statement::JumpTo { .. }
        | Statement::AddressOf { .. } => true,
        _ => false,
    }
}

/// Whether a statement puts content, though it may be of no bytes.
pub(crate) fn is_content(statement: &Statement<'_>) -> bool
    ensures content { result ≡ spec.is_content (seen_statement statement.now) }
{
    match statement {
        Statement::Word(_)
        | Statement::Byte(_)
        | Statement::Text(_)
        | Statement::WordAt(_)
        | Statement::Zeros(_)
        | Statement::Align => true,
        _ => is_code(statement),
    }
}
