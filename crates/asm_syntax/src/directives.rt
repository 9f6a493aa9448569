//! The directives, with their operands.

ghost use Rattle.std.specs.Prelude.{◌≡◌, ◌%◌, [], ◌∷◌, map};
ghost use Rattle.asm_syntax.specs.CodeOperands.{seen_operand};
ghost use Rattle.asm_syntax.specs.CodeStatements.{seen_statement, IsProper};
ghost use Rattle.asm_syntax.specs.CodeMeanings.{directive_of};
ghost use Rattle.asm_syntax.specs.Meanings as meanings;
ghost use Rattle.asm_syntax.specs.Statements.{made_of};
ghost use Rattle.asm_syntax.specs.Statements as spec;
ghost use Rattle.asm_syntax.specs.Values.{fitting};

use crate::encoding::word_of;
use crate::operands::Operand;
use crate::statements::{HeaderField, Statement};
use crate::texts::is_text;

/// `.word`: a number or a label.
pub(crate) fn word<'a>(operands: &[Operand<'a>]) -> Statement<'a>
    ensures statement { seen_statement result ≡ made_of meanings.DotWord (fitting (meanings.slots_of meanings.DotWord) (map seen_operand operands.now)) }
    ensures proper { IsProper result }
{
    match operands {
        [Operand::Name(name)] => Statement::WordAt(*name),
        [Operand::Number(n)] => {
            if -2_147_483_648 <= *n && *n <= 4_294_967_295 {
                Statement::Word(word_of(*n))
            } else {
                Statement::Excessive
            }
        }
        _ => Statement::Malformed,
    }
}

/// `.byte`: a number.
pub(crate) fn byte<'a>(operands: &[Operand<'a>]) -> Statement<'a>
    ensures statement { seen_statement result ≡ made_of meanings.DotByte (fitting (meanings.slots_of meanings.DotByte) (map seen_operand operands.now)) }
    ensures proper { IsProper result }
{
    match operands {
        [Operand::Number(n)] => {
            if -128 <= *n && *n <= 255 {
                Statement::Byte((word_of(*n) % 256) as u8)
            } else {
                Statement::Excessive
            }
        }
        [Operand::Name(_)] => Statement::Unresolved,
        _ => Statement::Malformed,
    }
}

/// `.zero`: how many bytes.
pub(crate) fn zeros<'a>(operands: &[Operand<'a>]) -> Statement<'a>
    ensures statement { seen_statement result ≡ made_of meanings.DotZero (fitting (meanings.slots_of meanings.DotZero) (map seen_operand operands.now)) }
    ensures proper { IsProper result }
{
    match operands {
        [Operand::Number(n)] => {
            if 0 <= *n && *n <= 1_048_576 {
                Statement::Zeros(*n as u32)
            } else {
                Statement::Excessive
            }
        }
        [Operand::Name(_)] => Statement::Unresolved,
        _ => Statement::Malformed,
    }
}

/// `.ascii`: a text.
pub(crate) fn ascii<'a>(operands: &[Operand<'a>]) -> Statement<'a>
    ensures statement { seen_statement result ≡ made_of meanings.DotAscii (fitting (meanings.slots_of meanings.DotAscii) (map seen_operand operands.now)) }
    ensures proper { IsProper result }
{
    match operands {
        [operand] => quoted(operand),
        _ => Statement::Malformed,
    }
}

// The statement of an operand that has to be a text.
fn quoted<'a>(operand: &Operand<'a>) -> Statement<'a>
    ensures statement { seen_statement result ≡ made_of meanings.DotAscii (fitting (meanings.TextSlot ∷ []) (seen_operand operand.now ∷ [])) }
    ensures proper { IsProper result }
{
    match operand {
        Operand::Text(text) => {
            if is_text(text) {
                Statement::Text(*text)
            } else {
                Statement::Malformed
            }
        }
        _ => Statement::Malformed,
    }
}

/// `.align`: no operand.
pub(crate) fn align<'a>(operands: &[Operand<'a>]) -> Statement<'a>
    ensures statement { seen_statement result ≡ made_of meanings.DotAlign (fitting (meanings.slots_of meanings.DotAlign) (map seen_operand operands.now)) }
    ensures proper { IsProper result }
{
    if operands.is_empty() {
        Statement::Align
    } else {
        Statement::Malformed
    }
}

/// `.entry`: a label.
pub(crate) fn entry<'a>(operands: &[Operand<'a>]) -> Statement<'a>
    ensures statement { seen_statement result ≡ made_of meanings.DotEntry (fitting (meanings.slots_of meanings.DotEntry) (map seen_operand operands.now)) }
    ensures proper { IsProper result }
{
    match operands {
        [Operand::Name(label)] => Statement::Entry(*label),
        _ => Statement::Malformed,
    }
}

/// A directive of the header: a number that isn't negative.
pub(crate) fn header<'a>(field: HeaderField, operands: &[Operand<'a>]) -> Statement<'a>
    ensures statement { seen_statement result ≡ made_of (directive_of field) (fitting (meanings.NumberSlot ∷ []) (map seen_operand operands.now)) }
    ensures proper { IsProper result }
{
    match operands {
        [Operand::Number(n)] => {
            if *n < 0 {
                Statement::NegativeFor(field)
            } else {
                set(field, *n as u64)
            }
        }
        [Operand::Name(_)] => Statement::NameFor(field),
        _ => Statement::Malformed,
    }
}

// The statement that sets a field of the header.
fn set<'a>(field: HeaderField, number: u64) -> Statement<'a>
    ensures statement { seen_statement result ≡ spec.setting field number }
    ensures proper { IsProper result }
{
    match field {
        HeaderField::PlaceField => Statement::Place(number),
        HeaderField::PriorityField => Statement::Priority(number),
        HeaderField::StackField => Statement::Stack(number),
    }
}
