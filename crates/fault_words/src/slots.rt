//! What has to be written as the operands of a word, and what it takes.

ghost use Rattle.std.specs.Prelude.{ℤ, ◌≡◌, map};
ghost use Rattle.rv_isa.specs.Table.{form_of};
ghost use Rattle.asm_syntax.specs.CodeMeanings.{seen_meaning};
ghost use Rattle.asm_syntax.specs.Meanings as meanings;
ghost use Rattle.fault_words.specs.CodeCauses.{seen_slot};
ghost use Rattle.fault_words.specs.Reasons as spec;

use asm_syntax::Meaning;
use rv_isa::{Form, Row};

/// What has to be written as an operand.
#[derive(Clone, Copy, Drop)]
pub(crate) enum Slot {
    /// A register.
    Register,
    /// A number.
    Number,
    /// A number before a register in parentheses.
    Offset,
    /// A label.
    Label,
    /// The name of a call.
    Call,
    /// A text.
    Text,
    /// A number or a label.
    Word,
}

/// The operands that a word takes.
pub(crate) fn slots_of(meaning: Meaning) -> &'static [Slot]
    ensures slots { map seen_slot result.now ≡ meanings.slots_of (seen_meaning meaning) }
{
    match meaning {
        Meaning::Instruction(row) => slots_of_row(row),
        Meaning::Li => &[Slot::Register, Slot::Number],
        Meaning::La => &[Slot::Register, Slot::Label],
        Meaning::Mv => &[Slot::Register, Slot::Register],
        Meaning::Jump | Meaning::DotEntry => &[Slot::Label],
        Meaning::Sys => &[Slot::Call],
        Meaning::DotWord => &[Slot::Word],
        Meaning::DotByte
        | Meaning::DotZero
        | Meaning::DotPlace
        | Meaning::DotPriority
        | Meaning::DotStack => &[Slot::Number],
        Meaning::DotAscii => &[Slot::Text],
        Meaning::Nop | Meaning::Ret | Meaning::DotAlign => &[],
    }
}

// The operands that an instruction of the table takes.
fn slots_of_row(row: Row) -> &'static [Slot]
    ensures slots { map seen_slot result.now ≡ meanings.slots_of_form (form_of row.form) row.bits }
{
    match row.form {
        Form::U => &[Slot::Register, Slot::Number],
        Form::J => &[Slot::Register, Slot::Label],
        Form::I => {
            if row.bits % 128 == 0x13 {
                &[Slot::Register, Slot::Register, Slot::Number]
            } else {
                &[Slot::Register, Slot::Offset]
            }
        }
        Form::B => &[Slot::Register, Slot::Register, Slot::Label],
        Form::S => &[Slot::Register, Slot::Offset],
        Form::Shift => &[Slot::Register, Slot::Register, Slot::Number],
        Form::R => &[Slot::Register, Slot::Register, Slot::Register],
        Form::Fence | Form::Whole => &[],
    }
}

/// The least and the greatest number that a word takes.
pub(crate) fn limits_of(meaning: Meaning) -> (i64, i64)
    ensures limits { result ≡ spec.limits_of (seen_meaning meaning) }
{
    match meaning {
        Meaning::Instruction(row) => limits_of_form(row.form),
        Meaning::DotByte => (-128, 255),
        Meaning::DotZero => (0, 1_048_576),
        Meaning::DotPriority => (1, 32767),
        Meaning::DotStack => (0, 4_294_967_295),
        _ => (-2_147_483_648, 4_294_967_295),
    }
}

// The least and the greatest number that an instruction takes.
fn limits_of_form(form: Form) -> (i64, i64)
    ensures limits { result ≡ spec.limits_of_form (form_of form) }
{
    match form {
        Form::U => (0, 1_048_575),
        Form::Shift => (0, 31),
        _ => (-2048, 2047),
    }
}
