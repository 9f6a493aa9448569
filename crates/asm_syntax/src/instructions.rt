//! The instructions of the table with their operands, a function a form.

ghost use Rattle.std.specs.Prelude.{ℕ, ◌≡◌, ◌<◌, ◌≤◌, ◌%◌, map, true, false, ◌==◌, pos, negsuc};
ghost use Rattle.rv_isa.specs.Encoding.{fixed};
ghost use Rattle.rv_isa.specs.Table.{form_of};
ghost use Rattle.xinu_model.specs.Isa.Instructions.{FormU, FormJ, FormI, FormB, FormS, FormShift, FormR, FormFence, FormWhole};
ghost use Rattle.asm_syntax.specs.CodeOperands.{seen_operand};
ghost use Rattle.asm_syntax.specs.CodeStatements.{seen_statement, IsProper};
ghost use Rattle.asm_syntax.specs.Meanings.{Instruction, slots_of};
ghost use Rattle.asm_syntax.specs.Statements.{made_of, one, within};
ghost use Rattle.asm_syntax.specs.Statements as spec;
ghost use Rattle.asm_syntax.specs.Values.{fitting};

use crate::encoding::word_of;
use crate::operands::Operand;
use crate::statements::Statement;
use crate::words::register_of;
use rv_isa::{Form, Row, word_with};

/// The statement of an instruction of the table.
pub(crate) fn instruction<'a>(row: Row, operands: &[Operand<'a>]) -> Statement<'a>
    requires room { row.bits ≤ fixed (form_of row.form) }
    ensures statement { seen_statement result ≡ made_of (Instruction row.bits (form_of row.form)) (fitting (slots_of (Instruction row.bits (form_of row.form))) (map seen_operand operands.now)) }
    ensures proper { IsProper result }
{
    match row.form {
        Form::U => upper(row.bits, operands),
        Form::J => jump(operands),
        Form::I => {
            if row.bits % 128 == 0x13 {
                immediate(row.bits, operands)
            } else {
                load(row.bits, operands)
            }
        }
        Form::B => branch(row.bits, operands),
        Form::S => store(row.bits, operands),
        Form::Shift => shift(row.bits, operands),
        Form::R => registers(row.bits, operands),
        Form::Fence => fence(row.bits, operands),
        Form::Whole => whole(row.bits, operands),
    }
}

// A register and the upper 20 bits.
fn upper<'a>(bits: u32, operands: &[Operand<'a>]) -> Statement<'a>
    requires room { bits ≤ fixed FormU }
    ensures statement { seen_statement result ≡ made_of (Instruction bits FormU) (fitting (slots_of (Instruction bits FormU)) (map seen_operand operands.now)) }
    ensures proper { IsProper result }
{
    match operands {
        [Operand::Name(a), Operand::Number(n)] => match register_of(a) {
            Some(rd) => {
                if 0 <= *n && *n <= 1_048_575 {
                    Statement::One(word_with(bits, Form::U, rd, 0, 0, *n as u32 * 4096))
                } else {
                    Statement::Excessive
                }
            }
            None => Statement::Unresolved,
        },
        [Operand::Name(_), Operand::Name(_)] => Statement::Unresolved,
        _ => Statement::Malformed,
    }
}

// A register and a label.
fn jump<'a>(operands: &[Operand<'a>]) -> Statement<'a>
    ensures statement { (bits : ℕ) → seen_statement result ≡ made_of (Instruction bits FormJ) (fitting (slots_of (Instruction bits FormJ)) (map seen_operand operands.now)) }
    ensures proper { IsProper result }
{
    match operands {
        [Operand::Name(a), Operand::Name(label)] => match register_of(a) {
            Some(rd) => Statement::JumpTo { rd, label: *label },
            None => Statement::Unresolved,
        },
        _ => Statement::Malformed,
    }
}

// Two registers and a number.
fn immediate<'a>(bits: u32, operands: &[Operand<'a>]) -> Statement<'a>
    requires room { bits ≤ fixed FormI }
    requires computes { (bits % 128 == 0x13) ≡ true }
    ensures statement { seen_statement result ≡ made_of (Instruction bits FormI) (fitting (slots_of (Instruction bits FormI)) (map seen_operand operands.now)) }
    ensures proper { IsProper result }
{
    match operands {
        [Operand::Name(a), Operand::Name(b), Operand::Number(n)] => {
            match (register_of(a), register_of(b)) {
                (Some(rd), Some(rs1)) => with_number(bits, Form::I, rd, rs1, 0, *n),
                _ => Statement::Unresolved,
            }
        }
        [Operand::Name(_), Operand::Name(_), Operand::Name(_)] => Statement::Unresolved,
        _ => Statement::Malformed,
    }
}

// A register, and a number before another.
fn load<'a>(bits: u32, operands: &[Operand<'a>]) -> Statement<'a>
    requires room { bits ≤ fixed FormI }
    requires loads { (bits % 128 == 0x13) ≡ false }
    ensures statement { seen_statement result ≡ made_of (Instruction bits FormI) (fitting (slots_of (Instruction bits FormI)) (map seen_operand operands.now)) }
    ensures proper { IsProper result }
{
    match operands {
        [Operand::Name(a), Operand::Offset(n, b)] => match (register_of(a), register_of(b)) {
            (Some(rd), Some(rs1)) => with_number(bits, Form::I, rd, rs1, 0, *n),
            _ => Statement::Unresolved,
        },
        [Operand::Name(_), Operand::NamedOffset] => Statement::Unresolved,
        _ => Statement::Malformed,
    }
}

// Two registers and a label.
fn branch<'a>(bits: u32, operands: &[Operand<'a>]) -> Statement<'a>
    requires room { bits ≤ fixed FormB }
    ensures statement { seen_statement result ≡ made_of (Instruction bits FormB) (fitting (slots_of (Instruction bits FormB)) (map seen_operand operands.now)) }
    ensures proper { IsProper result }
{
    match operands {
        [Operand::Name(a), Operand::Name(b), Operand::Name(label)] => {
            match (register_of(a), register_of(b)) {
                (Some(rs1), Some(rs2)) => Statement::Branch {
                    bits,
                    rs1,
                    rs2,
                    label: *label,
                },
                _ => Statement::Unresolved,
            }
        }
        _ => Statement::Malformed,
    }
}

// The register that is stored, and a number before another.
fn store<'a>(bits: u32, operands: &[Operand<'a>]) -> Statement<'a>
    requires room { bits ≤ fixed FormS }
    ensures statement { seen_statement result ≡ made_of (Instruction bits FormS) (fitting (slots_of (Instruction bits FormS)) (map seen_operand operands.now)) }
    ensures proper { IsProper result }
{
    match operands {
        [Operand::Name(a), Operand::Offset(n, b)] => match (register_of(a), register_of(b)) {
            (Some(rs2), Some(rs1)) => with_number(bits, Form::S, 0, rs1, rs2, *n),
            _ => Statement::Unresolved,
        },
        [Operand::Name(_), Operand::NamedOffset] => Statement::Unresolved,
        _ => Statement::Malformed,
    }
}

// An instruction with a number of 12 bits.
fn with_number<'a>(bits: u32, form: Form, rd: u8, rs1: u8, rs2: u8, number: i64) -> Statement<'a>
    requires room { bits ≤ fixed (form_of form) }
    requires first { rd < 32 }
    requires second { rs1 < 32 }
    requires third { rs2 < 32 }
    ensures statement { seen_statement result ≡ within (negsuc 2047) number (pos 2047) (one bits (form_of form) rd rs1 rs2 (spec.word_of number)) }
    ensures proper { IsProper result }
{
    if -2048 <= number && number <= 2047 {
        Statement::One(word_with(bits, form, rd, rs1, rs2, word_of(number)))
    } else {
        Statement::Excessive
    }
}

// Two registers and a shift amount.
fn shift<'a>(bits: u32, operands: &[Operand<'a>]) -> Statement<'a>
    requires room { bits ≤ fixed FormShift }
    ensures statement { seen_statement result ≡ made_of (Instruction bits FormShift) (fitting (slots_of (Instruction bits FormShift)) (map seen_operand operands.now)) }
    ensures proper { IsProper result }
{
    match operands {
        [Operand::Name(a), Operand::Name(b), Operand::Number(n)] => {
            match (register_of(a), register_of(b)) {
                (Some(rd), Some(rs1)) => {
                    if 0 <= *n && *n <= 31 {
                        Statement::One(word_with(bits, Form::Shift, rd, rs1, 0, word_of(*n)))
                    } else {
                        Statement::Excessive
                    }
                }
                _ => Statement::Unresolved,
            }
        }
        [Operand::Name(_), Operand::Name(_), Operand::Name(_)] => Statement::Unresolved,
        _ => Statement::Malformed,
    }
}

// Three registers.
fn registers<'a>(bits: u32, operands: &[Operand<'a>]) -> Statement<'a>
    requires room { bits ≤ fixed FormR }
    ensures statement { seen_statement result ≡ made_of (Instruction bits FormR) (fitting (slots_of (Instruction bits FormR)) (map seen_operand operands.now)) }
    ensures proper { IsProper result }
{
    match operands {
        [Operand::Name(a), Operand::Name(b), Operand::Name(c)] => {
            match (register_of(a), register_of(b), register_of(c)) {
                (Some(rd), Some(rs1), Some(rs2)) => {
                    Statement::One(word_with(bits, Form::R, rd, rs1, rs2, 0))
                }
                _ => Statement::Unresolved,
            }
        }
        _ => Statement::Malformed,
    }
}

// A fence.
fn fence<'a>(bits: u32, operands: &[Operand<'a>]) -> Statement<'a>
    requires room { bits ≤ fixed FormFence }
    ensures statement { seen_statement result ≡ made_of (Instruction bits FormFence) (fitting (slots_of (Instruction bits FormFence)) (map seen_operand operands.now)) }
    ensures proper { IsProper result }
{
    if operands.is_empty() {
        Statement::One(word_with(bits, Form::Fence, 0, 0, 0, 0))
    } else {
        Statement::Malformed
    }
}

// The whole word is fixed.
fn whole<'a>(bits: u32, operands: &[Operand<'a>]) -> Statement<'a>
    requires room { bits ≤ fixed FormWhole }
    ensures statement { seen_statement result ≡ made_of (Instruction bits FormWhole) (fitting (slots_of (Instruction bits FormWhole)) (map seen_operand operands.now)) }
    ensures proper { IsProper result }
{
    if operands.is_empty() {
        Statement::One(word_with(bits, Form::Whole, 0, 0, 0, 0))
    } else {
        Statement::Malformed
    }
}
