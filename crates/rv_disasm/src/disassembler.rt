//! Words as lines of assembler.

ghost use Rattle.std.specs.Prelude.{◌≡◌, ◌≤◌, ◌++◌, length, codes};
ghost use Rattle.rv_isa.specs.Table.{form_of};
ghost use Rattle.rv_disasm.specs.Disassembly as spec;

use crate::asm_line::AsmLine;
use crate::operands::Operand;
use crate::rows::row_of;
use rv_isa::{Form, immediate_b, immediate_i, immediate_j, immediate_s, rd, rs1, rs2};

/// The line of assembler for a word at an address.
///
/// It is an instruction if the word is one that the assembler writes, and else a `.word`. A branch and a jump name the address that they
/// go to by the label `at_` and its eight hexadecimal digits.
pub fn disassembled(word: u32, address: u32) -> AsmLine
    ensures line { result ≡ spec.disassembly word address }
{
    let mut line = AsmLine::new();
    match row_of(word) {
        Some(row) => {
            if is_written(row.form, word) {
                line.append(row.name.as_bytes());
                push_operands(&mut line, row.form, row.bits, word, address);
            } else {
                push_data(&mut line, word);
            }
        }
        None => push_data(&mut line, word),
    }
    line
}

// Whether the assembler writes a word of this form as an instruction.
fn is_written(form: Form, word: u32) -> bool
    ensures { result ≡ spec.is_written (form_of form) word }
{
    match form {
        Form::Fence => word == 0x0ff0_000f,
        _ => true,
    }
}

// Appends a word as data.
fn push_data(line: &mut AsmLine, word: u32)
    requires { length line.old ≤ 10 }
    ensures { line.new ≡ line.old ++ spec.as_data word }
{
    line.append(b".word 0x");
    line.hex_word(word);
}

// Appends the operands of a word of this form, at an address.
fn push_operands(line: &mut AsmLine, form: Form, bits: u32, word: u32, address: u32)
    requires { length line.old ≤ 10 }
    ensures { line.new ≡ spec.with_operands line.old (spec.operands (form_of form) bits word address) }
{
    match form {
        Form::U => line.two(
            Operand::Register(rd(word)),
            Operand::Number((word / 4096) as i32),
        ),
        Form::J => {
            let target = address.wrapping_add(immediate_j(word));
            line.two(Operand::Register(rd(word)), Operand::Target(target));
        }
        Form::I => push_form_i(line, bits, word),
        Form::B => {
            let target = address.wrapping_add(immediate_b(word));
            let (first, second) = (Operand::Register(rs1(word)), Operand::Register(rs2(word)));
            line.three(first, second, Operand::Target(target));
        }
        Form::S => {
            let offset = Operand::Offset(immediate_s(word).cast_signed(), rs1(word));
            line.two(Operand::Register(rs2(word)), offset);
        }
        Form::Shift => {
            let (first, second) = (Operand::Register(rd(word)), Operand::Register(rs1(word)));
            line.three(first, second, Operand::Number(rs2(word) as i32));
        }
        Form::R => {
            let (first, second) = (Operand::Register(rd(word)), Operand::Register(rs1(word)));
            line.three(first, second, Operand::Register(rs2(word)));
        }
        Form::Fence | Form::Whole => {}
    }
}

// Appends the operands of a word of form I.
fn push_form_i(line: &mut AsmLine, bits: u32, word: u32)
    requires { length line.old ≤ 10 }
    ensures { line.new ≡ spec.with_operands line.old (spec.operands (form_of Form.I) bits word 0) }
{
    let imm = immediate_i(word).cast_signed();
    let first = Operand::Register(rd(word));
    if bits % 128 == 0x13 {
        line.three(first, Operand::Register(rs1(word)), Operand::Number(imm));
    } else {
        line.two(first, Operand::Offset(imm, rs1(word)));
    }
}
