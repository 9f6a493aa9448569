//! Putting the fields of a word in their places, for a row of the table that is known only when the program runs.

ghost use Rattle.std.specs.Prelude.{◌≡◌, ◌<◌, ◌≤◌, ◌+◌, ◌*◌, ◌/◌, ◌%◌};
ghost use Rattle.rv_isa.specs.Encoding as spec;
ghost use Rattle.rv_isa.specs.Table.{form_of};

use crate::rows::Form;

/// The word with these fixed bits, of a row of this form, and these fields in their places. The immediate is a word in two's complement;
/// what the form has no field for is left out.
///
/// The fixed bits leave room for the fields, as those of each row do, and each register number is below 32.
pub fn word_with(bits: u32, form: Form, rd: u8, rs1: u8, rs2: u8, imm: u32) -> u32
    requires bits { bits ≤ spec.fixed (form_of form) }
    requires rd { rd < 32 }
    requires rs1 { rs1 < 32 }
    requires rs2 { rs2 < 32 }
    ensures word { result ≡ bits + spec.placed (form_of form) rd rs1 rs2 imm }
{
    bits + match form {
        Form::U => rd as u32 * 0x80 + imm / 0x1000 * 0x1000,
        Form::J => rd as u32 * 0x80 + jump_offset(imm),
        Form::I => rd as u32 * 0x80 + rs1 as u32 * 0x8000 + imm % 0x1000 * 0x10_0000,
        Form::B => rs1 as u32 * 0x8000 + rs2 as u32 * 0x10_0000 + branch_offset(imm),
        Form::S => rs1 as u32 * 0x8000 + rs2 as u32 * 0x10_0000 + store_offset(imm),
        Form::Shift => rd as u32 * 0x80 + rs1 as u32 * 0x8000 + imm % 0x20 * 0x10_0000,
        Form::R => rd as u32 * 0x80 + rs1 as u32 * 0x8000 + rs2 as u32 * 0x10_0000,
        Form::Fence => 0x0ff0_0000,
        Form::Whole => 0,
    }
}

// The offset of a jump in its places.
fn jump_offset(imm: u32) -> u32
    ensures places { result ≡ imm / 0x100000 % 2 * 0x80000000 + imm / 2 % 0x400 * 0x200000 + imm / 0x800 % 2 * 0x100000 + imm / 0x1000 % 0x100 * 0x1000 }
    ensures bound { result ≤ 0xfffff000 }
{
    imm / 0x10_0000 % 2 * 0x8000_0000
        + imm / 2 % 0x400 * 0x20_0000
        + imm / 0x800 % 2 * 0x10_0000
        + imm / 0x1000 % 0x100 * 0x1000
}

// The offset of a branch in its places.
fn branch_offset(imm: u32) -> u32
    ensures places { result ≡ imm / 0x1000 % 2 * 0x80000000 + imm / 0x20 % 0x40 * 0x2000000 + imm / 2 % 0x10 * 0x100 + imm / 0x800 % 2 * 0x80 }
    ensures bound { result ≤ 0xfe000f80 }
{
    imm / 0x1000 % 2 * 0x8000_0000
        + imm / 0x20 % 0x40 * 0x200_0000
        + imm / 2 % 0x10 * 0x100
        + imm / 0x800 % 2 * 0x80
}

// The offset of a store in its places.
fn store_offset(imm: u32) -> u32
    ensures places { result ≡ imm / 0x20 % 0x80 * 0x2000000 + imm % 0x20 * 0x80 }
    ensures bound { result ≤ 0xfe000f80 }
{
    imm / 0x20 % 0x80 * 0x200_0000 + imm % 0x20 * 0x80
}
