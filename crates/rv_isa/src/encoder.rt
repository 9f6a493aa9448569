//! Writing an instruction as a word.
//!
//! Each function below `encode` puts the fields of one form in their places; a macro writes the arms of `encode`.

ghost use Rattle.std.specs.Prelude.{◌≡◌, ◌<◌, ◌+◌, ◌*◌, pos, Some, true};
ghost use Rattle.xinu_model.specs.Isa.Instructions.{FormU, FormJ, FormI, FormB, FormS, FormShift, FormR};
ghost use Rattle.rv_isa.specs.Encoding.{word_with, word_of};
ghost use Rattle.rv_isa.specs.RowFields.{funct3_of, funct7_of};
ghost use Rattle.rv_isa.specs.Words.{instruction_of, IsWordOf, is_valid, is_valid_u, is_valid_j, is_valid_i, is_valid_b, is_valid_s, is_valid_shift, is_valid_r};

use crate::instr::Instr;

// The arms of a match on an instruction: for each form its instructions, with the opcode and, if there are any, funct3 and funct7.
macro_rules! each_form {
    (
        $instr:expr,
        $($u:ident $u_op:literal)*,
        $($j:ident $j_op:literal)*,
        $($i:ident $i_op:literal $i_f3:literal)*,
        $($b:ident $b_op:literal $b_f3:literal)*,
        $($s:ident $s_op:literal $s_f3:literal)*,
        $($shift:ident $shift_op:literal $shift_f3:literal $shift_f7:literal)*,
        $($r:ident $r_op:literal $r_f3:literal $r_f7:literal)*,
        $($none:ident $word:literal)*
    ) => {
        match $instr {
            $(Instr::$u { rd, imm } => form_u($u_op, rd, imm),)*
            $(Instr::$j { rd, imm } => form_j($j_op, rd, imm),)*
            $(Instr::$i { rd, rs1, imm } => form_i($i_op, $i_f3, rd, rs1, imm),)*
            $(Instr::$b { rs1, rs2, imm } => form_b($b_op, $b_f3, rs1, rs2, imm),)*
            $(Instr::$s { rs1, rs2, imm } => form_s($s_op, $s_f3, rs1, rs2, imm),)*
            $(Instr::$shift { rd, rs1, imm } => form_shift($shift_op, $shift_f3, $shift_f7, rd, rs1, imm),)*
            $(Instr::$r { rd, rs1, rs2 } => form_r($r_op, $r_f3, $r_f7, rd, rs1, rs2),)*
            $(Instr::$none => $word,)*
        }
    };
}

/// The word of a valid instruction ([`valid`]): the fixed bits of its row, and its fields in their places. It is read as this
/// instruction again. `Fence` has many words, and this is the one that orders all accesses, 0x0FF0000F.
pub fn encode(i: &Instr) -> u32
    requires { is_valid i.now ≡ true }
    ensures word { instruction_of result ≡ Some i.now }
    ensures fields { result ≡ word_of i.now }
    ensures fence { i.now ≡ Instr.Fence → result ≡ 0x0ff0000f }
{
    each_form!(
        *i,
        Lui 0x37 Auipc 0x17,
        Jal 0x6f,
        Jalr 0x67 0 Lb 0x03 0 Lh 0x03 1 Lw 0x03 2 Lbu 0x03 4 Lhu 0x03 5 Addi 0x13 0 Slti 0x13 2 Sltiu 0x13 3 Xori 0x13 4 Ori 0x13 6 Andi 0x13 7,
        Beq 0x63 0 Bne 0x63 1 Blt 0x63 4 Bge 0x63 5 Bltu 0x63 6 Bgeu 0x63 7,
        Sb 0x23 0 Sh 0x23 1 Sw 0x23 2,
        Slli 0x13 1 0 Srli 0x13 5 0 Srai 0x13 5 0x20,
        Add 0x33 0 0 Sub 0x33 0 0x20 Sll 0x33 1 0 Slt 0x33 2 0 Sltu 0x33 3 0 Xor 0x33 4 0 Srl 0x33 5 0 Sra 0x33 5 0x20 Or 0x33 6 0 And 0x33 7 0,
        Fence 0x0ff0_000f Ecall 0x0000_0073 Ebreak 0x0010_0073
    )
}

// A destination and the upper 20 bits.
fn form_u(opcode: u32, rd: u8, imm: i32) -> u32
    requires opcode { opcode < 128 }
    requires valid { is_valid_u rd imm ≡ true }
    ensures word { IsWordOf FormU result opcode (funct3_of result) (funct7_of result) rd 0 0 imm }
    ensures fields { result ≡ word_with opcode FormU rd 0 0 imm }
{
    opcode + rd as u32 * 0x80 + imm.cast_unsigned()
}

// A destination and the offset of a jump.
fn form_j(opcode: u32, rd: u8, imm: i32) -> u32
    requires opcode { opcode < 128 }
    requires valid { is_valid_j rd imm ≡ true }
    ensures word { IsWordOf FormJ result opcode (funct3_of result) (funct7_of result) rd 0 0 imm }
    ensures fields { result ≡ word_with opcode FormJ rd 0 0 imm }
{
    let bits = imm.cast_unsigned();
    let offset = bits / 0x10_0000 % 2 * 0x8000_0000
        + bits / 2 % 0x400 * 0x20_0000
        + bits / 0x800 % 2 * 0x10_0000
        + bits / 0x1000 % 0x100 * 0x1000;
    opcode + rd as u32 * 0x80 + offset
}

// A destination, a source and 12 bits.
fn form_i(opcode: u32, funct3: u32, rd: u8, rs1: u8, imm: i32) -> u32
    requires opcode { opcode < 128 }
    requires funct3 { funct3 < 8 }
    requires valid { is_valid_i rd rs1 imm ≡ true }
    ensures word { IsWordOf FormI result opcode funct3 (funct7_of result) rd rs1 0 imm }
    ensures fields { result ≡ word_with (opcode + funct3 * 0x1000) FormI rd rs1 0 imm }
{
    let bits = imm.cast_unsigned() % 0x1000 * 0x10_0000;
    opcode + rd as u32 * 0x80 + funct3 * 0x1000 + rs1 as u32 * 0x8000 + bits
}

// Two sources and the offset of a branch.
fn form_b(opcode: u32, funct3: u32, rs1: u8, rs2: u8, imm: i32) -> u32
    requires opcode { opcode < 128 }
    requires funct3 { funct3 < 8 }
    requires valid { is_valid_b rs1 rs2 imm ≡ true }
    ensures word { IsWordOf FormB result opcode funct3 (funct7_of result) 0 rs1 rs2 imm }
    ensures fields { result ≡ word_with (opcode + funct3 * 0x1000) FormB 0 rs1 rs2 imm }
{
    let bits = imm.cast_unsigned();
    let high = bits / 0x1000 % 2 * 0x8000_0000 + bits / 0x20 % 0x40 * 0x200_0000;
    let low = bits / 2 % 0x10 * 0x100 + bits / 0x800 % 2 * 0x80;
    opcode + low + funct3 * 0x1000 + rs1 as u32 * 0x8000 + rs2 as u32 * 0x10_0000 + high
}

// Two sources and the offset of a store.
fn form_s(opcode: u32, funct3: u32, rs1: u8, rs2: u8, imm: i32) -> u32
    requires opcode { opcode < 128 }
    requires funct3 { funct3 < 8 }
    requires valid { is_valid_s rs1 rs2 imm ≡ true }
    ensures word { IsWordOf FormS result opcode funct3 (funct7_of result) 0 rs1 rs2 imm }
    ensures fields { result ≡ word_with (opcode + funct3 * 0x1000) FormS 0 rs1 rs2 imm }
{
    let bits = imm.cast_unsigned();
    let high = bits / 0x20 % 0x80 * 0x200_0000;
    let low = bits % 0x20 * 0x80;
    opcode + low + funct3 * 0x1000 + rs1 as u32 * 0x8000 + rs2 as u32 * 0x10_0000 + high
}

// A destination, a source and a shift amount.
fn form_shift(opcode: u32, funct3: u32, funct7: u32, rd: u8, rs1: u8, imm: i32) -> u32
    requires opcode { opcode < 128 }
    requires funct3 { funct3 < 8 }
    requires funct7 { funct7 < 128 }
    requires valid { is_valid_shift rd rs1 imm ≡ true }
    ensures word { IsWordOf FormShift result opcode funct3 funct7 rd rs1 0 imm }
    ensures fields { result ≡ word_with (opcode + funct3 * 0x1000 + funct7 * 0x2000000) FormShift rd rs1 0 imm }
{
    let amount = imm.cast_unsigned() * 0x10_0000;
    opcode + rd as u32 * 0x80 + funct3 * 0x1000 + rs1 as u32 * 0x8000 + amount + funct7 * 0x200_0000
}

// A destination and two sources.
fn form_r(opcode: u32, funct3: u32, funct7: u32, rd: u8, rs1: u8, rs2: u8) -> u32
    requires opcode { opcode < 128 }
    requires funct3 { funct3 < 8 }
    requires funct7 { funct7 < 128 }
    requires valid { is_valid_r rd rs1 rs2 ≡ true }
    ensures word { IsWordOf FormR result opcode funct3 funct7 rd rs1 rs2 (pos 0) }
    ensures fields { result ≡ word_with (opcode + funct3 * 0x1000 + funct7 * 0x2000000) FormR rd rs1 rs2 (pos 0) }
{
    let sources = rs1 as u32 * 0x8000 + rs2 as u32 * 0x10_0000;
    opcode + rd as u32 * 0x80 + funct3 * 0x1000 + sources + funct7 * 0x200_0000
}
