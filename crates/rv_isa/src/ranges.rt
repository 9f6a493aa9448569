//! Which instructions have a word: those whose fields are in the ranges of their form.

ghost use Rattle.std.specs.Prelude.{◌≡◌};
ghost use Rattle.rv_isa.specs.Words.{is_valid, is_valid_u, is_valid_j, is_valid_i, is_valid_b, is_valid_s, is_valid_shift, is_valid_r};

use crate::instr::Instr;

// The arms of a match on an instruction: for each form its instructions.
macro_rules! each_form {
    ($instr:expr, $($u:ident)*, $($j:ident)*, $($i:ident)*, $($b:ident)*, $($s:ident)*, $($shift:ident)*, $($r:ident)*, $($none:ident)*) => {
        match $instr {
            $(Instr::$u { rd, imm } => is_form_u(rd, imm),)*
            $(Instr::$j { rd, imm } => is_form_j(rd, imm),)*
            $(Instr::$i { rd, rs1, imm } => is_form_i(rd, rs1, imm),)*
            $(Instr::$b { rs1, rs2, imm } => is_form_b(rs1, rs2, imm),)*
            $(Instr::$s { rs1, rs2, imm } => is_form_s(rs1, rs2, imm),)*
            $(Instr::$shift { rd, rs1, imm } => is_form_shift(rd, rs1, imm),)*
            $(Instr::$r { rd, rs1, rs2 } => is_form_r(rd, rs1, rs2),)*
            $(Instr::$none => true,)*
        }
    };
}

/// Whether an instruction has a word: its registers are below 32, and its immediate is in the range of its form.
///
/// U: the multiples of 4096. J: the even numbers from -1048576 to 1048574. I and S: from -2048 to 2047. B: the even numbers from
/// -4096 to 4094. Shifts: from 0 to 31.
pub fn valid(i: &Instr) -> bool
    ensures { result ≡ is_valid i.now }
{
    each_form!(
        *i,
        Lui Auipc,
        Jal,
        Jalr Lb Lh Lw Lbu Lhu Addi Slti Sltiu Xori Ori Andi,
        Beq Bne Blt Bge Bltu Bgeu,
        Sb Sh Sw,
        Slli Srli Srai,
        Add Sub Sll Slt Sltu Xor Srl Sra Or And,
        Fence Ecall Ebreak
    )
}

// A destination and the upper 20 bits.
fn is_form_u(rd: u8, imm: i32) -> bool
    ensures { result ≡ is_valid_u rd imm }
{
    rd < 32 && imm.cast_unsigned() % 4096 == 0
}

// A destination and the offset of a jump.
fn is_form_j(rd: u8, imm: i32) -> bool
    ensures { result ≡ is_valid_j rd imm }
{
    rd < 32 && -1_048_576 <= imm && imm <= 1_048_574 && imm.cast_unsigned() % 2 == 0
}

// A destination, a source and 12 bits.
fn is_form_i(rd: u8, rs1: u8, imm: i32) -> bool
    ensures { result ≡ is_valid_i rd rs1 imm }
{
    rd < 32 && rs1 < 32 && -2048 <= imm && imm <= 2047
}

// Two sources and the offset of a branch.
fn is_form_b(rs1: u8, rs2: u8, imm: i32) -> bool
    ensures { result ≡ is_valid_b rs1 rs2 imm }
{
    rs1 < 32 && rs2 < 32 && -4096 <= imm && imm <= 4094 && imm.cast_unsigned() % 2 == 0
}

// Two sources and the offset of a store.
fn is_form_s(rs1: u8, rs2: u8, imm: i32) -> bool
    ensures { result ≡ is_valid_s rs1 rs2 imm }
{
    rs1 < 32 && rs2 < 32 && -2048 <= imm && imm <= 2047
}

// A destination, a source and a shift amount.
fn is_form_shift(rd: u8, rs1: u8, imm: i32) -> bool
    ensures { result ≡ is_valid_shift rd rs1 imm }
{
    rd < 32 && rs1 < 32 && 0 <= imm && imm <= 31
}

// A destination and two sources.
fn is_form_r(rd: u8, rs1: u8, rs2: u8) -> bool
    ensures { result ≡ is_valid_r rd rs1 rs2 }
{
    rd < 32 && rs1 < 32 && rs2 < 32
}
