//! Reading a word as an instruction.
//!
//! Each function answers for the rows of one opcode; a macro writes the arms of a form.

ghost use Rattle.std.specs.Prelude.{◌≡◌};
ghost use Rattle.rv_isa.specs.Words.{instruction_of, decoded_by};

use crate::fields::{
    immediate_b, immediate_i, immediate_j, immediate_s, immediate_u, rd, rs1, rs2,
};
use crate::instr::Instr;

macro_rules! form_u {
    ($name:ident, $word:expr) => {
        Some(Instr::$name {
            rd: rd($word) as u8,
            imm: immediate_u($word).cast_signed(),
        })
    };
}

macro_rules! form_j {
    ($name:ident, $word:expr) => {
        Some(Instr::$name {
            rd: rd($word) as u8,
            imm: immediate_j($word).cast_signed(),
        })
    };
}

macro_rules! form_i {
    ($name:ident, $word:expr) => {
        Some(Instr::$name {
            rd: rd($word) as u8,
            rs1: rs1($word) as u8,
            imm: immediate_i($word).cast_signed(),
        })
    };
}

macro_rules! form_b {
    ($name:ident, $word:expr) => {
        Some(Instr::$name {
            rs1: rs1($word) as u8,
            rs2: rs2($word) as u8,
            imm: immediate_b($word).cast_signed(),
        })
    };
}

macro_rules! form_s {
    ($name:ident, $word:expr) => {
        Some(Instr::$name {
            rs1: rs1($word) as u8,
            rs2: rs2($word) as u8,
            imm: immediate_s($word).cast_signed(),
        })
    };
}

macro_rules! form_shift {
    ($name:ident, $word:expr) => {
        Some(Instr::$name {
            rd: rd($word) as u8,
            rs1: rs1($word) as u8,
            imm: rs2($word).cast_signed(),
        })
    };
}

macro_rules! form_r {
    ($name:ident, $word:expr) => {
        Some(Instr::$name {
            rd: rd($word) as u8,
            rs1: rs1($word) as u8,
            rs2: rs2($word) as u8,
        })
    };
}

/// The instruction of the row whose bits a word has. `None` if and only if the word has the bits of no row.
pub fn decode(word: u32) -> Option<Instr>
    ensures { result ≡ instruction_of word }
{
    match word % 0x80 {
        0x03 => load(word),
        0x0f => fence(word),
        0x13 => immediate_operation(word),
        0x17 => form_u!(Auipc, word),
        0x23 => store(word),
        0x33 => register_operation(word),
        0x37 => form_u!(Lui, word),
        0x63 => branch(word),
        0x67 => jump_register(word),
        0x6f => form_j!(Jal, word),
        0x73 => system(word),
        _ => None,
    }
}

// The loads.
fn load(word: u32) -> Option<Instr>
    ensures { result ≡ decoded_by 0x03 word }
{
    match word / 0x1000 % 8 {
        0 => form_i!(Lb, word),
        1 => form_i!(Lh, word),
        2 => form_i!(Lw, word),
        4 => form_i!(Lbu, word),
        5 => form_i!(Lhu, word),
        _ => None,
    }
}

// The fence.
fn fence(word: u32) -> Option<Instr>
    ensures { result ≡ decoded_by 0x0f word }
{
    match word / 0x1000 % 8 {
        0 => Some(Instr::Fence),
        _ => None,
    }
}

// The operations on a register and an immediate.
fn immediate_operation(word: u32) -> Option<Instr>
    ensures { result ≡ decoded_by 0x13 word }
{
    match (word / 0x1000 % 8, word / 0x200_0000 % 0x80) {
        (0, _) => form_i!(Addi, word),
        (2, _) => form_i!(Slti, word),
        (3, _) => form_i!(Sltiu, word),
        (4, _) => form_i!(Xori, word),
        (6, _) => form_i!(Ori, word),
        (7, _) => form_i!(Andi, word),
        (1, 0) => form_shift!(Slli, word),
        (5, 0) => form_shift!(Srli, word),
        (5, 0x20) => form_shift!(Srai, word),
        _ => None,
    }
}

// The stores.
fn store(word: u32) -> Option<Instr>
    ensures { result ≡ decoded_by 0x23 word }
{
    match word / 0x1000 % 8 {
        0 => form_s!(Sb, word),
        1 => form_s!(Sh, word),
        2 => form_s!(Sw, word),
        _ => None,
    }
}

// The operations on two registers.
fn register_operation(word: u32) -> Option<Instr>
    ensures { result ≡ decoded_by 0x33 word }
{
    match (word / 0x1000 % 8, word / 0x200_0000 % 0x80) {
        (0, 0) => form_r!(Add, word),
        (0, 0x20) => form_r!(Sub, word),
        (1, 0) => form_r!(Sll, word),
        (2, 0) => form_r!(Slt, word),
        (3, 0) => form_r!(Sltu, word),
        (4, 0) => form_r!(Xor, word),
        (5, 0) => form_r!(Srl, word),
        (5, 0x20) => form_r!(Sra, word),
        (6, 0) => form_r!(Or, word),
        (7, 0) => form_r!(And, word),
        _ => None,
    }
}

// The branches.
fn branch(word: u32) -> Option<Instr>
    ensures { result ≡ decoded_by 0x63 word }
{
    match word / 0x1000 % 8 {
        0 => form_b!(Beq, word),
        1 => form_b!(Bne, word),
        4 => form_b!(Blt, word),
        5 => form_b!(Bge, word),
        6 => form_b!(Bltu, word),
        7 => form_b!(Bgeu, word),
        _ => None,
    }
}

// The jump to a register.
fn jump_register(word: u32) -> Option<Instr>
    ensures { result ≡ decoded_by 0x67 word }
{
    match word / 0x1000 % 8 {
        0 => form_i!(Jalr, word),
        _ => None,
    }
}

// The calls of the kernel and of a debugger.
fn system(word: u32) -> Option<Instr>
    ensures { result ≡ decoded_by 0x73 word }
{
    match word {
        0x0000_0073 => Some(Instr::Ecall),
        0x0010_0073 => Some(Instr::Ebreak),
        _ => None,
    }
}
