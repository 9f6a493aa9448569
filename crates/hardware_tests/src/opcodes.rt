//! The table of instructions beside the listing of RV32I in the manual (volume I, the chapter of instruction set listings), which gives each
//! instruction by its fields: the opcode, funct3 and funct7.

use crate::rows::same;
use rv_isa::row_named;

/// Instructions that their opcode tells.
const BY_OPCODE: [(&str, u32); 3] = [
    ("lui", 0b011_0111),
    ("auipc", 0b001_0111),
    ("jal", 0b110_1111),
];

/// Instructions that opcode and funct3 tell.
const BY_FUNCT3: [(&str, u32, u32); 22] = [
    ("jalr", 0b110_0111, 0b000),
    ("beq", 0b110_0011, 0b000),
    ("bne", 0b110_0011, 0b001),
    ("blt", 0b110_0011, 0b100),
    ("bge", 0b110_0011, 0b101),
    ("bltu", 0b110_0011, 0b110),
    ("bgeu", 0b110_0011, 0b111),
    ("lb", 0b000_0011, 0b000),
    ("lh", 0b000_0011, 0b001),
    ("lw", 0b000_0011, 0b010),
    ("lbu", 0b000_0011, 0b100),
    ("lhu", 0b000_0011, 0b101),
    ("sb", 0b010_0011, 0b000),
    ("sh", 0b010_0011, 0b001),
    ("sw", 0b010_0011, 0b010),
    ("addi", 0b001_0011, 0b000),
    ("slti", 0b001_0011, 0b010),
    ("sltiu", 0b001_0011, 0b011),
    ("xori", 0b001_0011, 0b100),
    ("ori", 0b001_0011, 0b110),
    ("andi", 0b001_0011, 0b111),
    ("fence", 0b000_1111, 0b000),
];

/// Instructions that opcode, funct3 and funct7 tell.
const BY_FUNCT7: [(&str, u32, u32, u32); 13] = [
    ("slli", 0b001_0011, 0b001, 0b000_0000),
    ("srli", 0b001_0011, 0b101, 0b000_0000),
    ("srai", 0b001_0011, 0b101, 0b010_0000),
    ("add", 0b011_0011, 0b000, 0b000_0000),
    ("sub", 0b011_0011, 0b000, 0b010_0000),
    ("sll", 0b011_0011, 0b001, 0b000_0000),
    ("slt", 0b011_0011, 0b010, 0b000_0000),
    ("sltu", 0b011_0011, 0b011, 0b000_0000),
    ("xor", 0b011_0011, 0b100, 0b000_0000),
    ("srl", 0b011_0011, 0b101, 0b000_0000),
    ("sra", 0b011_0011, 0b101, 0b010_0000),
    ("or", 0b011_0011, 0b110, 0b000_0000),
    ("and", 0b011_0011, 0b111, 0b000_0000),
];

/// Instructions that have no fields: the opcode SYSTEM, and 0 or 1 in the bits of the immediate.
const WHOLE: [(&str, u32, u32); 2] = [("ecall", 0b111_0011, 0), ("ebreak", 0b111_0011, 1)];

// The mask and the bits of a mnemonic's row; zeros if there is none.
fn row_of(name: &str) -> (u32, u32) {
    match row_named(name.as_bytes()) {
        Some(row) => (row.mask, row.bits),
        None => (0, 0),
    }
}

#[test]
fn rows_are_those_of_the_manual(rt: HostRuntime) {
    for (name, opcode) in &BY_OPCODE {
        same(&rt, *name, row_of(name), (0x7f, *opcode));
    }
    for (name, opcode, funct3) in &BY_FUNCT3 {
        same(&rt, *name, row_of(name), (0x707f, *opcode | *funct3 << 12));
    }
    for (name, opcode, funct3, funct7) in &BY_FUNCT7 {
        let bits = *opcode | *funct3 << 12 | *funct7 << 25;
        same(&rt, *name, row_of(name), (0xfe00_707f, bits));
    }
    for (name, opcode, immediate) in &WHOLE {
        same(
            &rt,
            *name,
            row_of(name),
            (0xffff_ffff, *opcode | *immediate << 20),
        );
    }
}
