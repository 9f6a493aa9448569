//! What an instruction does, as far as what is known of the registers tells.

ghost use Rattle.std.specs.Prelude.{◌≡◌};
ghost use Rattle.program_logic.specs.Acts as acts;

use crate::knowledge::{Facts, slot_of};
use crate::operations::{Operation, folded};
use crate::values::{
    Slot, are_equal, constant, is_below, is_less, negated, number_in, slot_shifted, slots_added,
    slots_taken,
};
use rv_isa::Instr;

/// How many bytes a load or a store moves.
#[derive(Clone, Copy)]
pub enum Width {
    /// One.
    Byte,
    /// Two.
    Half,
    /// Four.
    Word,
}

/// What an instruction does.
#[derive(Clone, Copy)]
pub enum Act {
    /// A register takes a value.
    Sets(u8, Slot),
    /// It goes on so many bytes from there if its condition holds, which may be known.
    Branches(u32, Option<bool>),
    /// A register takes the address that follows, and it goes on at a target, which may be known.
    Jumps(u8, Option<u32>),
    /// A register takes what lies at an address.
    Loads(u8, Width, Slot),
    /// A value is put to an address: the value, and the address.
    Stores(Width, Slot, Slot),
    /// Nothing.
    Passes,
    /// It calls the kernel.
    Calls,
    /// It stops its process.
    Stops,
}

/// What an instruction at an address does, as far as what is known of the registers tells.
pub fn act_of(instruction: Instr, pc: u32, facts: &Facts) -> Act
    ensures { result ≡ acts.act_of instruction pc facts.now }
{
    match instruction {
        Instr::Lui { rd, imm } => Act::Sets(rd, constant(imm.cast_unsigned())),
        Instr::Auipc { rd, imm } => Act::Sets(rd, constant(pc.wrapping_add(imm.cast_unsigned()))),
        Instr::Jal { rd, imm } => Act::Jumps(rd, Some(pc.wrapping_add(imm.cast_unsigned()))),
        Instr::Jalr { rd, rs1, imm } => Act::Jumps(rd, even(moved(facts, rs1, imm))),
        Instr::Beq { rs1, rs2, imm } => Act::Branches(
            imm.cast_unsigned(),
            are_equal(slot_of(facts, rs1), slot_of(facts, rs2)),
        ),
        Instr::Bne { rs1, rs2, imm } => Act::Branches(
            imm.cast_unsigned(),
            negated(are_equal(slot_of(facts, rs1), slot_of(facts, rs2))),
        ),
        Instr::Blt { rs1, rs2, imm } => Act::Branches(
            imm.cast_unsigned(),
            is_less(slot_of(facts, rs1), slot_of(facts, rs2)),
        ),
        Instr::Bge { rs1, rs2, imm } => Act::Branches(
            imm.cast_unsigned(),
            negated(is_less(slot_of(facts, rs1), slot_of(facts, rs2))),
        ),
        Instr::Bltu { rs1, rs2, imm } => Act::Branches(
            imm.cast_unsigned(),
            is_below(slot_of(facts, rs1), slot_of(facts, rs2)),
        ),
        Instr::Bgeu { rs1, rs2, imm } => Act::Branches(
            imm.cast_unsigned(),
            negated(is_below(slot_of(facts, rs1), slot_of(facts, rs2))),
        ),
        Instr::Lb { rd, rs1, imm } => Act::Loads(rd, Width::Byte, moved(facts, rs1, imm)),
        Instr::Lh { rd, rs1, imm } => Act::Loads(rd, Width::Half, moved(facts, rs1, imm)),
        Instr::Lw { rd, rs1, imm } => Act::Loads(rd, Width::Word, moved(facts, rs1, imm)),
        Instr::Lbu { rd, rs1, imm } => Act::Loads(rd, Width::Byte, moved(facts, rs1, imm)),
        Instr::Lhu { rd, rs1, imm } => Act::Loads(rd, Width::Half, moved(facts, rs1, imm)),
        Instr::Sb { rs1, rs2, imm } => Act::Stores(
            Width::Byte,
            slot_of(facts, rs2),
            moved(facts, rs1, imm),
        ),
        Instr::Sh { rs1, rs2, imm } => Act::Stores(
            Width::Half,
            slot_of(facts, rs2),
            moved(facts, rs1, imm),
        ),
        Instr::Sw { rs1, rs2, imm } => Act::Stores(
            Width::Word,
            slot_of(facts, rs2),
            moved(facts, rs1, imm),
        ),
        Instr::Addi { rd, rs1, imm } => Act::Sets(rd, moved(facts, rs1, imm)),
        Instr::Slti { rd, rs1, imm } => Act::Sets(
            rd,
            folded(
                Operation::Less,
                slot_of(facts, rs1),
                constant(imm.cast_unsigned()),
            ),
        ),
        Instr::Slt { rd, rs1, rs2 } => Act::Sets(
            rd,
            folded(Operation::Less, slot_of(facts, rs1), slot_of(facts, rs2)),
        ),
        Instr::Sltiu { rd, rs1, imm } => Act::Sets(
            rd,
            folded(
                Operation::Below,
                slot_of(facts, rs1),
                constant(imm.cast_unsigned()),
            ),
        ),
        Instr::Sltu { rd, rs1, rs2 } => Act::Sets(
            rd,
            folded(Operation::Below, slot_of(facts, rs1), slot_of(facts, rs2)),
        ),
        Instr::Xori { rd, rs1, imm } => Act::Sets(
            rd,
            folded(
                Operation::Xor,
                slot_of(facts, rs1),
                constant(imm.cast_unsigned()),
            ),
        ),
        Instr::Xor { rd, rs1, rs2 } => Act::Sets(
            rd,
            folded(Operation::Xor, slot_of(facts, rs1), slot_of(facts, rs2)),
        ),
        Instr::Ori { rd, rs1, imm } => Act::Sets(
            rd,
            folded(
                Operation::Or,
                slot_of(facts, rs1),
                constant(imm.cast_unsigned()),
            ),
        ),
        Instr::Or { rd, rs1, rs2 } => Act::Sets(
            rd,
            folded(Operation::Or, slot_of(facts, rs1), slot_of(facts, rs2)),
        ),
        Instr::Andi { rd, rs1, imm } => Act::Sets(
            rd,
            folded(
                Operation::And,
                slot_of(facts, rs1),
                constant(imm.cast_unsigned()),
            ),
        ),
        Instr::And { rd, rs1, rs2 } => Act::Sets(
            rd,
            folded(Operation::And, slot_of(facts, rs1), slot_of(facts, rs2)),
        ),
        Instr::Srli { rd, .. } => Act::Sets(rd, Slot::Unknown),
        Instr::Srl { rd, .. } => Act::Sets(rd, Slot::Unknown),
        Instr::Srai { rd, .. } => Act::Sets(rd, Slot::Unknown),
        Instr::Sra { rd, .. } => Act::Sets(rd, Slot::Unknown),
        Instr::Slli { rd, rs1, imm } => Act::Sets(
            rd,
            slot_shifted(slot_of(facts, rs1), Some(imm.cast_unsigned())),
        ),
        Instr::Sll { rd, rs1, rs2 } => Act::Sets(
            rd,
            slot_shifted(slot_of(facts, rs1), number_in(slot_of(facts, rs2))),
        ),
        Instr::Add { rd, rs1, rs2 } => Act::Sets(
            rd,
            slots_added(slot_of(facts, rs1), slot_of(facts, rs2)),
        ),
        Instr::Sub { rd, rs1, rs2 } => Act::Sets(
            rd,
            slots_taken(slot_of(facts, rs1), slot_of(facts, rs2)),
        ),
        Instr::Fence => Act::Passes,
        Instr::Ecall => Act::Calls,
        Instr::Ebreak => Act::Stops,
    }
}

// What is known of the sum of a register and an immediate.
fn moved(facts: &Facts, register: u8, imm: i32) -> Slot
    ensures { result ≡ acts.moved facts.now register imm }
{
    slots_added(slot_of(facts, register), constant(imm.cast_unsigned()))
}

// The even number at or below a value, if it is known.
fn even(slot: Slot) -> Option<u32>
    ensures { result ≡ acts.even slot }
{
    match number_in(slot) {
        Some(number) => Some(number / 2 * 2),
        None => None,
    }
}
