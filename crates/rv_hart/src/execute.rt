//! What a word does, by its opcode.
//!
//! Each function answers for the rows of one opcode. A transfer that traps writes no register.

ghost use Rattle.std.specs.Prelude.{◌≡◌, ◌<◌, List, ℕ, Some, None, if◌then◌else◌};
ghost use Rattle.xinu_model.specs.Isa.Instructions.{rd_of, sign_extended};
ghost use Rattle.xinu_model.specs.Isa.Effects.{register, with_register, plus, less, shift_right_signed};
ghost use Rattle.xinu_model.specs.Memory.{may_access, number_at, with_number};
ghost use Rattle.xinu_model.specs.Isa.Exec.{perform};
ghost use Rattle.rv_hart.specs.Opcodes.{of_opcode};

use crate::ram::Ram;
use rv_isa::{immediate_b, immediate_i, immediate_j, immediate_s, immediate_u, rd, rs1, rs2};
use xinu_base::{Cause, Hart, Outcome};

/// Does what a word says.
#[inline(always)]
pub fn execute(hart: &mut Hart, ram: &mut Ram, word: u32) -> Outcome
    ensures outcome { result ≡ (perform word hart.old ram.old).outcome }
    ensures hart { hart.new ≡ (perform word hart.old ram.old).hart }
    ensures memory { ram.new ≡ (perform word hart.old ram.old).memory }
{
    match word % 0x80 {
        0x03 => load(hart, ram, word),
        0x0f => fence(hart, word),
        0x13 => immediate_operation(hart, word),
        0x17 => add_upper_to_pc(hart, word),
        0x23 => store(hart, ram, word),
        0x33 => register_operation(hart, word),
        0x37 => load_upper(hart, word),
        0x63 => branch(hart, word),
        0x67 => jump_register(hart, word),
        0x6f => jump(hart, word),
        0x73 => system(hart, word),
        _ => Outcome::Trap(Cause::Illegal),
    }
}

// An operation on two registers.
#[inline(always)]
fn register_operation(hart: &mut Hart, word: u32) -> Outcome
    ensures outcome { (memory : List ℕ) → result ≡ (of_opcode 0x33 word hart.old memory).outcome }
    ensures hart { (memory : List ℕ) → hart.new ≡ (of_opcode 0x33 word hart.old memory).hart }
    ensures memory { (memory : List ℕ) → memory ≡ (of_opcode 0x33 word hart.old memory).memory }
{
    let a = register(hart, rs1(word));
    let b = register(hart, rs2(word));
    let value = match (word / 0x1000 % 8, word / 0x200_0000 % 0x80) {
        (0, 0) => a.wrapping_add(b),
        (0, 0x20) => a.wrapping_sub(b),
        (1, 0) => a.wrapping_shl(b),
        (2, 0) => is_less(a, b) as u32,
        (3, 0) => (a < b) as u32,
        (4, 0) => a ^ b,
        (5, 0) => a.wrapping_shr(b),
        (5, 0x20) => shifted_right_signed(a, b),
        (6, 0) => a | b,
        (7, 0) => a & b,
        _ => return Outcome::Trap(Cause::Illegal),
    };
    give(hart, word, value);
    Outcome::Went
}

// An operation on a register and an immediate.
#[inline(always)]
fn immediate_operation(hart: &mut Hart, word: u32) -> Outcome
    ensures outcome { (memory : List ℕ) → result ≡ (of_opcode 0x13 word hart.old memory).outcome }
    ensures hart { (memory : List ℕ) → hart.new ≡ (of_opcode 0x13 word hart.old memory).hart }
    ensures memory { (memory : List ℕ) → memory ≡ (of_opcode 0x13 word hart.old memory).memory }
{
    let a = register(hart, rs1(word));
    let b = immediate_i(word);
    let value = match (word / 0x1000 % 8, word / 0x200_0000 % 0x80) {
        (0, _) => a.wrapping_add(b),
        (2, _) => is_less(a, b) as u32,
        (3, _) => (a < b) as u32,
        (4, _) => a ^ b,
        (6, _) => a | b,
        (7, _) => a & b,
        (1, 0) => a.wrapping_shl(rs2(word)),
        (5, 0) => a.wrapping_shr(rs2(word)),
        (5, 0x20) => shifted_right_signed(a, rs2(word)),
        _ => return Outcome::Trap(Cause::Illegal),
    };
    give(hart, word, value);
    Outcome::Went
}

// A load from RAM into a register.
#[inline(always)]
fn load(hart: &mut Hart, ram: &Ram, word: u32) -> Outcome
    ensures outcome { result ≡ (of_opcode 0x03 word hart.old ram.now).outcome }
    ensures hart { hart.new ≡ (of_opcode 0x03 word hart.old ram.now).hart }
    ensures memory { ram.now ≡ (of_opcode 0x03 word hart.old ram.now).memory }
{
    let a = register(hart, rs1(word)).wrapping_add(immediate_i(word));
    let loaded = match word / 0x1000 % 8 {
        0 => signed_byte(ram, a),
        1 => signed_half(ram, a),
        2 => ram.read32(a),
        4 => unsigned_byte(ram, a),
        5 => unsigned_half(ram, a),
        _ => return Outcome::Trap(Cause::Illegal),
    };
    match loaded {
        Some(value) => {
            give(hart, word, value);
            Outcome::Went
        }
        None => Outcome::Trap(Cause::Load),
    }
}

// A store of a register into RAM.
#[inline(always)]
fn store(hart: &mut Hart, ram: &mut Ram, word: u32) -> Outcome
    ensures outcome { result ≡ (of_opcode 0x23 word hart.old ram.old).outcome }
    ensures hart { hart.new ≡ (of_opcode 0x23 word hart.old ram.old).hart }
    ensures memory { ram.new ≡ (of_opcode 0x23 word hart.old ram.old).memory }
{
    let a = register(hart, rs1(word)).wrapping_add(immediate_s(word));
    let b = register(hart, rs2(word));
    let is_stored = match word / 0x1000 % 8 {
        0 => store_byte(ram, a, b),
        1 => store_half(ram, a, b),
        2 => ram.write32(a, b),
        _ => return Outcome::Trap(Cause::Illegal),
    };
    if is_stored {
        hart.pc = hart.pc.wrapping_add(4);
        Outcome::Went
    } else {
        Outcome::Trap(Cause::Store)
    }
}

// A branch, taken if its condition holds.
#[inline(always)]
fn branch(hart: &mut Hart, word: u32) -> Outcome
    ensures outcome { (memory : List ℕ) → result ≡ (of_opcode 0x63 word hart.old memory).outcome }
    ensures hart { (memory : List ℕ) → hart.new ≡ (of_opcode 0x63 word hart.old memory).hart }
    ensures memory { (memory : List ℕ) → memory ≡ (of_opcode 0x63 word hart.old memory).memory }
{
    let a = register(hart, rs1(word));
    let b = register(hart, rs2(word));
    let is_taken = match word / 0x1000 % 8 {
        0 => a == b,
        1 => a != b,
        4 => is_less(a, b),
        5 => !is_less(a, b),
        6 => a < b,
        7 => a >= b,
        _ => return Outcome::Trap(Cause::Illegal),
    };
    let step = if is_taken { immediate_b(word) } else { 4 };
    let target = hart.pc.wrapping_add(step);
    if is_taken && target % 4 != 0 {
        return Outcome::Trap(Cause::Target);
    }
    hart.pc = target;
    Outcome::Went
}

// A jump by an immediate.
#[inline(always)]
fn jump(hart: &mut Hart, word: u32) -> Outcome
    ensures outcome { (memory : List ℕ) → result ≡ (of_opcode 0x6f word hart.old memory).outcome }
    ensures hart { (memory : List ℕ) → hart.new ≡ (of_opcode 0x6f word hart.old memory).hart }
    ensures memory { (memory : List ℕ) → memory ≡ (of_opcode 0x6f word hart.old memory).memory }
{
    let target = hart.pc.wrapping_add(immediate_j(word));
    if target % 4 != 0 {
        return Outcome::Trap(Cause::Target);
    }
    give(hart, word, hart.pc.wrapping_add(4));
    hart.pc = target;
    Outcome::Went
}

// A jump to a register and an immediate.
#[inline(always)]
fn jump_register(hart: &mut Hart, word: u32) -> Outcome
    ensures outcome { (memory : List ℕ) → result ≡ (of_opcode 0x67 word hart.old memory).outcome }
    ensures hart { (memory : List ℕ) → hart.new ≡ (of_opcode 0x67 word hart.old memory).hart }
    ensures memory { (memory : List ℕ) → memory ≡ (of_opcode 0x67 word hart.old memory).memory }
{
    if word / 0x1000 % 8 != 0 {
        return Outcome::Trap(Cause::Illegal);
    }
    let target = register(hart, rs1(word)).wrapping_add(immediate_i(word)) / 2 * 2;
    if target % 4 != 0 {
        return Outcome::Trap(Cause::Target);
    }
    give(hart, word, hart.pc.wrapping_add(4));
    hart.pc = target;
    Outcome::Went
}

// LUI: the immediate.
#[inline(always)]
fn load_upper(hart: &mut Hart, word: u32) -> Outcome
    ensures outcome { (memory : List ℕ) → result ≡ (of_opcode 0x37 word hart.old memory).outcome }
    ensures hart { (memory : List ℕ) → hart.new ≡ (of_opcode 0x37 word hart.old memory).hart }
    ensures memory { (memory : List ℕ) → memory ≡ (of_opcode 0x37 word hart.old memory).memory }
{
    give(hart, word, immediate_u(word));
    Outcome::Went
}

// AUIPC: the immediate and the instruction's own address.
#[inline(always)]
fn add_upper_to_pc(hart: &mut Hart, word: u32) -> Outcome
    ensures outcome { (memory : List ℕ) → result ≡ (of_opcode 0x17 word hart.old memory).outcome }
    ensures hart { (memory : List ℕ) → hart.new ≡ (of_opcode 0x17 word hart.old memory).hart }
    ensures memory { (memory : List ℕ) → memory ≡ (of_opcode 0x17 word hart.old memory).memory }
{
    give(hart, word, hart.pc.wrapping_add(immediate_u(word)));
    Outcome::Went
}

// FENCE: nothing.
#[inline(always)]
fn fence(hart: &mut Hart, word: u32) -> Outcome
    ensures outcome { (memory : List ℕ) → result ≡ (of_opcode 0x0f word hart.old memory).outcome }
    ensures hart { (memory : List ℕ) → hart.new ≡ (of_opcode 0x0f word hart.old memory).hart }
    ensures memory { (memory : List ℕ) → memory ≡ (of_opcode 0x0f word hart.old memory).memory }
{
    if word / 0x1000 % 8 != 0 {
        return Outcome::Trap(Cause::Illegal);
    }
    hart.pc = hart.pc.wrapping_add(4);
    Outcome::Went
}

// ECALL and EBREAK.
#[inline(always)]
fn system(hart: &mut Hart, word: u32) -> Outcome
    ensures outcome { (memory : List ℕ) → result ≡ (of_opcode 0x73 word hart.old memory).outcome }
    ensures hart { (memory : List ℕ) → hart.new ≡ (of_opcode 0x73 word hart.old memory).hart }
    ensures memory { (memory : List ℕ) → memory ≡ (of_opcode 0x73 word hart.old memory).memory }
{
    match word {
        0x0000_0073 => {
            hart.pc = hart.pc.wrapping_add(4);
            Outcome::Call
        }
        0x0010_0073 => Outcome::Trap(Cause::Break),
        _ => Outcome::Trap(Cause::Illegal),
    }
}

// The value of a register; x0 is 0.
#[inline(always)]
fn register(hart: &Hart, number: u32) -> u32
    requires { number < 32 }
    ensures { result ≡ register hart.now.regs number }
{
    if number == 0 {
        0
    } else {
        hart.regs[number as usize]
    }
}

// The destination register takes a value, and the process goes on after the instruction.
#[inline(always)]
fn give(hart: &mut Hart, word: u32, value: u32)
    ensures { hart.new ≡ (record { regs = with_register hart.old.regs (rd_of word) value; pc = plus hart.old.pc 4 }) }
{
    let number = rd(word);
    if number != 0 {
        hart.regs[number as usize] = value;
    }
    hart.pc = hart.pc.wrapping_add(4);
}

// Whether one word is less than another, as signed numbers.
#[inline(always)]
fn is_less(a: u32, b: u32) -> bool
    ensures { result ≡ less a b }
{
    a.cast_signed() < b.cast_signed()
}

// A word shifted right, with its sign shifted in.
#[inline(always)]
fn shifted_right_signed(a: u32, n: u32) -> u32
    ensures { result ≡ shift_right_signed a n }
{
    (a.cast_signed() >> (n % 32)).cast_unsigned()
}

// The byte at an address, with its sign in the bits above.
#[inline(always)]
fn signed_byte(ram: &Ram, a: u32) -> Option<u32>
    ensures { result ≡ (if may_access a 1 then Some (sign_extended 8 (number_at ram.now a 1)) else None) }
{
    let byte = ram.read8(a)?;
    Some(byte as u32 + byte as u32 / 0x80 * 0xffff_ff00)
}

// The half word at an address, with its sign in the bits above.
#[inline(always)]
fn signed_half(ram: &Ram, a: u32) -> Option<u32>
    ensures { result ≡ (if may_access a 2 then Some (sign_extended 16 (number_at ram.now a 2)) else None) }
{
    let half = ram.read16(a)?;
    Some(half as u32 + half as u32 / 0x8000 * 0xffff_0000)
}

// The byte at an address, with zeros above.
#[inline(always)]
fn unsigned_byte(ram: &Ram, a: u32) -> Option<u32>
    ensures { result ≡ (if may_access a 1 then Some (number_at ram.now a 1) else None) }
{
    let byte = ram.read8(a)?;
    Some(byte as u32)
}

// The half word at an address, with zeros above.
#[inline(always)]
fn unsigned_half(ram: &Ram, a: u32) -> Option<u32>
    ensures { result ≡ (if may_access a 2 then Some (number_at ram.now a 2) else None) }
{
    let half = ram.read16(a)?;
    Some(half as u32)
}

// Stores the lowest byte of a word.
#[inline(always)]
fn store_byte(ram: &mut Ram, a: u32, word: u32) -> bool
    ensures stored { result ≡ may_access a 1 }
    ensures memory { ram.new ≡ (if may_access a 1 then with_number ram.old a 1 word else ram.old) }
{
    ram.write8(a, (word % 0x100) as u8)
}

// Stores the lower half of a word.
#[inline(always)]
fn store_half(ram: &mut Ram, a: u32, word: u32) -> bool
    ensures stored { result ≡ may_access a 2 }
    ensures memory { ram.new ≡ (if may_access a 2 then with_number ram.old a 2 word else ram.old) }
{
    ram.write16(a, (word % 0x1_0000) as u16)
}
