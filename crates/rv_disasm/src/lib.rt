//! A disassembler: words of RV32I as lines of assembler.
//!
//! [`disassembled`] writes one line for a word at an address, in the language of docs/ASSEMBLER.md: a mnemonic and its operands, such as
//! `addi a0, a0, -3` or `lw t0, 8(sp)`. Branches and jumps take labels there, so the line names the address that they go to,
//! as `bne s1, zero, at_00000630`. A word that no instruction has is data, as `.word 0x00000000`; so is a fence other than 0x0FF0000F.
//!
//! The line is a definition (`disassembly` in `specs/Disassembly.antt`). That the assembler's definition reads it back as the word is the
//! law [`lines_are_read_back`].
#![tactic(auto)]

mod asm_line;
mod disassembler;
mod laws;
mod operands;
mod registers;
mod rows;

pub use asm_line::AsmLine;
pub use disassembler::disassembled;
pub use laws::{
    instructions_are_written, labels_are_distinct, lines_are_read_back, lines_take_labels,
};
pub use registers::register_name;
