//! One RV32I processor core over a RAM of one megabyte.
//!
//! [`step`] carries out one step of a process as `exec` defines it, and [`plain_steps`] several as `ran` does, for all registers, pc and
//! RAM. The crate depends on the table of instructions and on the words of `byteorder`. A clause sees a [`Ram`] as its bytes, which are
//! always 1,048,576. `may_access a n` says that a is a multiple of n and that the n bytes from a on are in RAM, `in_ram a n` the second
//! half alone; both are defined with `exec` in `xinu_model`.
//!
//! The definition looks for the row whose bits the word has under its mask; the code matches opcode, funct3 and funct7.
//! `rv_isa/proofs/RowByFields.antt` proves once, over the list of rows, that both find the same row.
#![tactic(auto)]

mod execute;
mod ram;
mod running;
mod stepping;

pub use ram::{OutOfRam, Ram};
pub use running::plain_steps;
pub use stepping::step;
pub use xinu_base::{Cause, Hart, Outcome, RAM_SIZE};
