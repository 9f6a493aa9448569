//! What a line of assembler says: the labels that begin it, and the statement after them.
//!
//! The language is defined in `specs/`, from bytes to statements: `Tokens`, `Numbers`, `Texts`, `Operands`, `Meanings` (the words, and
//! which operands each takes), `Values` (of registers, calls and other operands) and `Statements`, whose `line_of` is the line that bytes
//! write. Instructions and their mnemonics are those of the table in `rv_isa`.
//!
//! [`first_label`] cuts a label off a line, and [`statement_in`] reads what is left once there are no more. A line is read where it lies;
//! nothing is copied and no memory is taken.
#![tactic(auto)]

mod calls;
mod directives;
mod encoding;
mod instructions;
mod lines;
mod meanings;
mod numbers;
mod operands;
mod shorthands;
mod statements;
mod texts;
mod tokens;
mod words;

pub use calls::call_of;
pub use encoding::{load, word_of};
pub use lines::{first_label, statement_in, word_in};
pub use meanings::{Meaning, meaning_of};
pub use operands::{Operand, operands_in};
pub use statements::{HeaderField, Statement};
pub use texts::next_byte;
pub use words::register_of;
