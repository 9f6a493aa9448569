//! The instructions of RV32I: their table, and how a word is read and written.
//!
//! A word is read ([`decode`]) as the row whose bits it has, and what is written for an instruction ([`encode`]) is read as that
//! instruction again. The table ([`ROWS`]) and the fields of a word are defined in `xinu_model`; `instruction_of` and `is_valid` in
//! `specs/Words.antt`, `word_of` in `specs/Encoding.antt`.
#![tactic(auto)]

mod decoder;
mod encoder;
mod fields;
mod instr;
mod placing;
mod ranges;
mod rows;

pub use decoder::decode;
pub use encoder::encode;
pub use fields::{immediate_b, immediate_i, immediate_j, immediate_s, immediate_u, rd, rs1, rs2};
pub use instr::Instr;
pub use placing::word_with;
pub use ranges::valid;
pub use rows::{Form, ROWS, Row, row_named, rows_apart, rows_have_words, table};
