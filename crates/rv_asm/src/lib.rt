//! The assembler: texts that people write, assembled to image files.
//!
//! [`assemble`] makes the file of a text, and [`list`] its listing. A text is lines of labels, instructions and directives. What a line
//! says is read by `asm_syntax`.
//!
//! The definition of the whole is in `specs/`: `Layouts` (sizes, addresses of labels, fields of the header), `Faults` (of a line by itself,
//! and of offsets and entries that labels give), `Assembly`, whose `assembly` is the file that a text makes or its first fault, and
//! `Listings`, whose `listing` is the listing of a text.
//!
//! The text is gone over twice: the first pass finds the addresses of the labels, the second judges each line and puts its bytes. Nothing
//! of the lines is kept between. The labels are in a hash map, once for each pass.
#![tactic(auto)]

mod assembler;
mod bytes;
mod examples;
mod faults;
mod judging;
mod labels;
mod laws;
mod layouts;
mod listing;
mod passes;
mod rows;
mod sizes;

pub use assembler::assemble;
pub use examples::worked_examples;
pub use faults::AsmFault;
pub use judging::{address, is_excessive};
pub use labels::Labels;
pub use laws::{assembled_loads, listed_is_content};
pub use layouts::{Layout, lay_out};
pub use listing::list;
pub use sizes::{is_code, size_at};
