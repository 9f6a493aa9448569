//! The symbols of ELF files: in which function, and in which variable, an address is.
//!
//! [`function_at`] and [`variable_at`] read the sections of a file's bytes: the first section of symbols (`SHT_SYMTAB`), and the strings
//! that it is linked with. A symbol is a function if its type is `STT_FUNC`, or `STT_NOTYPE` as labels of assembler have, its section has
//! instructions, and its name isn't one that tools make, as `$x` and `.L0`. It is a variable if its type is `STT_OBJECT` and its name
//! isn't such a one.
//!
//! The answers are defined in `specs/Functions.antt`. No call takes memory.
#![tactic(auto)]

mod functions;
mod numbers;
mod sections;
mod symbols;

pub use functions::{Place, function_at, variable_at};
