//! The arguments of the command line.
//!
//! [`command_of`] reads them with `clap` and then by tests of its own: how many there are, which options are needed, that no name is empty, and
//! what a number is. `specs/Reading.antt` reads the arguments from the left by a table of options; `specs/RunArgs.antt`, `specs/AsmArgs.antt`,
//! `specs/SoakArgs.antt`, `specs/CheckArgs.antt` and `specs/DiskArgs.antt` have the tables, and `specs/Commands.antt` the commands.
//!
//! One law, by induction over the arguments, says that clap's matches are that reading, for every table whose options have other names than
//! the positional argument (`proofs/Law.antt`, `proofs/Program.antt`). It serves the commands and the actions of `disk`. The crate depends
//! on `clap`, and on `lfs_layout` for what can be the name of a file on a disk.
#![tactic(auto)]

mod asm_args;
mod check_args;
mod command;
mod disk_args;
mod matches;
mod parser;
mod refusal;
mod run_args;
mod soak_args;
mod tables;

pub use asm_args::AsmFiles;
pub use check_args::CheckFiles;
pub use command::{Command, command_of};
pub use disk_args::DiskAction;
pub use refusal::ArgsFault;
pub use run_args::{DiskFiles, RunFiles};
