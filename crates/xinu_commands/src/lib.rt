//! Five commands of the program: it runs images under a schedule and prints the transcript, judges transcripts, assembles texts, makes, checks
//! and changes disks with files, and runs the workload of a number.
//!
//! They are `run --schedule FILE IMAGE ..`, which with `--plain` prints the bytes of the console alone, and takes its disks from
//! `--disk0` and `--disk1` and writes them to `--out0` and `--out1`; `check --schedule FILE --trace FILE IMAGE ..`, which says of a text
//! whether it is the transcript of a run; `asm SOURCE --out FILE`, which writes an ELF file with `--elf`; `disk` with six actions: `mkfs`,
//! `ls`, `get`, `put`, `check` and `repair`; and `soak N`, which prints a summary. Each goes over any host. The inputs of `run` and `check` are
//! fetched and judged by `run_inputs`, which also has the refusals.
//!
//! [`xinu`] is the top call: its status, what it sends and the machine that is left are what the bytes of the host's files deserve
//! (`specs/Theorem.antt`). [`laws`] says what each exit status means, which files are asked for, and that what `asm` writes loads.
#![tactic(auto)]

mod asm_command;
mod check_command;
mod commands;
mod disk;
mod disk_lines;
mod fetching;
pub mod laws;
mod run_command;
mod runs;
mod sending;
mod soak_command;
mod top;

pub use top::xinu;
