//! Tests of what the kernel runs on, with values from outside: instructions, the assembler and the disassembler, and the real host.
#![tactic(auto)]

#[cfg(test)]
mod assembler;
#[cfg(test)]
mod disassembly;
#[cfg(test)]
mod file_runtime;
#[cfg(test)]
mod hart;
#[cfg(test)]
mod host;
#[cfg(test)]
mod opcodes;
#[cfg(test)]
mod rows;
