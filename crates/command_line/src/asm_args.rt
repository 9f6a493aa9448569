//! The arguments of the command `asm`.

ghost use Rattle.std.specs.Prelude.{◌≡◌, IfOk, IsErrOf, Some, None, map, option_map};
ghost use Rattle.clap.specs.Walk.{rows_of};
ghost use Rattle.clap.specs.Matches.{found_of};
ghost use Rattle.command_line.specs.AsmArgs as asm;
ghost use Rattle.command_line.specs.Names.{asm_names};
ghost use Rattle.command_line.specs.Parser.{asm_in};
ghost use Rattle.command_line.specs.declared.refusal.ArgsFault.TheVariants as fault;

use crate::matches::{args_of, is_given, option_value};
use crate::refusal::ArgsFault;
use clap::ArgMatches;
use std::alloc::Global;

/// What to assemble.
#[derive(Clone, Copy)]
pub struct AsmFiles<'a> {
    /// The name of the source's file.
    pub source: &'a str,
    /// The name of the file that is written.
    pub out: &'a str,
    /// Whether an ELF file is written.
    pub elf: bool,
}

/// What the arguments after `asm` name.
pub(crate) fn asm_of<'a>(alloc: Global, matches: &ArgMatches<'a>) -> Result<AsmFiles<'a>, ArgsFault>
    ensures files { IfOk result (λ f. asm_in (rows_of (found_of matches.entry.now)) ≡ Some (asm_names f)) }
    ensures no_command { IsErrOf result fault.NoCommand → asm_in (rows_of (found_of matches.entry.now)) ≡ None }
{
    let sources = args_of(alloc, matches)?;
    let out = option_value(matches, "out");
    match asm_files(out, is_given(matches, "elf"), sources.as_slice()) {
        Some(files) => Ok(files),
        None => Err(ArgsFault::NoCommand),
    }
}

// `asm SOURCE --out FILE`, and whether `--elf` was given.
fn asm_files<'a>(out: Option<&'a str>, elf: bool, sources: &[&'a str]) -> Option<AsmFiles<'a>>
    ensures files { option_map asm_names result ≡ asm.asm_of (option_map (λ s. s.now) out.entry) elf (map (λ s. s.now) sources.now) }
{
    let out = out?;
    match sources {
        &[source] if !source.is_empty() & !out.is_empty() => Some(AsmFiles { source, out, elf }),
        _ => None,
    }
}
