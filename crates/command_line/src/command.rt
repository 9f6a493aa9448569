//! The command that arguments give.

ghost use Rattle.std.specs.Prelude.{◌≡◌, [], IfOk, IsErrOf, Some, None, codes, map};
ghost use Rattle.std.specs.String.{string_bytes};
ghost use Rattle.clap.specs.Walk.{rows_of};
ghost use Rattle.clap.specs.Matches.{found_of};
ghost use Rattle.command_line.specs.Names.{action_names, command_names};
ghost use Rattle.command_line.specs.Parser.{command_in};
ghost use Rattle.command_line.specs.Commands as commands;
ghost use Rattle.command_line.specs.DiskArgs as disk;
ghost use Rattle.command_line.specs.declared.refusal.ArgsFault.TheVariants as fault;

use crate::asm_args::{self, AsmFiles};
use crate::check_args::{self, CheckFiles};
use crate::disk_args::{self, DiskAction};
use crate::parser::{action_matches, command_matches};
use crate::refusal::ArgsFault;
use crate::run_args::{self, RunFiles};
use crate::soak_args;
use clap::ArgMatches;
use std::alloc::Global;

/// What the program is to do.
#[derive(Drop)]
pub enum Command<'a> {
    /// Run images under a schedule.
    Run(RunFiles<'a>),
    /// Assemble a text.
    Asm(AsmFiles<'a>),
    /// Run the workload of a number.
    Soak(u32),
    /// Check a transcript against a run of images under a schedule.
    Check(CheckFiles<'a>),
    /// Do something with a disk.
    Disk(DiskAction<'a>),
}

/// The command that the arguments after the program's name give.
///
/// # Errors
///
/// [`ArgsFault::NoCommand`] if and only if the arguments give none and there is memory to read them: another first argument than `run`,
/// `asm`, `soak`, `check` or `disk`, or another second one than an action of `disk`; an argument that names no option of it; an option
/// given twice or without its value; an option or an argument that is missing, or an argument too many; an empty name; a name of a file
/// on a disk that can't be one; a number of blocks that a disk can't have; a number of `soak` that isn't 1 to 10 decimal digits of a
/// value of at most 4,294,967,295.
/// [`ArgsFault::NoMemory`] if memory runs out, which may come on any arguments.
pub fn command_of<'a>(alloc: Global, args: &'a [String]) -> Result<Command<'a>, ArgsFault>
    ensures command { IfOk result (λ c. commands.command_of (map string_bytes args.entry.now) ≡ Some (command_names c)) }
    ensures no_command { IsErrOf result fault.NoCommand → commands.command_of (map string_bytes args.entry.now) ≡ None }
{
    match args {
        [] => Err(ArgsFault::NoCommand),
        [first, rest @ ..] => {
            if "disk" == first.as_str() {
                match action_of(alloc, rest) {
                    Ok(action) => Ok(Command::Disk(action)),
                    Err(fault) => Err(fault),
                }
            } else {
                simple_command_of(alloc, args)
            }
        }
    }
}

// The command without actions that arguments give.
fn simple_command_of<'a>(alloc: Global, args: &'a [String]) -> Result<Command<'a>, ArgsFault>
    ensures command { IfOk result (λ c. commands.simple_command_of (map string_bytes args.entry.now) ≡ Some (command_names c)) }
    ensures no_command { IsErrOf result fault.NoCommand → commands.simple_command_of (map string_bytes args.entry.now) ≡ None }
{
    let matches = command_matches(alloc, args)?;
    match matches.subcommand() {
        Some((name, matches)) => command_named(alloc, name, matches),
        None => Err(ArgsFault::NoCommand),
    }
}

// The command of a name, by the arguments after it.
fn command_named<'a>(
    alloc: Global,
    name: &str,
    matches: &ArgMatches<'a>,
) -> Result<Command<'a>, ArgsFault>
    ensures command { IfOk result (λ c. command_in name.now (rows_of (found_of matches.entry.now)) ≡ Some (command_names c)) }
    ensures no_command { IsErrOf result fault.NoCommand → command_in name.now (rows_of (found_of matches.entry.now)) ≡ None }
{
    match name {
        "run" => match run_args::run_of(alloc, matches) {
            Ok(files) => Ok(Command::Run(files)),
            Err(fault) => Err(fault),
        },
        "asm" => match asm_args::asm_of(alloc, matches) {
            Ok(files) => Ok(Command::Asm(files)),
            Err(fault) => Err(fault),
        },
        "soak" => match soak_args::soak_of(alloc, matches) {
            Ok(seed) => Ok(Command::Soak(seed)),
            Err(fault) => Err(fault),
        },
        "check" => match check_args::check_of(alloc, matches) {
            Ok(files) => Ok(Command::Check(files)),
            Err(fault) => Err(fault),
        },
        _ => Err(ArgsFault::NoCommand),
    }
}

// The action that the arguments after `disk` give.
fn action_of<'a>(alloc: Global, args: &'a [String]) -> Result<DiskAction<'a>, ArgsFault>
    ensures action { IfOk result (λ a. disk.action_of (map string_bytes args.entry.now) ≡ Some (action_names a)) }
    ensures no_command { IsErrOf result fault.NoCommand → disk.action_of (map string_bytes args.entry.now) ≡ None }
{
    let matches = action_matches(alloc, args)?;
    match matches.subcommand() {
        Some((name, matches)) => disk_args::action_of(alloc, name, matches),
        None => Err(ArgsFault::NoCommand),
    }
}
