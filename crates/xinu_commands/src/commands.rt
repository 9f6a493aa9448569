//! A command carried out.

ghost use Rattle.std.specs.Prelude.{◌≡◌, Some, None, if◌then◌else◌, map};
ghost use Rattle.std.specs.String.{string_bytes};
ghost use Rattle.command_line.specs.Commands.{command_of};
ghost use Rattle.xinu_commands.specs.Endings.{CarriesOut};

use crate::asm_command::assemble_file;
use crate::check_command::check;
use crate::disk::act;
use crate::run_command::run;
use crate::soak_command::soak_machine;
use command_line::Command;
use host_port::Host;
use machine::Machine;
use run_inputs::Refusal;
use std::alloc::Global;

/// What is left of a command that was done.
#[derive(Drop)]
pub(crate) struct Done {
    /// Its exit status.
    pub(crate) status: u8,
    /// The machine as a run or a soak test left it.
    pub(crate) machine: Option<Machine>,
}

/// Carries out the command that the arguments give.
///
/// # Errors
/// The refusal that the command deserves; `HostFault` if the host failed; `NoMemory`.
pub(crate) fn carry_out<H: Host>(
    alloc: Global,
    args: &[String],
    host: &mut H,
) -> Result<Done, Refusal>
    ensures carries { CarriesOut (command_of (map string_bytes args.now)) result (H.view host.old) (H.view host.new) }
{
    let command = match command_line::command_of(alloc, args) {
        Ok(command) => command,
        Err(fault) => return Err(Refusal::from(fault)),
    };
    match command {
        Command::Run(files) => match run(alloc, &files, host) {
            Ok(machine) => Ok(left(machine)),
            Err(refusal) => Err(refusal),
        },
        Command::Asm(files) => match assemble_file(alloc, &files, host) {
            Ok(()) => Ok(finished()),
            Err(refusal) => Err(refusal),
        },
        Command::Soak(seed) => match soak_machine(alloc, seed, host) {
            Ok(machine) => Ok(left(machine)),
            Err(refusal) => Err(refusal),
        },
        Command::Check(files) => match check(alloc, &files, host) {
            Ok(is_transcript) => Ok(judged(is_transcript)),
            Err(refusal) => Err(refusal),
        },
        Command::Disk(action) => match act(alloc, action, host) {
            Ok(()) => Ok(finished()),
            Err(refusal) => Err(refusal),
        },
    }
}

// A run or a soak test was done, and left a machine.
fn left(machine: Machine) -> Done
    ensures done { result ≡ record { status = 0; machine = Some machine } }
{
    Done {
        status: 0,
        machine: Some(machine),
    }
}

// A trace was judged.
fn judged(is_transcript: bool) -> Done
    ensures done { result ≡ record { status = if is_transcript then 0 else 10; machine = None } }
{
    Done {
        status: if is_transcript { 0 } else { 10 },
        machine: None,
    }
}

// A command was done that leaves no machine.
fn finished() -> Done
    ensures done { result ≡ record { status = 0; machine = None } }
{
    Done {
        status: 0,
        machine: None,
    }
}
