//! The command `soak`: the workload of a number is run, and its summary is printed.

ghost use Rattle.std.specs.Prelude.{Some};
ghost use Rattle.command_line.specs.Commands.{Soak};
ghost use Rattle.run_inputs.specs.Fetching.{refusal_of};
ghost use Rattle.xinu_commands.specs.Stages.{Performs, left_of};

use crate::sending::print_text;
use host_port::Host;
use machine::Machine;
use run_inputs::{Refusal, clean_disk, raw_disk};
use soak::{Soaked, soak};
use std::alloc::Global;

/// Runs the workload of a number on the disks of a run that names none, and answers the machine as the run left it.
///
/// # Errors
/// The refusal that the soak test deserves; `HostFault` if the host failed; `NoMemory`.
pub(crate) fn soak_machine<H: Host>(
    alloc: Global,
    seed: u32,
    host: &mut H,
) -> Result<Machine, Refusal>
    ensures performs { Performs (Some (Soak seed)) (refusal_of result) (left_of result) (H.view host.old) (H.view host.new) }
{
    let disk0 = raw_disk(alloc, None)?;
    let disk1 = clean_disk(alloc, None)?;
    let Soaked { summary, machine } = match soak(alloc, seed, disk0, disk1) {
        Ok(soaked) => soaked,
        Err(fault) => return Err(Refusal::from(fault)),
    };
    print_text(host, summary.as_bytes())?;
    Ok(machine)
}
