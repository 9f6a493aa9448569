//! The command `run`: its inputs are fetched and judged, and then the images run.

ghost use Rattle.std.specs.Prelude.{◌≡◌, ◌≤◌, false, Some, length, map};
ghost use Rattle.command_line.specs.Commands.{Run};
ghost use Rattle.command_line.specs.Names.{disk_names, run_names};
ghost use Rattle.xinu_commands.specs.Calls.{run_outputs};
ghost use Rattle.run_inputs.specs.InputFaults.{have_fault};
ghost use Rattle.xinu_commands.specs.InputVerdict.{left_verdict};
ghost use Rattle.xinu_commands.specs.RunVerdict.{run_verdict};
ghost use Rattle.run_inputs.specs.Fetching.{refusal_of};
ghost use Rattle.xinu_commands.specs.Stages.{Performs, Stage, left_of, no_fetches};
ghost use Rattle.xinu_commands.specs.Verdict.{wanted_of};

use crate::runs::{Setup, run_images};
use command_line::RunFiles;
use host_port::Host;
use machine::Machine;
use run_inputs::{InputFiles, Inputs, Refusal, fetch_inputs, images_of};
use std::alloc::Global;

/// Runs the images in files through the events of a schedule, and answers the machine as the run left it. There are one to eight images.
///
/// # Errors
/// The refusal that the run deserves; `HostFault` if the host failed; `NoMemory`.
pub(crate) fn run<H: Host>(
    alloc: Global,
    files: &RunFiles<'_>,
    host: &mut H,
) -> Result<Machine, Refusal>
    requires some { 1 ≤ length files.now.images.items }
    requires few { length files.now.images.items ≤ 8 }
    ensures performs { Performs (Some (Run (run_names files.entry.now))) (refusal_of result) (left_of result) (H.view host.old) (H.view host.new) }
{
    let names = InputFiles {
        schedule: files.schedule,
        disk0: files.disks.disk0,
        disk1: files.disks.disk1,
        images: files.images.as_slice(),
    };
    let inputs = fetch_inputs(alloc, names, host)?;
    run_inputs(alloc, files, inputs, host)
}

// Runs the images of these inputs.
fn run_inputs<H: Host>(
    alloc: Global,
    files: &RunFiles<'_>,
    inputs: Inputs,
    host: &mut H,
) -> Result<Machine, Refusal>
    requires some { 1 ≤ length inputs.images.items }
    requires few { length inputs.images.items ≤ 8 }
    requires good { have_fault (map (λ v. v.items) inputs.images.items) ≡ false }
    requires events { length inputs.schedule ≤ 1000000000 }
    ensures stage { Stage (left_verdict (run_verdict (wanted_of (run_names files.entry.now))) inputs) no_fetches (run_outputs (disk_names files.entry.now.disks)) (refusal_of result) (left_of result) (H.view host.old) (H.view host.new) }
{
    let Inputs {
        schedule,
        disk0,
        disk1,
        images,
    } = inputs;
    let setup = Setup {
        schedule,
        disk0,
        disk1,
        plain: files.plain,
        disks: files.disks,
    };
    match images_of(alloc, images.as_slice()) {
        Ok(images) => run_images(alloc, images.as_slice(), setup, host),
        Err(_) => Err(Refusal::NoMemory),
    }
}
