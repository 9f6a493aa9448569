//! The command `check`: its inputs and its trace are fetched and judged, and then it is told whether the trace is the transcript of a run.

ghost use Rattle.std.specs.Prelude.{◌≡◌, ◌≤◌, [], false, length, map};
ghost use Rattle.command_line.specs.Names.{check_names};
ghost use Rattle.run_inputs.specs.InputFaults.{have_fault};
ghost use Rattle.xinu_commands.specs.Conversions as conversions;
ghost use Rattle.xinu_commands.specs.Judging.{Checks, ChecksInputs, JudgesTrace};
ghost use Rattle.run_inputs.specs.Fetching.{refusal_of};
ghost use Rattle.xinu_commands.specs.Stages.{SendsOutput};
ghost use Rattle.xinu_commands.specs.Work.{judgement};

use crate::fetching::fetch_file;
use crate::sending::print_line;
use command_line::CheckFiles;
use host_port::{Host, Line};
use reference_check::{NoStart, check_trace};
use run_inputs::{InputFiles, Inputs, Refusal, fetch_inputs, images_of};
use std::alloc::Global;

/// The most bytes of a trace: 64 MiB.
const LONGEST_TRACE: usize = 67_108_864;

/// Judges a trace, prints `yes` if it is the transcript of a run of the images through the events of the schedule and else `no`, and answers
/// which. There are one to eight images.
///
/// # Errors
/// The refusal that the check deserves; `HostFault` if the host failed; `NoMemory`.
pub(crate) fn check<H: Host>(
    alloc: Global,
    files: &CheckFiles<'_>,
    host: &mut H,
) -> Result<bool, Refusal>
    requires few { length files.now.images.items ≤ 8 }
    ensures checks { Checks (check_names files.entry.now) result (H.view host.old) (H.view host.new) }
{
    let names = InputFiles {
        schedule: files.schedule,
        disk0: files.disks.disk0,
        disk1: files.disks.disk1,
        images: files.images.as_slice(),
    };
    let inputs = fetch_inputs(alloc, names, host)?;
    check_inputs(alloc, files.trace, inputs, host)
}

// Fetches a trace, and judges it by these inputs.
fn check_inputs<H: Host>(
    alloc: Global,
    name: &str,
    inputs: Inputs,
    host: &mut H,
) -> Result<bool, Refusal>
    requires few { length inputs.images.items ≤ 8 }
    requires good { have_fault (map (λ v. v.items) inputs.images.items) ≡ false }
    requires events { length inputs.schedule ≤ 1000000000 }
    ensures checks { ChecksInputs name.now inputs result (H.view host.old) (H.view host.new) }
{
    let trace = fetch_file(alloc, name, LONGEST_TRACE, host)?;
    if trace.len() > LONGEST_TRACE {
        return Err(Refusal::TraceTooLong);
    }
    let is_transcript = judge_trace(alloc, inputs, trace.as_slice())?;
    print_judgement(host, is_transcript)?;
    Ok(is_transcript)
}

// Whether a trace is the transcript of a run of these inputs.
fn judge_trace(alloc: Global, inputs: Inputs, trace: &[u8]) -> Result<bool, Refusal>
    requires few { length inputs.images.items ≤ 8 }
    requires good { have_fault (map (λ v. v.items) inputs.images.items) ≡ false }
    requires events { length inputs.schedule ≤ 1000000000 }
    requires short { length trace.now ≤ 67108864 }
    ensures judges { JudgesTrace trace.now inputs result }
{
    let Inputs {
        schedule,
        disk0,
        disk1,
        images,
    } = inputs;
    let Ok(images) = images_of(alloc, images.as_slice()) else {
        return Err(Refusal::NoMemory);
    };
    let mut schedule = schedule;
    match check_trace(
        alloc,
        images.as_slice(),
        &disk0,
        &disk1,
        &mut schedule,
        trace,
    ) {
        Ok(is_transcript) => Ok(is_transcript),
        Err(fault) => Err(start_refusal(fault)),
    }
}

// The refusal that the reference machine gives if it doesn't start.
fn start_refusal(fault: NoStart) -> Refusal
    ensures refusal { result ≡ conversions.start_refusal fault }
{
    match fault {
        NoStart::Overlaps(image) => Refusal::Overlap(image),
        NoStart::NoRoom(image) => Refusal::NoRoom(image),
        NoStart::NoMemory => Refusal::NoMemory,
    }
}

// Prints what was found of a trace.
fn print_judgement<H: Host>(host: &mut H, is_transcript: bool) -> Result<(), Refusal>
    ensures sends { SendsOutput (judgement is_transcript) [] (refusal_of result) (H.view host.old) (H.view host.new) }
{
    print_line(host, &judgement_line(is_transcript))
}

// `yes` or `no`, as a line.
fn judgement_line(is_transcript: bool) -> Line
    ensures line { result ≡ (judgement is_transcript).out }
{
    let mut line = Line::new();
    line.word(if is_transcript { "yes" } else { "no" });
    line.end();
    line
}
