//! A text that should be the transcript of a run: whether it is one, or where it goes wrong.

ghost use Rattle.std.specs.Prelude.{◌≡◌, ◌≤◌, false, IfErr, IfOk, length, map};
ghost use Rattle.explain_command.specs.Traces as specs;
ghost use Rattle.explain_command.specs.Traces.{Compares, ComparesText, FindsIn, IsUnstarted, Reports};
ghost use Rattle.given_disks.specs.Disks.{disks_of};
ghost use Rattle.run_inputs.specs.InputFaults.{have_fault};

use host_port::{Channel, Host, HostFault};
use run_inputs::{Cause, Inputs, Refusal, images_of};
use std::alloc::Global;
use trace_places::{Mistake, NoStart, find_mistake};
use trace_report::report;

/// The most bytes of a trace: 64 MiB.
const LONGEST_TRACE: usize = 67_108_864;

/// Sends on Out `yes` if the file of this name is the transcript of a run of the inputs, else where it goes wrong. The status is 0 or 10.
///
/// # Errors
/// `TraceTooLong` if it has over 64 MiB; `Overlap` or `NoRoom` if the machine doesn't start; the name of the file if it can't be read; `HostFault` if
/// the host failed; `NoMemory`.
pub(crate) fn tell_mistake<'a, H: Host>(
    alloc: Global,
    inputs: Inputs,
    name: &'a str,
    host: &mut H,
) -> Result<u8, Cause<'a>>
    requires few { length inputs.images.items ≤ 8 }
    requires good { have_fault (map (λ v. v.items) inputs.images.items) ≡ false }
    requires events { length inputs.schedule ≤ 1000000000 }
    ensures compares { Compares name.entry.now inputs result (H.view host.old) (H.view host.new) }
{
    match host.fetch(alloc, name, LONGEST_TRACE) {
        Ok(trace) => match compare(alloc, inputs, trace.as_slice(), host) {
            Ok(status) => Ok(status),
            Err(refusal) => Err(Cause::Refused(refusal)),
        },
        Err(HostFault::Failed) => Err(Cause::Unread(name)),
        Err(HostFault::NoMemory) => Err(Cause::Refused(Refusal::NoMemory)),
    }
}

// The same of the trace in the file.
fn compare<H: Host>(
    alloc: Global,
    inputs: Inputs,
    trace: &[u8],
    host: &mut H,
) -> Result<u8, Refusal>
    requires few { length inputs.images.items ≤ 8 }
    requires good { have_fault (map (λ v. v.items) inputs.images.items) ≡ false }
    requires events { length inputs.schedule ≤ 1000000000 }
    ensures compares { ComparesText inputs trace.now result (H.view host.old) (H.view host.new) }
{
    if trace.len() > LONGEST_TRACE {
        return Err(Refusal::TraceTooLong);
    }
    match mistake_in(alloc, inputs, trace) {
        Ok(found) => send_report(alloc, trace, &found, host),
        Err(refusal) => Err(refusal),
    }
}

// Sends what is told of a text, by what was found of it.
fn send_report<H: Host>(
    alloc: Global,
    trace: &[u8],
    found: &Option<Mistake<'_>>,
    host: &mut H,
) -> Result<u8, Refusal>
    requires few { length trace.now ≤ 67108864 }
    ensures reports { Reports trace.now found.now result (H.view host.old) (H.view host.new) }
{
    let Ok(told) = report(alloc, trace, found) else {
        return Err(Refusal::NoMemory);
    };
    match host.emit(Channel::Out, told.as_slice()) {
        Ok(()) => Ok(status_of(found)),
        Err(HostFault::Failed) => Err(Refusal::HostFault),
        Err(HostFault::NoMemory) => Err(Refusal::NoMemory),
    }
}

// The status by what was found.
fn status_of(found: &Option<Mistake<'_>>) -> u8
    ensures status { result ≡ specs.status_of found.now }
{
    match found {
        None => 0,
        Some(_) => 10,
    }
}

// Where a text goes wrong that should be the transcript of a run of the inputs.
fn mistake_in<'a>(
    alloc: Global,
    inputs: Inputs,
    text: &'a [u8],
) -> Result<Option<Mistake<'a>>, Refusal>
    requires few { length inputs.images.items ≤ 8 }
    requires good { have_fault (map (λ v. v.items) inputs.images.items) ≡ false }
    requires events { length inputs.schedule ≤ 1000000000 }
    ensures finds { IfOk result (λ r. FindsIn (disks_of inputs.disk0 inputs.disk1) (map (λ v. v.items) inputs.images.items) inputs.schedule text.now r) }
    ensures refused { IfErr result (IsUnstarted (disks_of inputs.disk0 inputs.disk1) (map (λ v. v.items) inputs.images.items)) }
{
    let Inputs {
        schedule,
        disk0,
        disk1,
        images,
    } = inputs;
    let Ok(images) = images_of(alloc, images.as_slice()) else {
        return Err(Refusal::NoMemory);
    };
    let mut schedule = schedule;
    match find_mistake(
        alloc,
        images.as_slice(),
        &disk0,
        &disk1,
        &mut schedule,
        text,
    ) {
        Ok(found) => Ok(found),
        Err(fault) => Err(start_refusal(fault)),
    }
}

// The refusal of a machine that doesn't start.
fn start_refusal(fault: NoStart) -> Refusal
    ensures refusal { result ≡ specs.start_refusal fault }
{
    match fault {
        NoStart::Overlaps(image) => Refusal::Overlap(image),
        NoStart::NoRoom(image) => Refusal::NoRoom(image),
        NoStart::NoMemory => Refusal::NoMemory,
    }
}
