//! The run of images through the events of a schedule.

ghost use Rattle.std.specs.Prelude.{◌≡◌, ◌+◌, ◌≤◌, ◌∷◌, [], false, length, map};
ghost use Rattle.command_line.specs.Names.{disk_names};
ghost use Rattle.host_port.specs.Printing.{Prints};
ghost use Rattle.image_loader.specs.Images.{loaded_of};
ghost use Rattle.xinu_base.specs.declared.lines.TranscriptLine.TheVariants as line;
ghost use Rattle.xinu_model.specs.Text.{shown};
ghost use Rattle.xinu_commands.specs.Calls.{run_outputs};
ghost use Rattle.xinu_commands.specs.PlainSteps.{ArePlainSteps};
ghost use Rattle.xinu_commands.specs.RunVerdict.{boot_verdict};
ghost use Rattle.xinu_commands.specs.Setups.{setup_of};
ghost use Rattle.run_inputs.specs.Fetching.{refusal_of};
ghost use Rattle.xinu_commands.specs.Stages.{Stage, left_of, no_fetches};
ghost use Rattle.xinu_commands.specs.Transcripts.{RunPrints, SendsTranscript};

use crate::sending::send_disks;
use command_line::DiskFiles;
use host_port::{Host, Line, Printer};
use image_loader::Image;
use lfs_layout::{CleanImage, RawImage};
use machine::{Go, Machine};
use run_inputs::Refusal;
use schedule_file::Schedule;
use std::alloc::Global;
use xinu_base::End;

/// What a run goes on besides its images, and what is asked of it.
#[derive(Drop)]
pub(crate) struct Setup<'a> {
    /// The events.
    pub(crate) schedule: Schedule,
    /// The raw disk at the start.
    pub(crate) disk0: RawImage,
    /// The disk with files at the start.
    pub(crate) disk1: CleanImage,
    /// Whether the bytes of the console are printed and nothing else.
    pub(crate) plain: bool,
    /// The files of the disks: each disk is written at the end if a file is named for that.
    pub(crate) disks: DiskFiles<'a>,
}

/// Runs images through the events of a schedule, writes the disks, and answers the machine as the run left it. There are one to eight images.
///
/// # Errors
/// `Overlap(i)` if and only if image `i`, counted from 1, is the first that overlaps an earlier one; else `NoRoom(i)` if and only if the
/// heap after the images has no room for the stack of image `i`, and it is the first; unless memory runs out; `HostFault` if the host
/// refused a line or a disk; `NoMemory`.
pub(crate) fn run_images<H: Host>(
    alloc: Global,
    images: &[Image<'_>],
    setup: Setup<'_>,
    host: &mut H,
) -> Result<Machine, Refusal>
    requires some { 1 ≤ length images.now }
    requires few { length images.now ≤ 8 }
    requires events { length setup.schedule ≤ 1000000000 }
    ensures stage { Stage (boot_verdict (setup_of setup.entry) setup.entry.schedule (map loaded_of images.now)) no_fetches (run_outputs (disk_names setup.entry.disks)) (refusal_of result) (left_of result) (H.view host.old) (H.view host.new) }
{
    let Setup {
        schedule,
        disk0,
        disk1,
        plain,
        disks,
    } = setup;
    let mut machine = match Machine::boot(alloc, images, disk0, disk1) {
        Ok(machine) => machine,
        Err(fault) => return Err(Refusal::from(fault)),
    };
    print_run(&mut machine, schedule, plain, host)?;
    send_disks(&machine, disks, host)?;
    Ok(machine)
}

// Runs a machine through the events of a schedule, and prints the transcript, or if it is plain the bytes of the console.
fn print_run<H: Host>(
    machine: &mut Machine,
    schedule: Schedule,
    plain: bool,
    host: &mut H,
) -> Result<(), Refusal>
    requires over { machine.old.over ≡ false }
    requires few { machine.old.events + length schedule ≤ 1000000000 }
    ensures prints { SendsTranscript plain machine.old.state schedule machine.new.state (refusal_of result) (H.view host.old) (H.view host.new) }
{
    let mut schedule = schedule;
    let mut out = Printer::new(plain);
    machine.start(&mut out, host);
    let end = take_events(machine, &mut schedule, &mut out, host);
    machine.dump(&mut out, host);
    print_end(end, &mut out, host);
    match out.failed() {
        None => Ok(()),
        Some(fault) => Err(Refusal::from(fault)),
    }
}

// Takes the events up to the end of the run, or until the host refused a line.
#[inline(never)]
fn take_events<H: Host>(
    machine: &mut Machine,
    schedule: &mut Schedule,
    out: &mut Printer,
    host: &mut H,
) -> End
    requires over { machine.old.over ≡ false }
    requires few { machine.old.events + length schedule.old ≤ 1000000000 }
    ensures { RunPrints machine.old.state schedule.old machine.new.state result out.old out.new (H.view host.old) (H.view host.new) }
{
    while out.failed().is_none() {
        take_steps(machine, schedule);
        let Some(event) = schedule.next_event() else {
            return End::Schedule;
        };
        match machine.event(event, out, host) {
            Go::Goes => {}
            Go::Done => return End::Done,
            Go::Panic => return End::Panic,
        }
    }
    End::Schedule
}

// Takes the steps that come next on the schedule and print nothing.
fn take_steps(machine: &mut Machine, schedule: &mut Schedule)
    requires over { machine.old.over ≡ false }
    requires few { machine.old.events + length schedule.old ≤ 1000000000 }
    ensures steps { ArePlainSteps machine.old.state schedule.old machine.new.state schedule.new }
    ensures over { machine.new.over ≡ false }
    ensures few { machine.new.events + length schedule.new ≤ 1000000000 }
    ensures fewer { length schedule.new ≤ length schedule.old }
{
    let taken = machine.steps(schedule.steps_ahead());
    schedule.skip(taken);
}

// Prints the last line.
fn print_end<H: Host>(end: End, out: &mut Printer, host: &mut H)
    ensures { Prints out.old out.new (H.view host.old) (H.view host.new) (shown out.old.plain (line.End end ∷ [])) }
{
    let mut line = Line::new();
    line.word("end");
    line.word(match end {
        End::Schedule => "schedule",
        End::Done => "done",
        End::Panic => "panic",
    });
    line.end();
    out.line(host, &line);
}
