//! The command: its arguments and files are read as `run` reads them, and the placements are gone through.

ghost use Rattle.std.specs.Prelude.{◌≡◌, ◌≤◌, false, Some, List, length, map, option_map};
ghost use Rattle.std.specs.String.{string_bytes};
ghost use Rattle.image_loader.specs.Images.{loaded_of};
ghost use Rattle.given_disks.specs.Disks.{disks_of};
ghost use Rattle.run_inputs.specs.InputFaults.{have_fault, images_loaded};
ghost use Rattle.xinu_model.specs.Boot.{Loaded};
ghost use Rattle.command_words.specs.ToolNames.{taken_words};
ghost use Rattle.races_command.specs.Searching as search;
ghost use Rattle.races_command.specs.Theorem as spec;
ghost use Rattle.races_command.specs.Words.{asked_in, read};

use crate::bases::{Limits, events_of, judge};
use crate::faults::{Fault, NO_MEMORY, or_unwritten, tell};
use crate::reports::{send_table, write_found};
use crate::words::{from_in, most_in, outcome_in, within_in};
use command_words::{Taken, Tool};
use host_port::Host;
use image_loader::Image;
use lfs_layout::{CleanImage, RawImage};
use race_runs::{BootFault, Progress, explore};
use run_inputs::{Cause, Inputs, Refusal, fetch_words, images_of, read_words};
use std::alloc::Global;
use xinu_base::Event;

/// Goes through the placements that the arguments after the program's name ask for: sends the table on Out, writes the schedule of a row,
/// the second if no other is asked for, if a file is named for it, and answers the exit status.
///
/// The status is 0 if it was sent. Else it is the status with which `run` refuses such arguments and files, and its text is sent on Fault, with
/// lines after it that say it in words: 2 also for numbers that don't fit; 3 if the host failed; 7 if memory ran out, after the table so far. The
/// progress is told how many placements there are, and of each that was gone through.
pub fn races<H: Host, P: Progress>(
    alloc: Global,
    args: &[String],
    host: &mut H,
    progress: &mut P,
) -> u8
    ensures answers { spec.Answers result (map string_bytes args.now) (H.view host.old) (H.view host.new) }
{
    match carry_out(alloc, args, host, progress) {
        Ok(()) => 0,
        Err(fault) => tell(alloc, fault, host),
    }
}

// Carries the command out.
fn carry_out<'a, H: Host, P: Progress>(
    alloc: Global,
    args: &'a [String],
    host: &mut H,
    progress: &mut P,
) -> Result<(), Fault<'a>>
    ensures carries { spec.Carries (read (map string_bytes args.entry.now)) (search.ended_by result) (H.view host.old) (H.view host.new) }
{
    match read_words(alloc, Tool::Races, args) {
        Ok(words) => obey(alloc, &words, host, progress),
        Err(cause) => Err(Fault::Refused(cause)),
    }
}

// Does what the words ask.
fn obey<'a, H: Host, P: Progress>(
    alloc: Global,
    words: &Taken<'a>,
    host: &mut H,
    progress: &mut P,
) -> Result<(), Fault<'a>>
    requires some { 1 ≤ length words.now.images.items }
    requires few { length words.now.images.items ≤ 8 }
    ensures obeys { spec.Obeys (asked_in (taken_words words.now)) (search.ended_by result) (H.view host.old) (H.view host.new) }
{
    match fetch_words(alloc, words, host) {
        Ok(inputs) => go_through(alloc, inputs, words, host, progress),
        Err(cause) => Err(Fault::Refused(cause)),
    }
}

// Goes through the placements of these inputs.
fn go_through<'a, H: Host, P: Progress>(
    alloc: Global,
    inputs: Inputs,
    words: &Taken<'a>,
    host: &mut H,
    progress: &mut P,
) -> Result<(), Fault<'a>>
    requires some { 1 ≤ length inputs.images.items }
    requires few { length inputs.images.items ≤ 8 }
    requires good { have_fault (map (λ v. v.items) inputs.images.items) ≡ false }
    ensures goes { (images : List Loaded) → images_loaded (map (λ v. v.items) inputs.images.items) ≡ Some images → spec.Goes (asked_in (taken_words words.now)) inputs.schedule (spec.search_of (asked_in (taken_words words.now)) inputs images) (search.ended_by result) (H.view host.old) (H.view host.new) }
{
    let Inputs {
        schedule,
        disk0,
        disk1,
        images: files,
    } = inputs;
    let Ok(images) = images_of(alloc, files.as_slice()) else {
        return Err(NO_MEMORY);
    };
    let mut schedule = schedule;
    let base = match events_of(alloc, &mut schedule) {
        Ok(base) => base,
        Err(fault) => return Err(fault),
    };
    let limits = match judge(
        most_in(words),
        from_in(words),
        within_in(words),
        base.as_slice(),
    ) {
        Ok(limits) => limits,
        Err(fault) => return Err(fault),
    };
    search(
        alloc,
        images.as_slice(),
        &disk0,
        &disk1,
        base.as_slice(),
        limits,
        words.value("found"),
        outcome_in(words),
        host,
        progress,
    )
}

// Goes through the placements of images that load, and sends what is found.
fn search<'a, H: Host, P: Progress>(
    alloc: Global,
    images: &[Image<'_>],
    disk0: &RawImage,
    disk1: &CleanImage,
    base: &[Event],
    limits: Limits,
    found: Option<&'a str>,
    outcome: u64,
    host: &mut H,
    progress: &mut P,
) -> Result<(), Fault<'a>>
    requires some { 1 ≤ length images.now }
    requires few { length images.now ≤ 8 }
    requires base { length base.now ≤ 1000000 }
    requires most { limits.most ≤ 3 }
    requires within { limits.stretch.within ≤ 1000000 }
    ensures searches { search.Searches (record { disks = disks_of disk0.now disk1.now; images = map loaded_of images.now; base = base.now; most = limits.most; stretch = limits.stretch; found = option_map (λ s. s.now) found.entry; outcome = outcome }) (search.ended_by result) (H.view host.old) (H.view host.new) }
{
    let mut table = Vec::new(alloc);
    let Limits { most, stretch } = limits;
    progress.begin(limits.placements());
    match explore(
        alloc, images, disk0, disk1, base, most, stretch, &mut table, progress,
    ) {
        Ok(are_forced) => {
            progress.end();
            match send_table(
                alloc,
                table.as_slice(),
                most,
                stretch,
                base,
                true,
                are_forced,
                host,
            ) {
                Ok(()) => {}
                Err(fault) => return Err(fault),
            }
            let written = write_found(
                alloc,
                table.as_slice(),
                most,
                stretch,
                base,
                found,
                outcome,
                host,
            );
            or_unwritten(written, found)
        }
        Err(BootFault::NoMemory) => {
            progress.end();
            let _ = send_table(
                alloc,
                table.as_slice(),
                most,
                stretch,
                base,
                false,
                false,
                host,
            );
            Err(NO_MEMORY)
        }
        Err(fault) => Err(Fault::Refused(Cause::Refused(Refusal::from(fault)))),
    }
}
