//! The workload of a number is booted, run and counted.

ghost use Rattle.std.specs.Prelude.{◌≡◌, IfOk, IsSome, MatchResult, Some, false, length};
ghost use Rattle.std.specs.String.{string_bytes};
ghost use Rattle.given_disks.specs.Disks.{disks_of};
ghost use Rattle.image_loader.specs.ImageFiles.{image_in};
ghost use Rattle.image_loader.specs.Images.{loaded_of};
ghost use Rattle.soak.specs.Soaks.{IsRefused, Soaks, SoaksOn};
ghost use Rattle.workload.specs.Programs.{after_programs, program};
ghost use Rattle.workload.specs.Schedules as schedules;

use crate::events::{count_end, count_start, count_tables, take_events};
use image_loader::{Image, read_image};
use lfs_layout::{CleanImage, RawImage};
use machine::{BootFault, Machine};
use schedule_file::{Schedule, ScheduleFault};
use std::alloc::Global;
use workload::{Draws, Tally, program_file, schedule_text};
use xinu_base::NoMemory;

/// What a soak test came to.
#[derive(Drop)]
pub struct Soaked {
    /// The line that says what was counted.
    pub summary: String,
    /// The machine as the run left it.
    pub machine: Machine,
}

// The workload of a number: the files of its four programs, and its schedule.
#[derive(Drop)]
struct Workload {
    first: Vec<u8>,
    second: Vec<u8>,
    third: Vec<u8>,
    fourth: Vec<u8>,
    schedule: Schedule,
}

/// Runs the workload of a number on these disks, and counts what it prints. The summary is that of a run of the abstract machine over the
/// programs and the events of the number, and the machine is in the last state of that run.
///
/// # Errors
/// `Overlap` and `NoRoom` if and only if the programs don't boot, as [`Machine::boot`] says; `NoMemory`. The disks are dropped.
pub fn soak(
    alloc: Global,
    seed: u32,
    disk0: RawImage,
    disk1: CleanImage,
) -> Result<Soaked, BootFault>
    ensures soaks { MatchResult result (λ s. SoaksOn (disks_of disk0 disk1) seed (string_bytes s.summary) s.machine.state) (λ fault. IsRefused (disks_of disk0 disk1) seed fault) }
{
    let Ok(work) = drawn_workload(alloc, seed) else {
        return Err(BootFault::NoMemory);
    };
    let Workload {
        first,
        second,
        third,
        fourth,
        schedule,
    } = work;
    let images = [
        image(first.as_slice()),
        image(second.as_slice()),
        image(third.as_slice()),
        image(fourth.as_slice()),
    ];
    let machine = Machine::boot(alloc, &images, disk0, disk1)?;
    match run(alloc, seed, machine, schedule) {
        Ok(soaked) => Ok(soaked),
        Err(_) => Err(BootFault::NoMemory),
    }
}

// The workload of a number.
fn drawn_workload(alloc: Global, seed: u32) -> Result<Workload, NoMemory>
    ensures first { IfOk result (λ w. image_in w.first.items ≡ Some (program 1 seed)) }
    ensures second { IfOk result (λ w. image_in w.second.items ≡ Some (program 2 (after_programs 1 1 seed))) }
    ensures third { IfOk result (λ w. image_in w.third.items ≡ Some (program 3 (after_programs 1 2 seed))) }
    ensures fourth { IfOk result (λ w. image_in w.fourth.items ≡ Some (program 4 (after_programs 1 3 seed))) }
    ensures schedule { IfOk result (λ w. w.schedule ≡ schedules.events seed) }
{
    let mut draws = Draws::new(seed);
    let first = program_file(alloc, 1, &mut draws)?;
    let second = program_file(alloc, 2, &mut draws)?;
    let third = program_file(alloc, 3, &mut draws)?;
    let fourth = program_file(alloc, 4, &mut draws)?;
    let schedule = schedule(alloc, &mut draws)?;
    Ok(Workload {
        first,
        second,
        third,
        fourth,
        schedule,
    })
}

// The schedule that is drawn next. Its text has no fault, so it isn't read only if there is no memory for it.
fn schedule(alloc: Global, draws: &mut Draws) -> Result<Schedule, NoMemory>
    ensures schedule { IfOk result (λ s. s ≡ schedules.events_in schedules.event_count draws.old) }
{
    let text = schedule_text(alloc, draws)?;
    match Schedule::read(alloc, text.as_slice()) {
        Ok(schedule) => Ok(schedule),
        Err(ScheduleFault::NoMemory) => Err(NoMemory),
        Err(ScheduleFault::BadLine(_)) => unreachable!(),
        Err(ScheduleFault::TooMany(_)) => unreachable!(),
    }
}

// The image in a file, which has one.
fn image(file: &[u8]) -> Image<'_>
    requires some { IsSome (image_in file.now) }
    ensures image { image_in file.now ≡ Some (loaded_of result) }
{
    match read_image(file) {
        Ok(image) => image,
        Err(_) => unreachable!(),
    }
}

// Runs the events of a number on a machine, and counts what it prints.
fn run(alloc: Global, seed: u32, machine: Machine, schedule: Schedule) -> Result<Soaked, NoMemory>
    requires over { machine.over ≡ false }
    requires new { machine.events ≡ 0 }
    requires events { schedule ≡ schedules.events seed }
    requires count { length schedule ≡ 200000 }
    ensures soaks { IfOk result (λ s. Soaks seed machine.state (string_bytes s.summary) s.machine.state) }
{
    let mut machine = machine;
    let summary = counted(alloc, seed, &mut machine, schedule)?;
    Ok(Soaked { summary, machine })
}

// The line that says what was counted of the events of a number, which a machine takes.
fn counted(
    alloc: Global,
    seed: u32,
    machine: &mut Machine,
    schedule: Schedule,
) -> Result<String, NoMemory>
    requires over { machine.old.over ≡ false }
    requires new { machine.old.events ≡ 0 }
    requires events { schedule ≡ schedules.events seed }
    requires count { length schedule ≡ 200000 }
    ensures soaks { IfOk result (λ s. Soaks seed machine.old.state (string_bytes s) machine.new.state) }
{
    let mut tally = Tally::new();
    count_start(alloc, machine, &mut tally)?;
    let (taken, end) = take_events(alloc, machine, schedule, &mut tally)?;
    count_tables(alloc, machine, &mut tally)?;
    count_end(end, &mut tally);
    let summary = tally.summary(alloc, seed, taken, end)?;
    Ok(summary)
}
