//! The inputs of a run: a schedule, two disks and images. Each is fetched and judged before the next.

ghost use Rattle.std.specs.Prelude.{◌≡◌, ◌≤◌, ◌+◌, [], false, Some, IfOk, IfErr, IsErrOf, length, map, option_map};
ghost use Rattle.image_loader.specs.Images.{loaded_of};
ghost use Rattle.run_inputs.specs.Causes.{NamesLast, WasFetchedLast, refused};
ghost use Rattle.run_inputs.specs.Fetching.{refusal_of};
ghost use Rattle.run_inputs.specs.InputFaults.{have_fault, image_fault, images_loaded};
ghost use Rattle.run_inputs.specs.InputNames.{input_names};
ghost use Rattle.run_inputs.specs.Reading.{ReadsImages, ReadsInputs, ReadsSchedule};
ghost use Rattle.run_inputs.specs.declared.refusals.Refusal.TheVariants as refusal;

use crate::causes::{Cause, unread, unread_if_named};
use crate::fetching::fetch_file;
use crate::input_disks::{fetch_clean_disk, fetch_raw_disk};
use crate::refusals::Refusal;
use elf_loader::load;
use host_port::Host;
use image_loader::Image;
use lfs_layout::{CleanImage, RawImage};
use schedule_file::Schedule;
use std::alloc::{AllocError, Global};

/// The most bytes of a schedule file: 4 MiB.
const LONGEST_SCHEDULE: usize = 4_194_304;
/// The most bytes of an image file: 1 MiB.
const LONGEST_IMAGE: usize = 1_048_576;

/// The names of the files: each disk's if one is named.
#[derive(Clone, Copy)]
pub struct InputFiles<'i, 'n> {
    /// The schedule.
    pub schedule: &'n str,
    /// The raw disk.
    pub disk0: Option<&'n str>,
    /// The disk with files.
    pub disk1: Option<&'n str>,
    /// The images.
    pub images: &'i [&'n str],
}

/// What is read of the files.
#[derive(Drop)]
pub struct Inputs {
    /// The events.
    pub schedule: Schedule,
    /// The raw disk at the start.
    pub disk0: RawImage,
    /// The disk with files at the start.
    pub disk1: CleanImage,
    /// The image files, each of which loads.
    pub images: Vec<Vec<u8>>,
}

/// Fetches the files in order, and judges each before the next is fetched. There are at most eight images.
///
/// The answer is what the bytes of the files are judged to be. Exactly the files up to the one that is refused were fetched.
///
/// # Errors
/// The refusal of the first file that isn't accepted; `HostFault` if the host failed, and then its count of faults rose; `NoMemory`.
pub fn fetch_inputs<H: Host>(
    alloc: Global,
    files: InputFiles<'_, '_>,
    host: &mut H,
) -> Result<Inputs, Refusal>
    requires few { length files.images.now ≤ 8 }
    ensures reads { ReadsInputs (input_names files.entry) result (H.view host.old) (H.view host.new) }
    ensures good { IfOk result (λ x. have_fault (map (λ v. v.items) x.images.items) ≡ false) }
    ensures count { IfOk result (λ x. length x.images.items ≡ length files.entry.images.now) }
    ensures events { IfOk result (λ x. length x.schedule ≤ 1000000000) }
{
    match fetch_named(alloc, files, host) {
        Ok(inputs) => Ok(inputs),
        Err(cause) => Err(cause.refusal()),
    }
}

/// Does what [`fetch_inputs`] does, and tells the name of a file that can't be read.
///
/// # Errors
/// The refusal of the first file that isn't accepted, or the name of the first that can't be read, which is the one that was fetched last;
/// out of memory.
pub fn fetch_named<'a, H: Host>(
    alloc: Global,
    files: InputFiles<'_, 'a>,
    host: &mut H,
) -> Result<Inputs, Cause<'a>>
    requires few { length files.images.now ≤ 8 }
    ensures reads { ReadsInputs (input_names files.entry) (refused result) (H.view host.old) (H.view host.new) }
    ensures last { IfErr result (λ c. NamesLast c (H.view host.new)) }
    ensures good { IfOk result (λ x. have_fault (map (λ v. v.items) x.images.items) ≡ false) }
    ensures count { IfOk result (λ x. length x.images.items ≡ length files.entry.images.now) }
    ensures events { IfOk result (λ x. length x.schedule ≤ 1000000000) }
{
    let schedule = match fetch_schedule(alloc, host, files.schedule) {
        Ok(schedule) => schedule,
        Err(refusal) => return Err(unread(refusal, files.schedule)),
    };
    let disk0 = match fetch_raw_disk(alloc, files.disk0, host) {
        Ok(disk0) => disk0,
        Err(refusal) => return Err(unread_if_named(refusal, files.disk0)),
    };
    let disk1 = match fetch_clean_disk(alloc, files.disk1, host) {
        Ok(disk1) => disk1,
        Err(refusal) => return Err(unread_if_named(refusal, files.disk1)),
    };
    let images = match fetch_images(alloc, files.images, Vec::new(alloc), host) {
        Ok(images) => images,
        Err(cause) => return Err(cause),
    };
    Ok(Inputs {
        schedule,
        disk0,
        disk1,
        images,
    })
}

// The schedule in a file.
fn fetch_schedule<H: Host>(alloc: Global, host: &mut H, name: &str) -> Result<Schedule, Refusal>
    ensures reads { ReadsSchedule name.now result (H.view host.old) (H.view host.new) }
    ensures last { IsErrOf result refusal.HostFault → WasFetchedLast name.now (H.view host.new) }
    ensures few { IfOk result (λ events. length events ≤ 1000000000) }
{
    let text = fetch_file(alloc, name, LONGEST_SCHEDULE, host)?;
    if text.len() > LONGEST_SCHEDULE {
        return Err(Refusal::Schedule(0));
    }
    match Schedule::read(alloc, text.as_slice()) {
        Ok(schedule) => Ok(schedule),
        Err(fault) => Err(Refusal::from(fault)),
    }
}

// Fetches the files of these names, each of which has to be an image, and adds them to those that were fetched before.
fn fetch_images<'a, H: Host>(
    alloc: Global,
    names: &[&'a str],
    files: Vec<Vec<u8>>,
    host: &mut H,
) -> Result<Vec<Vec<u8>>, Cause<'a>>
    requires few { length files.items + length names.now ≤ 8 }
    requires good { have_fault (map (λ v. v.items) files.items) ≡ false }
    ensures reads { ReadsImages (λ v. map (λ w. w.items) v.items) (map (λ v. v.items) files.items) (map (λ s. s.now) names.now) (refused result) (H.view host.old) (H.view host.new) }
    ensures last { IfErr result (λ c. NamesLast c (H.view host.new)) }
    ensures good { IfOk result (λ v. have_fault (map (λ w. w.items) v.items) ≡ false) }
    ensures count { IfOk result (λ v. length v.items ≡ length files.items + length names.now) }
{
    match names {
        [] => Ok(files),
        [name, rest @ ..] => {
            let file = match fetch_file(alloc, name, LONGEST_IMAGE, host) {
                Ok(file) => file,
                Err(refusal) => return Err(unread(refusal, name)),
            };
            match judge(file.as_slice(), files.len() as u8 + 1) {
                Ok(()) => {}
                Err(refusal) => return Err(Cause::Refused(refusal)),
            }
            let mut files = files;
            match files.push(file) {
                Ok(()) => fetch_images(alloc, rest, files, host),
                Err(_) => Err(Cause::Refused(Refusal::NoMemory)),
            }
        }
    }
}

// Refuses a file that isn't an image. The image has this number.
fn judge(file: &[u8], number: u8) -> Result<(), Refusal>
    ensures judged { refusal_of result ≡ option_map (refusal.Image number) (image_fault file.now) }
{
    if file.len() > LONGEST_IMAGE {
        return Err(Refusal::Image {
            image: number,
            fault: 0,
        });
    }
    match load(file) {
        Ok(_) => Ok(()),
        Err(fault) => Err(Refusal::Image {
            image: number,
            fault: fault.number(),
        }),
    }
}

/// The images that these files load, in their order. Each of the files must load.
///
/// # Errors
/// Out of memory.
pub fn images_of<'a>(alloc: Global, files: &'a [Vec<u8>]) -> Result<Vec<Image<'a>>, AllocError>
    requires good { have_fault (map (λ v. v.items) files.now) ≡ false }
    ensures loaded { IfOk result (λ v. images_loaded (map (λ v. v.items) files.now) ≡ Some (map loaded_of v.items)) }
    ensures count { IfOk result (λ v. length v.items ≡ length files.now) }
{
    let mut images = Vec::new(alloc);
    for file in files {
        match load(file.as_slice()) {
            Ok(image) => images.push(image)?,
            Err(_) => unreachable!(),
        }
    }
    Ok(images)
}
