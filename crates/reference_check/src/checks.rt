//! A text is checked: the machine starts with the images, and the text is read along its run.

ghost use Rattle.std.specs.Prelude.{◌≡◌, ◌≤◌, None, [], IfErr, IfOk, length, map, replicate, true};
ghost use Rattle.given_disks.specs.Disks.{disks_of};
ghost use Rattle.image_loader.specs.Images.{loaded_of};
ghost use Rattle.reference_boot.specs.Starts.{RefusesAs};
ghost use Rattle.reference_check.specs.Starting.{has_started};
ghost use Rattle.transcript_laws.specs.Transcripts as transcripts;
ghost use Rattle.part_laws.specs.GivenDisks.{AreSoundDisks};
ghost use Rattle.xinu_model.specs.Boot as model;

use crate::driver::check_from;
use image_loader::Image;
use lfs_layout::{CleanImage, RawImage};
use reference_boot::boot::{NoStart, boot_on};
use reference_boot::{file_system_of, raw_disk_of};
use reference_state::{FileSystem, RawDisk};
use schedule_file::Schedule;
use std::alloc::Global;
use xinu_base::NoMemory;

/// Whether a text is the transcript of a run that starts with these images on the disks of these images, and goes through these events.
/// There are at most eight images of programs, and at most 1,000,000,000 events. The disks stay as they are.
///
/// # Errors
/// `Overlaps` if and only if an image of a program overlaps an earlier one; else `NoRoom` if and only if the heap has no stack for one;
/// `NoMemory`.
pub fn check_trace(
    alloc: Global,
    images: &[Image<'_>],
    disk0: &RawImage,
    disk1: &CleanImage,
    schedule: &mut Schedule,
    text: &[u8],
) -> Result<bool, NoStart>
    requires few { length images.now ≤ 8 }
    requires most { length schedule.old ≤ 1000000000 }
    ensures starts { IfOk result (λ _. has_started (model.boot_on (disks_of disk0.now disk1.now) (map loaded_of images.now)) ≡ true) }
    ensures checks { IfOk result (λ b. b ≡ transcripts.checks (disks_of disk0.now disk1.now) (map loaded_of images.now) schedule.old text.now) }
    ensures refuses { IfErr result (λ e. RefusesAs (model.boot_on (disks_of disk0.now disk1.now) (map loaded_of images.now)) e) }
{
    let Ok(disk) = raw_disk_of(alloc, disk0) else {
        return Err(NoStart::NoMemory);
    };
    let Ok(system) = file_system_of(alloc, disk1) else {
        return Err(NoStart::NoMemory);
    };
    check_on(alloc, images, disk, system, schedule, text)
}

// The same on disks of which nothing was asked yet.
fn check_on(
    alloc: Global,
    images: &[Image<'_>],
    disk: RawDisk,
    system: FileSystem,
    schedule: &mut Schedule,
    text: &[u8],
) -> Result<bool, NoStart>
    requires few { length images.now ≤ 8 }
    requires idle { disk.requests ≡ [] }
    requires closed { system.devices ≡ replicate 6 None }
    requires sound { AreSoundDisks (record { blocks = disk.blocks; size = system.blocks; files = system.files }) }
    requires blocks { system.blocks ≤ 65542 }
    requires most { length schedule.old ≤ 1000000000 }
    ensures starts { IfOk result (λ _. has_started (model.boot_on (record { blocks = disk.blocks; size = system.blocks; files = system.files })
        (map loaded_of images.now)) ≡ true) }
    ensures checks { IfOk result (λ b. b ≡ transcripts.checks (record { blocks = disk.blocks; size = system.blocks; files = system.files })
        (map loaded_of images.now) schedule.old text.now) }
    ensures refuses { IfErr result (λ e. RefusesAs (model.boot_on (record { blocks = disk.blocks; size = system.blocks; files = system.files })
        (map loaded_of images.now)) e) }
{
    match boot_on(alloc, images, disk, system) {
        Ok(mut machine) => match check_from(&mut machine, schedule, text) {
            Ok(is_transcript) => Ok(is_transcript),
            Err(NoMemory) => Err(NoStart::NoMemory),
        },
        Err(refusal) => Err(refusal),
    }
}
