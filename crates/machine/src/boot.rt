//! Boot: a machine whose kernel holds the images and the disks (book, chapter 22).

ghost use Rattle.std.specs.Prelude.{◌≡◌, ◌≤◌, IfOk, length, map};
ghost use Rattle.given_disks.specs.Disks.{disks_of};
ghost use Rattle.image_loader.specs.Images.{loaded_of};
ghost use Rattle.machine.specs.Starts.{Starts};
ghost use Rattle.part_laws.specs.GivenDisks.{AreSoundDisks};
ghost use Rattle.event_laws.specs.Ownership.Apart.{IsApart};
ghost use Rattle.xinu_model.specs.Sound.State.{IsSound};

use crate::machine::Machine;
use image_loader::Image;
use kernel::{BootFault, Kernel};
use lfs_layout::{CleanImage, RawImage};
use std::alloc::Global;

impl Machine {
    /// A machine on these disks that holds the images and is about to run their processes. There are one to eight.
    ///
    /// It stands for the state in which `boot_on` of the abstract machine starts. That is sound, and no address has two owners in it. The
    /// disk with files has the bytes of `disk1`.
    ///
    /// # Errors
    ///
    /// `Overlap(i)` if and only if image `i`, counted from 1, is the first that overlaps an earlier one; else `NoRoom(i)` if and only if
    /// image `i` is the first for the stack of whose process the heap after the images has no room; `NoMemory`. The disks are dropped.
    pub fn boot(
        alloc: Global,
        images: &[Image<'_>],
        disk0: RawImage,
        disk1: CleanImage,
    ) -> Result<Machine, BootFault>
        requires some { 1 ≤ length images.now }
        requires few { length images.now ≤ 8 }
        ensures starts { Starts (disks_of disk0 disk1) (map loaded_of images.now) result }
        ensures apart { IfOk result (λ m. IsApart m.state) }
        ensures sound { IfOk result (λ m. IsSound m.state) }
        ensures image { IfOk result (λ m. m.image ≡ disk1) }
    {
        see_disks(&disk0, &disk1);
        let kernel = Kernel::new(alloc, images, disk0, disk1)?;
        kernel.holds_files();
        Ok(Machine {
            kernel,
            events: 0,
            has_ended: false,
        })
    }
}

// Changes nothing: a machine may start on the disks of these images.
fn see_disks(disk0: &RawImage, disk1: &CleanImage)
    ensures sound { AreSoundDisks (disks_of disk0.now disk1.now) }
{
    let _raw = disk0.bytes();
    let _clean = disk1.bytes();
}
