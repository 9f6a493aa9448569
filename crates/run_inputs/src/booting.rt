//! The machine of a run before its first event.

ghost use Rattle.std.specs.Prelude.{◌≡◌, ◌≤◌, IfOk, false, length, map};
ghost use Rattle.given_disks.specs.Disks.{disks_of};
ghost use Rattle.event_laws.specs.Ownership.Apart.{IsApart};
ghost use Rattle.run_inputs.specs.InputFaults.{have_fault};
ghost use Rattle.run_inputs.specs.Starts.{StartsAs};
ghost use Rattle.xinu_model.specs.Sound.State.{IsSound};

use crate::copies::{clean_copy, raw_copy};
use crate::inputs::{Inputs, images_of};
use machine::{BootFault, Machine};
use std::alloc::Global;

impl Inputs {
    /// The machine on which a run of these inputs starts, as [`Machine::boot`] makes it, with copies of the disks. There are one to eight
    /// images, each of which loads. The machine took no event yet.
    ///
    /// # Errors
    /// `Overlap` and `NoRoom` as [`Machine::boot`] says; `NoMemory`.
    pub fn boot(&self, alloc: Global) -> Result<Machine, BootFault>
        requires some { 1 ≤ length self.now.images.items }
        requires few { length self.now.images.items ≤ 8 }
        requires good { have_fault (map (λ v. v.items) self.now.images.items) ≡ false }
        ensures starts { StartsAs (disks_of self.now.disk0 self.now.disk1) (map (λ v. v.items) self.now.images.items) result }
        ensures apart { IfOk result (λ m. IsApart m.state) }
        ensures sound { IfOk result (λ m. IsSound m.state) }
        ensures image { IfOk result (λ m. m.image ≡ self.now.disk1) }
        ensures fresh { IfOk result (λ m. m.events ≡ 0) }
        ensures goes_on { IfOk result (λ m. m.over ≡ false) }
    {
        let Ok(disk0) = raw_copy(alloc, &self.disk0) else {
            return Err(BootFault::NoMemory);
        };
        let Ok(disk1) = clean_copy(alloc, &self.disk1) else {
            return Err(BootFault::NoMemory);
        };
        let Ok(images) = images_of(alloc, self.images.as_slice()) else {
            return Err(BootFault::NoMemory);
        };
        Machine::boot(alloc, images.as_slice(), disk0, disk1)
    }
}
