//! A law of the programs: those of every number boot.

ghost use Rattle.std.specs.Prelude.{◌≡◌, ℕ};
ghost use Rattle.workload.specs.Programs.{programs};
ghost use Rattle.xinu_model.specs.Boot.{Boots, Disks, boot_on};
ghost use Rattle.xinu_model.specs.Machine.{Xinu};

/// The programs of every number boot, on any disks: they lie apart, and the heap has room for their stacks.
pub fn programs_boot()
    ensures { (disks : Disks) (seed : ℕ) → (start : Xinu) × (boot_on disks (programs seed) ≡ Boots start) }
{}
