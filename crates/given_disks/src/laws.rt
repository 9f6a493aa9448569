//! What holds of the disks that a machine is given.

ghost use Rattle.std.specs.Prelude.{ℕ, ◌≡◌, ◌/◌, true, List, [], length};
ghost use Rattle.file_laws.specs.StoredFiles.{stored_files};
ghost use Rattle.given_disks.specs.Disks.{disks_of};
ghost use Rattle.given_disks.specs.HeldFiles.{HoldsFiles};
ghost use Rattle.lfs_layout.specs.Images.{IsCleanImage, is_raw};
ghost use Rattle.part_laws.specs.GivenDisks.{AreSoundDisks};
ghost use Rattle.xinu_model.specs.Files.Systems.{closed_system};
ghost use Rattle.xinu_model.specs.RawDisk.Constants.{RD_BLKSIZ};

/// The blocks of a raw disk are whole; the files of a clean disk of version 2 have names, are in the order of their names, and fit on it.
/// So these are disks on which the machine starts in a sound state.
pub fn given_disks_are_sound()
    ensures { (disk0 disk1 : List ℕ) → is_raw disk0 ≡ true → IsCleanImage disk1 → AreSoundDisks (disks_of disk0 disk1) }
{}

/// A clean disk of version 2 holds its files, before a file is opened and before a call on files is under way.
pub fn clean_disks_hold_their_files()
    ensures { (disk : List ℕ) → IsCleanImage disk → HoldsFiles disk (record { system = closed_system (length disk / RD_BLKSIZ) (stored_files disk); calls = []; turns = 0; bytes = [] }) }
{}
