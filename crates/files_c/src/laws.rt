//! What a judgement says of a disk.

ghost use Rattle.std.specs.Prelude.{◌≡◌, ◌≢◌, ◌==◌, ℕ, List, false, true};
ghost use Rattle.files_c.specs.Held.{AreApart, IsHeld, IsOnce, name_in};
ghost use Rattle.files_c.specs.Judging.{is_disk, judged};
ghost use Rattle.files_c.specs.declared.judging.FileAtRest.{FileAtRest};
ghost use Rattle.lfs_check.specs.Fields.{directory_entries, geometry_of};
ghost use Rattle.lfs_layout.specs.Files.{padded_name};
ghost use Rattle.lfs_layout.specs.Images.{kept_files};

/// The disk holds a file that is judged to be held: exactly one used entry has its name, reading it gives its bytes, and it lies in its
/// index and data blocks; or it has no entry of its name, if there is to be none. That is what the kernel keeps true of each file at rest,
/// at each moment (`HasStored` of `file_laws`).
#[tactic(auto, using(crate::proofs::Held::judged_held))]
pub fn judged_files_are_held()
    ensures held { (disk texts : List ℕ) (f : FileAtRest) → is_disk disk ≡ true
        → judged (kept_files disk) (directory_entries (geometry_of disk) disk) texts f ≡ 1 → IsHeld disk texts f }
{}

/// No block is in two files of different names that are judged to be held, nor twice in one.
pub fn judged_files_are_apart()
    ensures apart { (disk texts : List ℕ) (f g : FileAtRest) → is_disk disk ≡ true
        → judged (kept_files disk) (directory_entries (geometry_of disk) disk) texts f ≡ 1
        → judged (kept_files disk) (directory_entries (geometry_of disk) disk) texts g ≡ 1
        → (f.exists == 0) ≡ false → (g.exists == 0) ≡ false → padded_name (name_in texts f) ≢ padded_name (name_in texts g)
        → AreApart disk (padded_name (name_in texts f)) (padded_name (name_in texts g)) }
    ensures once { (disk texts : List ℕ) (f : FileAtRest) → is_disk disk ≡ true
        → judged (kept_files disk) (directory_entries (geometry_of disk) disk) texts f ≡ 1
        → (f.exists == 0) ≡ false → IsOnce disk (padded_name (name_in texts f)) }
{}
