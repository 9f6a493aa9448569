//! The files of a clean disk by their names.

ghost use Rattle.std.specs.Prelude.{ℕ, ◌≡◌, ◌<◌, true, false, List, length, Some, None, count_by, bytes_eq};
ghost use Rattle.lfs_check.specs.Rules.{entry_is_used, is_name};
ghost use Rattle.lfs_check.specs.Disks.{entries, entry_at, is_this};
ghost use Rattle.lfs_layout.specs.Files.{bare_name, is_before};
ghost use Rattle.lfs_layout.specs.Images.{IsCleanImage};
ghost use Rattle.xinu_model.specs.Files.Stored.{file_named, precedes};
ghost use Rattle.file_laws.specs.StoredFiles.{stored_files, entry_bytes};

/// Names with zeros up to 28 bytes are the same, and in the same order, as their texts.
pub fn names_are_texts()
    ensures same { (x y : List ℕ) → is_name 27 x ≡ true → is_name 27 y ≡ true → length x ≡ 28 → length y ≡ 28
        → bytes_eq (bare_name x) (bare_name y) ≡ bytes_eq x y }
    ensures order { (x y : List ℕ) → is_name 27 x ≡ true → is_name 27 y ≡ true → length x ≡ 28 → length y ≡ 28
        → precedes (bare_name x) (bare_name y) ≡ is_before x y }
{}

/// The file of a name is that of the used entry of the name, and has as many bytes as the entry's size says. There are as many files
/// as used entries.
pub fn a_name_has_its_file()
    ensures some { (disk : List ℕ) → IsCleanImage disk → (k : ℕ) → k < 78 → entry_is_used (entry_at disk k) ≡ true
        → file_named (bare_name (entry_at disk k).name) (stored_files disk) ≡ Some
        (record { name = bare_name (entry_at disk k).name; bytes = entry_bytes disk (entry_at disk k) }) }
    ensures none { (disk name : List ℕ) → IsCleanImage disk → is_name 27 name ≡ true → length name ≡ 28
        → ((k : ℕ) → k < 78 → is_this name (entry_at disk k) ≡ false)
        → file_named (bare_name name) (stored_files disk) ≡ None }
    ensures size { (disk : List ℕ) → IsCleanImage disk → (k : ℕ) → k < 78 → entry_is_used (entry_at disk k) ≡ true
        → length (entry_bytes disk (entry_at disk k)) ≡ (entry_at disk k).size }
    ensures count { (disk : List ℕ) → IsCleanImage disk → length (stored_files disk) ≡ count_by entry_is_used (entries disk) }
{}
