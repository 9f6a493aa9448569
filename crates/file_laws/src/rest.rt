//! What a disk has of the files at rest.

ghost use Rattle.std.specs.Prelude.{ℕ, ◌≡◌, ◌/◌, ◌%◌, ◌<◌, Bool, true, false, List};
ghost use Rattle.lfs_format.specs.declared.Entry.{Entry};
ghost use Rattle.lfs_format.specs.Directory.{dir_of, IsDirBlock};
ghost use Rattle.lfs_check.specs.declared.fields.Header.{Header};
ghost use Rattle.lfs_check.specs.Rules.{block_in, entry_is_used};
ghost use Rattle.lfs_check.specs.Laid.{Places};
ghost use Rattle.lfs_check.specs.Disks.{block_put, entry_at, dir_with_entry};
ghost use Rattle.lfs_layout.specs.Files.{bare_name};
ghost use Rattle.lfs_layout.specs.Images.{IsCleanImage};
ghost use Rattle.file_laws.specs.StoredFiles.{stored_files};
ghost use Rattle.file_laws.specs.Middle.{IsMiddle};
ghost use Rattle.file_laws.specs.Holds.{Holds};

/// A clean disk holds its files, whichever of them are at rest.
pub fn files_are_held_between_calls()
    ensures { (disk : List ℕ) (rests : List ℕ → Bool) → IsCleanImage disk → Holds disk (stored_files disk) rests }
{}

/// In a call that changes a file the disk holds all files at rest, if that one isn't at rest: in the middle, and once the directory block of its
/// entry is written and the counts aren't. So it is in a call that makes a file.
pub fn files_at_rest_are_held()
    ensures middle { (n : ℕ) (base disk : List ℕ) (header : Header) (slot : ℕ) (entry : Entry) (p : Places) (bytes : List ℕ)
        (rests : List ℕ → Bool) → IsMiddle n base disk header slot entry p bytes
        → rests (bare_name (entry_at base slot).name) ≡ false → Holds disk (stored_files base) rests }
    ensures ending { (n : ℕ) (base disk : List ℕ) (header : Header) (slot : ℕ) (entry written : Entry) (p : Places) (bytes : List ℕ)
        (block : List ℕ) (rests : List ℕ → Bool) → IsMiddle n base disk header slot entry p bytes
        → IsDirBlock (dir_with_entry (dir_of (block_in disk (slot / 13))) (slot % 13) written) block
        → rests (bare_name (entry_at base slot).name) ≡ false
        → (entry_is_used written ≡ true → rests (bare_name written.name) ≡ false)
        → Holds (block_put disk (slot / 13) block) (stored_files base) rests }
    ensures creating { (base : List ℕ) (slot : ℕ) (written : Entry) (block : List ℕ) (rests : List ℕ → Bool) → IsCleanImage base → slot < 78
        → entry_is_used (entry_at base slot) ≡ false
        → IsDirBlock (dir_with_entry (dir_of (block_in base (slot / 13))) (slot % 13) written) block
        → rests (bare_name written.name) ≡ false
        → Holds (block_put base (slot / 13) block) (stored_files base) rests }
{}
