//! The two writes of the directory, and the clean disks that they leave.

ghost use Rattle.std.specs.Prelude.{ℕ, ◌≡◌, ◌+◌, ◌/◌, ◌%◌, ◌<◌, ◌≤◌, true, false, List, [], length, slice_set};
ghost use Rattle.lfs_format.specs.declared.Entry.{Entry};
ghost use Rattle.lfs_format.specs.Directory.{dir_of, IsDirBlock};
ghost use Rattle.lfs_check.specs.declared.fields.Header.{Header};
ghost use Rattle.lfs_check.specs.Geometries.{room};
ghost use Rattle.lfs_check.specs.Rules.{block_in, entry_is_used, is_name};
ghost use Rattle.lfs_check.specs.Laid.{Places, numbers_at};
ghost use Rattle.lfs_check.specs.Disks.{disk_geometry, block_put, entries, entry_at, header_on, is_this, dir_with_entry, dir_with_header, IsDirectory, IsRight};
ghost use Rattle.lfs_layout.specs.Images.{IsCleanImage};
ghost use Rattle.file_laws.specs.StoredFiles.{empty_entry, one_more};
ghost use Rattle.file_laws.specs.Rewriting.{IsRewriting, rewritten, IsCreated, IsFinished, IsCleared, IsRemoved};
ghost use Rattle.file_laws.specs.Middle.{IsMiddle};

/// A disk is clean if files lie on it with nothing held and its directory is right.
pub fn right_is_clean()
    ensures { (disk : List ℕ) (n : ℕ) (p : Places) → IsRight disk n p → IsCleanImage disk }
{}

/// After both writes the directory has the entry and the counts; nothing else is changed.
pub fn the_directory_is_written()
    ensures entries { (disk : List ℕ) (n slot : ℕ) (entry : Entry) (header : Header) (eb hb : List ℕ)
        → IsRewriting disk n slot entry header eb hb → entries (rewritten disk slot eb hb) ≡ slice_set (entries disk) slot entry }
    ensures counts { (disk : List ℕ) (n slot : ℕ) (entry : Entry) (header : Header) (eb hb : List ℕ)
        → IsRewriting disk n slot entry header eb hb → header_on (rewritten disk slot eb hb) ≡ header }
    ensures others { (disk : List ℕ) (n slot : ℕ) (entry : Entry) (header : Header) (eb hb : List ℕ)
        → IsRewriting disk n slot entry header eb hb → (m : ℕ) → 6 ≤ m → block_in (rewritten disk slot eb hb) m ≡ block_in disk m }
    ensures directory { (disk : List ℕ) (n slot : ℕ) (entry : Entry) (header : Header) (eb hb : List ℕ) → IsDirectory disk
        → IsRewriting disk n slot entry header eb hb → IsDirectory (rewritten disk slot eb hb) }
{}

/// An unused entry gets a name that no file has, and the counts one file more: the disk is clean, with an empty file more.
pub fn a_file_is_created()
    ensures { (base : List ℕ) (slot : ℕ) (name eb hb : List ℕ) → IsCleanImage base → slot < 78 → entry_is_used (entry_at base slot) ≡ false
        → is_name 27 name ≡ true → length name ≡ 28
        → ((k : ℕ) → k < 78 → is_this name (entry_at base k) ≡ false)
        → IsDirBlock (dir_with_entry (dir_of (block_in base (slot / 13))) (slot % 13) (empty_entry name)) eb
        → IsDirBlock (dir_with_header (dir_of (block_in (block_put base (slot / 13) eb) 0)) (one_more (header_on base))) hb
        → IsCreated base slot name (rewritten base slot eb hb) }
{}

/// The entry that a call has in memory is written when it holds no block: the disk is clean, and the file in hand has its bytes.
pub fn a_changed_file_is_kept()
    ensures { (n : ℕ) (base disk : List ℕ) (header : Header) (slot : ℕ) (entry : Entry) (p : Places) (bytes eb hb : List ℕ)
        → IsMiddle n base disk header slot entry p bytes
        → p.held_index ≡ [] → p.held_data ≡ [] → header.files ≡ (header_on base).files → entry.size ≤ room (disk_geometry n)
        → IsRewriting disk n slot entry header eb hb
        → IsFinished base slot entry bytes (rewritten disk slot eb hb) }
{}

/// A cleared entry is written, and one file less is counted, when all blocks of the file are free: the disk is clean, without the file.
pub fn a_file_is_removed()
    ensures { (n : ℕ) (base disk : List ℕ) (header : Header) (slot : ℕ) (entry cleared : Entry) (p : Places) (bytes eb hb : List ℕ)
        → IsMiddle n base disk header slot entry p bytes → IsCleared cleared
        → numbers_at p.chains slot ≡ [] → numbers_at p.datas slot ≡ [] → p.held_index ≡ [] → p.held_data ≡ []
        → header.files + 1 ≡ (header_on base).files → IsRewriting disk n slot cleared header eb hb
        → IsRemoved base slot (rewritten disk slot eb hb) }
{}
