//! How many of its bytes a call puts.

ghost use Rattle.std.specs.Prelude.{ℕ, ◌≡◌, ◌+◌, ◌<◌, ◌≤◌, false, true, List, [], length, take, ◌⊎◌};
ghost use Rattle.lfs_format.specs.declared.Entry.{Entry};
ghost use Rattle.lfs_check.specs.declared.fields.Header.{Header};
ghost use Rattle.lfs_check.specs.Checks.{need_data, need_index};
ghost use Rattle.lfs_check.specs.Laid.{Places};
ghost use Rattle.lfs_check.specs.Disks.{entry_at};
ghost use Rattle.lfs_layout.specs.Files.{bare_name};
ghost use Rattle.xinu_model.specs.Files.Room.{data_blocks, index_blocks, they_fit};
ghost use Rattle.xinu_model.specs.Files.Stored.{with_contents};
ghost use Rattle.xinu_model.specs.Files.Systems.{OpenFile, FileSystem, open_bytes};
ghost use Rattle.xinu_model.specs.Files.Writing.{overwritten, fitting};
ghost use Rattle.file_laws.specs.StoredFiles.{stored_files};
ghost use Rattle.file_laws.specs.Middle.{IsMiddle};
ghost use Rattle.file_laws.specs.Fitting.{IsFull};

/// Bytes fit for which the file in hand needs no more blocks than it has with those that are free and those that are held. If no block of a
/// kind is free and none is held, no bytes fit for which it needs more blocks of that kind than it has.
pub fn a_full_disk_has_no_room()
    ensures fits { (n : ℕ) (base disk : List ℕ) (header : Header) (slot : ℕ) (entry : Entry) (p : Places) (bytes more : List ℕ)
        → IsMiddle n base disk header slot entry p bytes
        → data_blocks (length more) ≤ data_blocks entry.size + (length p.free_data + length p.held_data)
        → index_blocks (length more) ≤ index_blocks entry.size + (length p.free_index + length p.held_index)
        → they_fit n (with_contents (bare_name (entry_at base slot).name) more (stored_files base)) ≡ true }
    ensures data { (n : ℕ) (base disk : List ℕ) (header : Header) (slot : ℕ) (entry : Entry) (p : Places) (bytes more : List ℕ)
        → IsMiddle n base disk header slot entry p bytes
        → p.free_data ≡ [] → p.held_data ≡ [] → need_data entry < data_blocks (length more)
        → they_fit n (with_contents (bare_name (entry_at base slot).name) more (stored_files base)) ≡ false }
    ensures index { (n : ℕ) (base disk : List ℕ) (header : Header) (slot : ℕ) (entry : Entry) (p : Places) (bytes more : List ℕ)
        → IsMiddle n base disk header slot entry p bytes
        → p.free_index ≡ [] → p.held_index ≡ [] → need_index entry < index_blocks (length more)
        → they_fit n (with_contents (bare_name (entry_at base slot).name) more (stored_files base)) ≡ false }
{}

/// A call that has put the first k bytes at the position of an open file has put as many as the abstract machine says there is room for, if
/// these are all or it then is at the end of a file that can't grow. There is room for at least as many as the blocks that are free and those
/// that are held have room for.
pub fn the_longest_prefix_is_put()
    ensures all { (n : ℕ) (base disk : List ℕ) (header : Header) (slot : ℕ) (entry : Entry) (p : Places) (bytes : List ℕ) (f : OpenFile)
        (s : FileSystem) (new : List ℕ) (k : ℕ)
        → IsMiddle n base disk header slot entry p bytes → s.blocks ≡ n → s.files ≡ stored_files base
        → f.name ≡ bare_name (entry_at base slot).name → f.position ≤ (entry_at base slot).size → k ≤ length new
        → entry.size ≡ length (overwritten f.position (take k new) (open_bytes f s))
        → (k ≡ length new) ⊎ ((entry.size ≡ f.position + k) × IsFull p entry.size) → fitting f new s ≡ k }
    ensures least { (n : ℕ) (base disk : List ℕ) (header : Header) (slot : ℕ) (entry : Entry) (p : Places) (bytes : List ℕ) (f : OpenFile)
        (s : FileSystem) (new : List ℕ) (k : ℕ)
        → IsMiddle n base disk header slot entry p bytes → s.blocks ≡ n → s.files ≡ stored_files base
        → f.name ≡ bare_name (entry_at base slot).name → k ≤ length new
        → data_blocks (length (overwritten f.position (take k new) (open_bytes f s))) ≤ data_blocks entry.size
        + (length p.free_data + length p.held_data)
        → index_blocks (length (overwritten f.position (take k new) (open_bytes f s))) ≤ index_blocks entry.size
        + (length p.free_index + length p.held_index)
        → k ≤ fitting f new s }
{}
