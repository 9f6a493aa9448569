//! The bytes of a file, block by block.

ghost use Rattle.std.specs.Prelude.{ℕ, ◌≡◌, ◌≢◌, ◌+◌, ◌*◌, ◌/◌, ◌%◌, ◌<◌, ◌≤◌, true, List, ◌++◌, length, take, drop, slice_index};
ghost use Rattle.std.specs.List.{flat_map};
ghost use Rattle.lfs_format.specs.Indexes.{index_at};
ghost use Rattle.lfs_check.specs.Geometries.{index_count};
ghost use Rattle.lfs_check.specs.Rules.{block_in, entry_is_used};
ghost use Rattle.lfs_check.specs.Laid.{Places, numbers_at, index_for, entry_in};
ghost use Rattle.lfs_check.specs.Clean.{LaidIn};
ghost use Rattle.lfs_check.specs.Fields.{fields_of};
ghost use Rattle.lfs_check.specs.Disks.{disk_geometry};
ghost use Rattle.xinu_model.specs.Files.Writing.{overwritten};

/// If one block of several gets bytes at a place, so does the whole. Bytes that are put after bytes are put as if they were put together.
/// A file keeps its size if they are put within it, and else ends with them.
pub fn bytes_are_put()
    ensures block { (f g : ℕ → List ℕ) (xs : List ℕ) (j r : ℕ) (new : List ℕ)
        → ((i : ℕ) → i < length xs → length (f (slice_index xs i)) ≡ 512) → j < length xs → r + length new ≤ 512
        → g (slice_index xs j) ≡ overwritten r new (f (slice_index xs j))
        → ((i : ℕ) → i < length xs → i ≢ j → g (slice_index xs i) ≡ f (slice_index xs i))
        → flat_map g xs ≡ overwritten (512 * j + r) new (flat_map f xs) }
    ensures more { (q : ℕ) (a c old : List ℕ) → q ≤ length old
        → overwritten (q + length a) c (overwritten q a old) ≡ overwritten q (a ++ c) old }
    ensures within { (q size : ℕ) (new row : List ℕ) → q + length new ≤ size → size ≤ length row
        → take size (overwritten q new row) ≡ overwritten q new (take size row) }
    ensures past { (q size : ℕ) (new row : List ℕ) → q ≤ size → size ≤ q + length new → q ≤ length row
        → take (q + length new) (overwritten q new row) ≡ overwritten q new (take size row) }
{}

/// The index block `j` of a file is read off its disk block, and the bytes of a file from a place on, within one block, off that data block.
pub fn bytes_are_read()
    ensures index { (n : ℕ) (disk : List ℕ) (p : Places) (slot j : ℕ) → LaidIn (disk_geometry n) (fields_of (disk_geometry n) disk) p
        → slot < length (fields_of (disk_geometry n) disk).entries
        → entry_is_used (entry_in (fields_of (disk_geometry n) disk) slot) ≡ true → j < length (numbers_at p.chains slot)
        → slice_index (numbers_at p.chains slot) j < index_count (disk_geometry n)
        → index_at (slice_index (numbers_at p.chains slot) j % 7) (block_in disk (6 + slice_index (numbers_at p.chains slot) j / 7))
        ≡ index_for j (numbers_at p.chains slot) (numbers_at p.datas slot) }
    ensures data { (f : ℕ → List ℕ) (xs : List ℕ) (size q k : ℕ) → ((j : ℕ) → j < length xs → length (f (slice_index xs j)) ≡ 512)
        → q / 512 < length xs → q % 512 + k ≤ 512 → q + k ≤ size
        → take k (drop q (take size (flat_map f xs))) ≡ take k (drop (q % 512) (f (slice_index xs (q / 512)))) }
{}
