//! The steps of a call that changes a file: each leads from one middle to another.

ghost use Rattle.std.specs.Prelude.{ℕ, ◌≡◌, ◌+◌, ◌*◌, ◌/◌, ◌%◌, ◌<◌, ◌≤◌, true, List, [], ◌∷◌, ◌++◌, length, suc, slice_index, slice_set};
ghost use Rattle.lfs_format.specs.declared.Entry.{Entry};
ghost use Rattle.lfs_format.specs.declared.Index.{Index};
ghost use Rattle.lfs_format.specs.Indexes.{IsIndexPut};
ghost use Rattle.lfs_check.specs.declared.fields.Header.{Header};
ghost use Rattle.lfs_check.specs.Geometries.{index_count};
ghost use Rattle.lfs_check.specs.Meets.{null, times_met};
ghost use Rattle.lfs_check.specs.Rules.{block_in, entry_is_used};
ghost use Rattle.lfs_check.specs.Laid.{Places, numbers_at, index_in, index_for};
ghost use Rattle.lfs_check.specs.Clean.{places_of};
ghost use Rattle.lfs_check.specs.Fields.{fields_of, link_in_bytes, numbered_values};
ghost use Rattle.lfs_check.specs.Disks.{disk_geometry, block_put, entry_at, header_on};
ghost use Rattle.lfs_layout.specs.Images.{IsCleanImage};
ghost use Rattle.file_laws.specs.StoredFiles.{entry_bytes};
ghost use Rattle.file_laws.specs.Middle.{shape_with, content_at, IsMiddle};

/// A clean disk is the middle of a call on any of its files that has written nothing yet.
pub fn a_change_begins()
    ensures { (base : List ℕ) (slot : ℕ) → IsCleanImage base → slot < 78 → entry_is_used (entry_at base slot) ≡ true
        → IsMiddle (length base / 512) base base (header_on base) slot (entry_at base slot) (places_of (disk_geometry
        (length base / 512)) (fields_of (disk_geometry (length base / 512)) base)) (entry_bytes base (entry_at base slot)) }
{}

/// A data block of the file is written in place, or a block is written that the call holds.
pub fn blocks_are_put()
    ensures place { (n : ℕ) (base disk : List ℕ) (header : Header) (slot : ℕ) (entry : Entry) (p : Places) (bytes : List ℕ) (j : ℕ)
        (block : List ℕ) → IsMiddle n base disk header slot entry p bytes
        → j < length (numbers_at p.datas slot) → length block ≡ 512
        → IsMiddle n base (block_put disk (slice_index (numbers_at p.datas slot) j) block) header slot entry p
        (content_at (block_put disk (slice_index (numbers_at p.datas slot) j) block) p slot entry.size) }
    ensures data { (n : ℕ) (base disk : List ℕ) (header : Header) (slot : ℕ) (entry : Entry) (p : Places) (bytes : List ℕ) (b : ℕ)
        (block : List ℕ) → IsMiddle n base disk header slot entry p bytes
        → 1 ≤ times_met b p.held_data → length block ≡ 512 → IsMiddle n base (block_put disk b block) header slot entry p bytes }
    ensures index { (n : ℕ) (base disk : List ℕ) (header : Header) (slot : ℕ) (entry : Entry) (p : Places) (bytes : List ℕ) (i : ℕ)
        (index : Index) (block : List ℕ) → IsMiddle n base disk header slot entry p bytes
        → 1 ≤ times_met i p.held_index → IsIndexPut (block_in disk (6 + i / 7)) (i % 7) index block
        → IsMiddle n base (block_put disk (6 + i / 7) block) header slot entry p bytes }
{}

/// The first free block of a kind is taken, in memory: the call holds it, and the next is the first.
pub fn blocks_are_taken()
    ensures data { (n : ℕ) (base disk : List ℕ) (header : Header) (slot : ℕ) (entry : Entry) (p : Places) (bytes : List ℕ) (b : ℕ)
        (rest : List ℕ) → IsMiddle n base disk header slot entry p bytes → p.free_data ≡ b ∷ rest
        → IsMiddle n base disk (record header { free_data = slice_index (numbered_values (link_in_bytes disk) n) header.free_data }) slot entry (record p { free_data = rest; held_data = b ∷ p.held_data }) bytes }
    ensures index { (n : ℕ) (base disk : List ℕ) (header : Header) (slot : ℕ) (entry : Entry) (p : Places) (bytes : List ℕ) (i : ℕ)
        (rest : List ℕ) → IsMiddle n base disk header slot entry p bytes → p.free_index ≡ i ∷ rest
        → IsMiddle n base disk (record header { free_index = (index_in (shape_with n disk header slot entry) header.free_index).next }) slot entry (record p { free_index = rest; held_index = i ∷ p.held_index }) bytes }
{}

/// The number of a data block that the call holds is put into the file's last index block, which has room.
pub fn a_data_block_is_added()
    ensures { (n : ℕ) (base disk : List ℕ) (header : Header) (slot : ℕ) (entry after : Entry) (p : Places) (bytes : List ℕ) (j b : ℕ)
        (rest : List ℕ) (block : List ℕ) → IsMiddle n base disk header slot entry p bytes
        → p.held_data ≡ b ∷ rest → suc j ≡ length (numbers_at p.chains slot)
        → length (numbers_at p.datas slot) < 16 * length (numbers_at p.chains slot)
        → after.name ≡ entry.name → after.first ≡ entry.first → (after.size + 8191) / 8192 ≡ length (numbers_at p.chains slot)
        → (after.size + 511) / 512 ≡ length (numbers_at p.datas slot) + 1
        → slice_index (numbers_at p.chains slot) j < index_count (disk_geometry n)
        → IsIndexPut (block_in disk (6 + slice_index (numbers_at p.chains slot) j / 7)) (slice_index
        (numbers_at p.chains slot) j % 7) (index_for j (numbers_at p.chains slot) (numbers_at p.datas slot ++ b ∷ [])) block
        → IsMiddle n base (block_put disk (6 + slice_index (numbers_at p.chains slot) j / 7) block) header slot after
        (record p { datas = slice_set p.datas slot (numbers_at p.datas slot ++ b ∷ []); held_data = rest })
        (content_at (block_put disk (6 + slice_index (numbers_at p.chains slot) j / 7) block) (record p {
          datas = slice_set p.datas slot
              (numbers_at p.datas slot ++ b ∷ []);
          held_data = rest;
        }) slot after.size) }
{}

/// An index block that the call holds, with the number of a data block that it holds, becomes the file's first, in memory, or is named by its
/// last index block, which is full.
pub fn an_index_block_is_added()
    ensures first { (n : ℕ) (base disk : List ℕ) (header : Header) (slot : ℕ) (entry after : Entry) (p : Places) (bytes : List ℕ) (i b : ℕ)
        (hi hd : List ℕ) → IsMiddle n base disk header slot entry p bytes
        → p.held_index ≡ i ∷ hi → p.held_data ≡ b ∷ hd → numbers_at p.chains slot ≡ [] → numbers_at p.datas slot ≡ []
        → index_in (shape_with n disk header slot entry) i ≡ index_for 0 (i ∷ []) (b ∷ [])
        → after.name ≡ entry.name → after.first ≡ i → (after.size + 8191) / 8192 ≡ 1 → (after.size + 511) / 512 ≡ 1
        → IsMiddle n base disk header slot after (record p {
          chains = slice_set p.chains slot (i ∷ []);
          datas = slice_set p.datas slot
              (b ∷ []);
          held_index = hi;
          held_data = hd;
        })
        (content_at disk (record p {
          chains = slice_set p.chains slot (i ∷ []);
          datas = slice_set p.datas slot
              (b ∷ []);
          held_index = hi;
          held_data = hd;
        }) slot after.size) }
    ensures link { (n : ℕ) (base disk : List ℕ) (header : Header) (slot : ℕ) (entry after : Entry) (p : Places) (bytes : List ℕ) (j i b : ℕ)
        (hi hd : List ℕ) (block : List ℕ) → IsMiddle n base disk header slot entry p bytes
        → p.held_index ≡ i ∷ hi → p.held_data ≡ b ∷ hd → suc j ≡ length (numbers_at p.chains slot)
        → length (numbers_at p.datas slot) ≡ 16 * length (numbers_at p.chains slot)
        → slice_index (numbers_at p.chains slot) j < index_count (disk_geometry n)
        → index_in (shape_with n disk header slot entry) i ≡ index_for (suc j) (numbers_at p.chains slot ++ i ∷ [])
        (numbers_at p.datas slot ++ b ∷ [])
        → after.name ≡ entry.name → after.first ≡ entry.first → (after.size + 8191) / 8192 ≡ length (numbers_at p.chains slot) + 1
        → (after.size + 511) / 512 ≡ length (numbers_at p.datas slot) + 1
        → IsIndexPut (block_in disk (6 + slice_index (numbers_at p.chains slot) j / 7)) (slice_index
        (numbers_at p.chains slot) j % 7) (index_for j (numbers_at p.chains slot ++ i ∷ []) (numbers_at p.datas slot ++ b ∷ [])) block
        → IsMiddle n base (block_put disk (6 + slice_index (numbers_at p.chains slot) j / 7) block) header slot after
        (record p {
          chains = slice_set p.chains slot (numbers_at p.chains slot ++ i ∷ []);
          datas = slice_set p.datas slot
              (numbers_at p.datas slot ++ b ∷ []);
          held_index = hi;
          held_data = hd;
        })
        (content_at (block_put disk (6 + slice_index (numbers_at p.chains slot) j / 7) block)
        (record p {
          chains = slice_set p.chains slot (numbers_at p.chains slot ++ i ∷ []);
          datas = slice_set p.datas slot
              (numbers_at p.datas slot ++ b ∷ []);
          held_index = hi;
          held_data = hd;
        }) slot after.size) }
{}

/// The file is cut to nothing, in memory: the call holds its blocks.
pub fn a_file_is_cut()
    ensures { (n : ℕ) (base disk : List ℕ) (header : Header) (slot : ℕ) (entry after : Entry) (p : Places) (bytes : List ℕ)
        → IsMiddle n base disk header slot entry p bytes
        → after.name ≡ entry.name → after.size ≡ 0 → after.first ≡ null
        → IsMiddle n base disk header slot after (record p { chains = slice_set p.chains slot []; datas = slice_set p.datas slot []; held_index = numbers_at p.chains slot ++ p.held_index; held_data = numbers_at p.datas slot ++ p.held_data }) [] }
{}

/// The block of a kind that the call holds first goes before the free ones, in memory, once it names the first of them.
pub fn blocks_are_freed()
    ensures data { (n : ℕ) (base disk : List ℕ) (header : Header) (slot : ℕ) (entry : Entry) (p : Places) (bytes : List ℕ) (b : ℕ)
        (rest : List ℕ) → IsMiddle n base disk header slot entry p bytes
        → p.held_data ≡ b ∷ rest → slice_index (numbered_values (link_in_bytes disk) n) b ≡ header.free_data
        → IsMiddle n base disk (record header { free_data = b }) slot entry
        (record p { free_data = b ∷ p.free_data; held_data = rest }) bytes }
    ensures index { (n : ℕ) (base disk : List ℕ) (header : Header) (slot : ℕ) (entry : Entry) (p : Places) (bytes : List ℕ) (i : ℕ)
        (rest : List ℕ) → IsMiddle n base disk header slot entry p bytes
        → p.held_index ≡ i ∷ rest → (index_in (shape_with n disk header slot entry) i).next ≡ header.free_index
        → IsMiddle n base disk (record header { free_index = i }) slot entry
        (record p { free_index = i ∷ p.free_index; held_index = rest }) bytes }
{}
