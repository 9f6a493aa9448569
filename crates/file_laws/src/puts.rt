//! What a call finds on the disk of the file in hand, and what it does to the file's bytes.

ghost use Rattle.std.specs.Prelude.{ℕ, ◌≡◌, ◌≢◌, ◌+◌, ◌*◌, ◌/◌, ◌%◌, ◌<◌, ◌≤◌, List, [], ◌∷◌, ◌++◌, length, suc, take, drop, slice_index, slice_set};
ghost use Rattle.lfs_format.specs.declared.Entry.{Entry};
ghost use Rattle.lfs_format.specs.declared.Index.{Index};
ghost use Rattle.lfs_format.specs.Words.{word_of};
ghost use Rattle.lfs_format.specs.Indexes.{index_at, IsIndexPut};
ghost use Rattle.lfs_check.specs.declared.fields.Header.{Header};
ghost use Rattle.lfs_check.specs.Meets.{null};
ghost use Rattle.lfs_check.specs.Rules.{block_in};
ghost use Rattle.lfs_check.specs.Laid.{Places, numbers_at, index_for};
ghost use Rattle.lfs_check.specs.Disks.{block_put};
ghost use Rattle.xinu_model.specs.Files.Writing.{overwritten};
ghost use Rattle.file_laws.specs.Middle.{IsMiddle};
ghost use Rattle.file_laws.specs.Changing.{IsReadBy, IsCut};

/// The file in hand is read off the disk by its index blocks and data blocks, and has as many bytes as its entry in memory says.
pub fn a_file_is_read()
    ensures blocks { (n : ℕ) (base disk : List ℕ) (header : Header) (slot : ℕ) (entry : Entry) (p : Places) (bytes : List ℕ)
        → IsMiddle n base disk header slot entry p bytes → IsReadBy n disk entry (numbers_at p.chains slot) (numbers_at p.datas slot) }
    ensures size { (n : ℕ) (base disk : List ℕ) (header : Header) (slot : ℕ) (entry : Entry) (p : Places) (bytes : List ℕ)
        → IsMiddle n base disk header slot entry p bytes → length bytes ≡ entry.size }
{}

/// A head that isn't null is the first free block of its kind, and a null head says that none is free. Once the first is read, it is taken.
pub fn free_blocks_are_read()
    ensures data { (n : ℕ) (base disk : List ℕ) (header : Header) (slot : ℕ) (entry : Entry) (p : Places) (bytes : List ℕ)
        → IsMiddle n base disk header slot entry p bytes → header.free_data ≢ null → p.free_data ≡ header.free_data ∷ drop 1 p.free_data }
    ensures no_data { (n : ℕ) (base disk : List ℕ) (header : Header) (slot : ℕ) (entry : Entry) (p : Places) (bytes : List ℕ)
        → IsMiddle n base disk header slot entry p bytes → header.free_data ≡ null → p.free_data ≡ [] }
    ensures index { (n : ℕ) (base disk : List ℕ) (header : Header) (slot : ℕ) (entry : Entry) (p : Places) (bytes : List ℕ)
        → IsMiddle n base disk header slot entry p bytes → header.free_index ≢ null → p.free_index ≡ header.free_index ∷ drop 1 p.free_index }
    ensures no_index { (n : ℕ) (base disk : List ℕ) (header : Header) (slot : ℕ) (entry : Entry) (p : Places) (bytes : List ℕ)
        → IsMiddle n base disk header slot entry p bytes → header.free_index ≡ null → p.free_index ≡ [] }
    ensures data_taken { (n : ℕ) (base disk : List ℕ) (header : Header) (slot : ℕ) (entry : Entry) (p : Places) (bytes : List ℕ) (b : ℕ)
        (rest : List ℕ) → IsMiddle n base disk header slot entry p bytes → p.free_data ≡ b ∷ rest
        → IsMiddle n base disk (record header { free_data = word_of (block_in disk b) }) slot entry
        (record p { free_data = rest; held_data = b ∷ p.held_data }) bytes }
    ensures index_taken { (n : ℕ) (base disk : List ℕ) (header : Header) (slot : ℕ) (entry : Entry) (p : Places) (bytes : List ℕ) (i : ℕ)
        (rest : List ℕ) → IsMiddle n base disk header slot entry p bytes → p.free_index ≡ i ∷ rest
        → IsMiddle n base disk (record header { free_index = (index_at (i % 7) (block_in disk (6 + i / 7))).next }) slot entry
        (record p { free_index = rest; held_index = i ∷ p.held_index }) bytes }
{}

/// Bytes are put into a data block of the file: the file has them in their place, and grows if they go past its end.
pub fn bytes_are_patched()
    ensures { (n : ℕ) (base disk : List ℕ) (header : Header) (slot : ℕ) (entry after : Entry) (p : Places) (bytes : List ℕ) (j r : ℕ)
        (new block : List ℕ) → IsMiddle n base disk header slot entry p bytes → j < length (numbers_at p.datas slot) → r + length new ≤ 512
        → 512 * j + r ≤ entry.size → block ≡ overwritten r new (block_in disk (slice_index (numbers_at p.datas slot) j))
        → after.name ≡ entry.name → after.first ≡ entry.first → after.size ≡ length (overwritten (512 * j + r) new bytes)
        → IsMiddle n base (block_put disk (slice_index (numbers_at p.datas slot) j) block) header slot after p
        (overwritten (512 * j + r) new bytes) }
{}

/// A data block that the call holds is added to a file whose last one is full: its number is put into the last index block, or into one that
/// the call holds, which becomes the file's first or is named by its last.
pub fn bytes_are_appended()
    ensures block { (n : ℕ) (base disk : List ℕ) (header : Header) (slot : ℕ) (entry after : Entry) (p : Places) (bytes new : List ℕ) (j b : ℕ)
        (rest block : List ℕ) → IsMiddle n base disk header slot entry p bytes → p.held_data ≡ b ∷ rest
        → entry.size ≡ 512 * length (numbers_at p.datas slot) → take (length new) (block_in disk b) ≡ new → 0 < length new → length new ≤ 512
        → suc j ≡ length (numbers_at p.chains slot) → length (numbers_at p.datas slot) < 16 * length (numbers_at p.chains slot)
        → after.name ≡ entry.name → after.first ≡ entry.first → after.size ≡ entry.size + length new
        → IsIndexPut (block_in disk (6 + slice_index (numbers_at p.chains slot) j / 7)) (slice_index (numbers_at p.chains slot) j % 7)
        (index_for j (numbers_at p.chains slot) (numbers_at p.datas slot ++ b ∷ [])) block
        → IsMiddle n base (block_put disk (6 + slice_index (numbers_at p.chains slot) j / 7) block) header slot after
        (record p { datas = slice_set p.datas slot (numbers_at p.datas slot ++ b ∷ []); held_data = rest }) (bytes ++ new) }
    ensures first { (n : ℕ) (base disk : List ℕ) (header : Header) (slot : ℕ) (entry after : Entry) (p : Places) (bytes new : List ℕ) (i b : ℕ)
        (hi hd : List ℕ) → IsMiddle n base disk header slot entry p bytes → p.held_index ≡ i ∷ hi → p.held_data ≡ b ∷ hd → entry.size ≡ 0
        → take (length new) (block_in disk b) ≡ new → 0 < length new → length new ≤ 512
        → index_at (i % 7) (block_in disk (6 + i / 7)) ≡ index_for 0 (i ∷ []) (b ∷ [])
        → after.name ≡ entry.name → after.first ≡ i → after.size ≡ length new
        → IsMiddle n base disk header slot after
        (record p { chains = slice_set p.chains slot (i ∷ []); datas = slice_set p.datas slot (b ∷ []); held_index = hi; held_data = hd })
        (bytes ++ new) }
    ensures link { (n : ℕ) (base disk : List ℕ) (header : Header) (slot : ℕ) (entry after : Entry) (p : Places) (bytes new : List ℕ) (j i b : ℕ)
        (hi hd block : List ℕ) → IsMiddle n base disk header slot entry p bytes → p.held_index ≡ i ∷ hi → p.held_data ≡ b ∷ hd
        → entry.size ≡ 8192 * length (numbers_at p.chains slot) → take (length new) (block_in disk b) ≡ new → 0 < length new → length new ≤ 512
        → suc j ≡ length (numbers_at p.chains slot)
        → index_at (i % 7) (block_in disk (6 + i / 7)) ≡ index_for (suc j) (numbers_at p.chains slot ++ i ∷ []) (numbers_at p.datas slot ++ b ∷ [])
        → after.name ≡ entry.name → after.first ≡ entry.first → after.size ≡ entry.size + length new
        → IsIndexPut (block_in disk (6 + slice_index (numbers_at p.chains slot) j / 7)) (slice_index (numbers_at p.chains slot) j % 7)
        (index_for j (numbers_at p.chains slot ++ i ∷ []) (numbers_at p.datas slot ++ b ∷ [])) block
        → IsMiddle n base (block_put disk (6 + slice_index (numbers_at p.chains slot) j / 7) block) header slot after
        (record p {
          chains = slice_set p.chains slot (numbers_at p.chains slot ++ i ∷ []);
          datas = slice_set p.datas slot (numbers_at p.datas slot ++ b ∷ []);
          held_index = hi;
          held_data = hd;
        }) (bytes ++ new) }
{}

/// A file is cut, in memory, and then its data blocks and index blocks are freed one by one: each is written with the number of the first
/// free one, and is then the first.
pub fn a_cut_file_is_freed()
    ensures begins { (n : ℕ) (base disk : List ℕ) (header : Header) (slot : ℕ) (entry after : Entry) (p : Places) (bytes : List ℕ)
        → IsMiddle n base disk header slot entry p bytes → p.held_index ≡ [] → p.held_data ≡ [] → after.name ≡ entry.name → after.size ≡ 0
        → after.first ≡ null
        → IsCut n base disk header slot after (record p {
          chains = slice_set p.chains slot [];
          datas = slice_set p.datas slot [];
          held_index = numbers_at p.chains slot ++ p.held_index;
          held_data = numbers_at p.datas slot ++ p.held_data;
        })
        (numbers_at p.chains slot) (numbers_at p.datas slot) 0 0 }
    ensures data { (n : ℕ) (base disk : List ℕ) (header : Header) (slot : ℕ) (entry : Entry) (p : Places) (chain blocks : List ℕ) (j c : ℕ)
        (block : List ℕ) → IsCut n base disk header slot entry p chain blocks j c → c < length blocks → length block ≡ 512
        → word_of block ≡ header.free_data
        → IsCut n base (block_put disk (slice_index blocks c) block) (record header { free_data = slice_index blocks c }) slot entry
        (record p { free_data = slice_index blocks c ∷ p.free_data; held_data = drop (suc c) blocks }) chain blocks j (suc c) }
    ensures index { (n : ℕ) (base disk : List ℕ) (header : Header) (slot : ℕ) (entry : Entry) (p : Places) (chain blocks : List ℕ) (j c : ℕ)
        (index : Index) (block : List ℕ) → IsCut n base disk header slot entry p chain blocks j c → j < length chain
        → index.next ≡ header.free_index → IsIndexPut (block_in disk (6 + slice_index chain j / 7)) (slice_index chain j % 7) index block
        → IsCut n base (block_put disk (6 + slice_index chain j / 7) block) (record header { free_index = slice_index chain j }) slot entry
        (record p { free_index = slice_index chain j ∷ p.free_index; held_index = drop (suc j) chain }) chain blocks (suc j) c }
    ensures ends { (n : ℕ) (base disk : List ℕ) (header : Header) (slot : ℕ) (entry : Entry) (p : Places) (chain blocks : List ℕ) (j c : ℕ)
        → IsCut n base disk header slot entry p chain blocks j c → length chain ≤ j → length blocks ≤ c
        → (p.held_index ≡ []) × (p.held_data ≡ []) }
{}
