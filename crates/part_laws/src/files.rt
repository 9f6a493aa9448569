//! The files and the open devices by themselves (book, chapter 19): what always holds of them, and what the calls on files do.

ghost use Rattle.std.specs.Prelude.{◌≡◌, ◌≢◌, ◌+◌, ◌<◌, ◌≤◌, ℕ, true, false, List, [], length, take, drop, Some, None, pos};
ghost use Rattle.std.specs.List.{AllByRecursion};
ghost use Rattle.xinu_base.specs.Constants.{OK, SYSERR, EOF};
ghost use Rattle.xinu_base.specs.declared.files.OpenMode.{OpenMode};
ghost use Rattle.part_laws.specs.FileEffects.{is_about, device_of};
ghost use Rattle.xinu_model.specs.Files.Calls.{FileCall, Open, Delete, Read, Write, Seek, file_effect};
ghost use Rattle.xinu_model.specs.Files.Constants.{LF_NUM_DIR_ENT, LFILE0};
ghost use Rattle.xinu_model.specs.Files.Opening.{opening};
ghost use Rattle.xinu_model.specs.Files.Reading.{bytes_ahead, taken};
ghost use Rattle.xinu_model.specs.Files.Room.{they_fit};
ghost use Rattle.xinu_model.specs.Files.Sound.{IsSoundFiles, IsFileCall};
ghost use Rattle.xinu_model.specs.Files.Stored.{StoredFile, is_file_name, precedes, file_names, file_named};
ghost use Rattle.xinu_model.specs.Files.Systems.{OpenFile, FileSystem, open_at, open_bytes, free_device, closed_system, replies};
ghost use Rattle.xinu_model.specs.Files.Writing.{overwritten, have_room, fitting};
ghost use Rattle.xinu_model.specs.Sound.Tables.{IsInOrder};

/// Files in the order of their names that fit on their disk are sound while nothing is open, and the effect of each call keeps them so, and
/// the number of blocks.
pub fn files_stay_sound()
    ensures starts { (blocks : ℕ) (files : List StoredFile) → AllByRecursion (λ name. is_file_name name ≡ true) (file_names files) →
        IsInOrder (λ name other. precedes name other ≡ true) (file_names files) → length files ≤ LF_NUM_DIR_ENT →
        they_fit blocks files ≡ true → IsSoundFiles (closed_system blocks files) }
    ensures effects { (call : FileCall) (bytes : List ℕ) (s : FileSystem) → IsFileCall call → IsSoundFiles s →
        IsSoundFiles (file_effect call bytes s).system }
    ensures blocks { (call : FileCall) (bytes : List ℕ) (s : FileSystem) → (file_effect call bytes s).system.blocks ≡ s.blocks }
{}

/// A call that is refused at its effect changes nothing and gives no bytes, and neither does one that is told the end of its file.
pub fn refused_effects_change_nothing()
    ensures refused { (call : FileCall) (bytes : List ℕ) (s : FileSystem) → (file_effect call bytes s).reply ≡ SYSERR →
        file_effect call bytes s ≡ replies SYSERR s }
    ensures ended { (call : FileCall) (bytes : List ℕ) (s : FileSystem) → (file_effect call bytes s).reply ≡ EOF →
        file_effect call bytes s ≡ replies EOF s }
{}

/// No call changes a file that it neither names nor has open, nor a device that it isn't on. A file that was deleted is gone.
pub fn other_files_stay()
    ensures same { (call : FileCall) (bytes : List ℕ) (s : FileSystem) (name : List ℕ) → is_about name call s ≡ false →
        file_named name (file_effect call bytes s).system.files ≡ file_named name s.files }
    ensures devices { (call : FileCall) (bytes : List ℕ) (s : FileSystem) (d : ℕ) → device_of call s ≢ Some d →
        open_at (file_effect call bytes s).system d ≡ open_at s d }
    ensures deleted { (name bytes : List ℕ) (s : FileSystem) → (file_effect (Delete name) bytes s).reply ≡ OK →
        file_named name (file_effect (Delete name) bytes s).system.files ≡ None }
{}

/// An open that is carried out gives the lowest device that has nothing open, at the beginning of the file.
pub fn open_gives_the_lowest_device()
    ensures reply { (s : FileSystem) (name bytes : List ℕ) (mode : OpenMode) (k : ℕ) →
        (file_effect (Open name mode) bytes s).reply ≡ pos k → k ≡ LFILE0 + free_device s.devices }
    ensures opened { (s : FileSystem) (name bytes : List ℕ) (mode : OpenMode) (k : ℕ) → IsSoundFiles s →
        (file_effect (Open name mode) bytes s).reply ≡ pos k →
        open_at (file_effect (Open name mode) bytes s).system (free_device s.devices) ≡ Some (opening name mode) }
    ensures free { (s : FileSystem) → open_at s (free_device s.devices) ≡ None }
    ensures lowest { (s : FileSystem) (d : ℕ) → d < free_device s.devices → open_at s d ≢ None }
{}

/// A write puts as many of its bytes as there is room for: there is room for what it puts, and for no more. If it may write, it is refused
/// only if there is room for no byte.
pub fn writes_put_what_fits()
    ensures count { (s : FileSystem) (d n k : ℕ) (f : OpenFile) (bytes : List ℕ) → open_at s d ≡ Some f →
        (file_effect (Write d n) bytes s).reply ≡ pos k → k ≡ fitting f bytes s }
    ensures room { (s : FileSystem) (d : ℕ) (f : OpenFile) (bytes : List ℕ) → IsSoundFiles s → open_at s d ≡ Some f →
        have_room f (take (fitting f bytes s) bytes) s ≡ true }
    ensures most { (s : FileSystem) (f : OpenFile) (bytes : List ℕ) (k : ℕ) → fitting f bytes s < k → k ≤ length bytes →
        have_room f (take k bytes) s ≡ false }
    ensures refused { (s : FileSystem) (d n : ℕ) (f : OpenFile) (bytes : List ℕ) → open_at s d ≡ Some f → f.may_write ≡ true →
        (file_effect (Write d n) bytes s).reply ≡ SYSERR → have_room f (take 1 bytes) s ≡ false }
{}

/// The bytes that were written are read back at their position, and those before and after them stay.
pub fn written_bytes_are_read_back()
    ensures back { (s : FileSystem) (d n k : ℕ) (f : OpenFile) (bytes : List ℕ) → IsSoundFiles s → open_at s d ≡ Some f →
        f.may_read ≡ true → 0 < k → (file_effect (Write d n) bytes s).reply ≡ pos k →
        (file_effect (Read d k) [] (file_effect (Seek d (pos f.position)) [] (file_effect (Write d n) bytes s).system).system).bytes ≡
        take k bytes }
    ensures before { (position : ℕ) (new old : List ℕ) → position ≤ length old →
        take position (overwritten position new old) ≡ take position old }
    ensures after { (position : ℕ) (new old : List ℕ) → position ≤ length old →
        drop (position + length new) (overwritten position new old) ≡ drop (position + length new) old }
    ensures read { (s : FileSystem) (d n : ℕ) (f : OpenFile) → open_at s d ≡ Some f → f.may_read ≡ true → 0 < n →
        f.position < length (open_bytes f s) → file_effect (Read d n) [] s ≡ taken (bytes_ahead n f s) d f s }
{}
