//! The effects of calls on a clean disk, by the disks that they leave.

ghost use Rattle.std.specs.Prelude.{ℕ, ◌≡◌, ◌≢◌, ◌+◌, ◌<◌, ◌≤◌, true, false, List, [], ◌∷◌, length, take, drop, slice_set, Some, None, pos, negsuc};
ghost use Rattle.lfs_check.specs.Rules.{entry_is_used};
ghost use Rattle.lfs_check.specs.Disks.{entry_at};
ghost use Rattle.lfs_layout.specs.Files.{bare_name};
ghost use Rattle.lfs_layout.specs.Images.{IsCleanImage};
ghost use Rattle.xinu_model.specs.Files.Calls.{file_effect};
ghost use Rattle.xinu_model.specs.Files.Calls as model;
ghost use Rattle.xinu_model.specs.Files.Stored.{file_named, with_contents, without_file};
ghost use Rattle.xinu_model.specs.Files.Systems.{OpenFile, FileSystem, FileEffect, open_at, is_open, replies, refused_effect};
ghost use Rattle.xinu_model.specs.Files.Writing.{overwritten, fitting};
ghost use Rattle.file_laws.specs.StoredFiles.{stored_files, entry_bytes};

/// `read` and `getc` before the end give the bytes that are there, and move the position past them.
pub fn reads_give_bytes()
    ensures read { (base bytes : List ℕ) (d n slot many : ℕ) (f : OpenFile) (s : FileSystem) → IsCleanImage base → slot < 78
        → entry_is_used (entry_at base slot) ≡ true → open_at s d ≡ Some f → f.may_read ≡ true → s.files ≡ stored_files base
        → f.name ≡ bare_name (entry_at base slot).name → 0 < n → f.position < (entry_at base slot).size
        → many ≡ length (take n (drop f.position (entry_bytes base (entry_at base slot))))
        → ◌≡◌ {A = FileEffect} (file_effect (model.Read d n) bytes s)
        (record {
          system = record s { devices = slice_set s.devices d (Some (record f { position = f.position + many })) };
          reply = pos many;
          bytes = take n (drop f.position (entry_bytes base (entry_at base slot)));
        }) }
    ensures byte { (base bytes : List ℕ) (d slot b : ℕ) (f : OpenFile) (s : FileSystem) → IsCleanImage base → slot < 78
        → entry_is_used (entry_at base slot) ≡ true → open_at s d ≡ Some f → f.may_read ≡ true → s.files ≡ stored_files base
        → f.name ≡ bare_name (entry_at base slot).name → take 1 (drop f.position (entry_bytes base (entry_at base slot))) ≡ b ∷ []
        → ◌≡◌ {A = FileEffect} (file_effect (model.Getc d) bytes s)
        (record { system = record s { devices = slice_set s.devices d (Some (record f { position = f.position + 1 })) }; reply = pos b; bytes = [] }) }
{}

/// `write` puts as many bytes as fit, and is refused if it is to put some and none fits, and not if some fit; with no bytes it changes nothing.
pub fn writes_put_bytes()
    ensures some { (base made new : List ℕ) (d slot k : ℕ) (f : OpenFile) (s : FileSystem) → IsCleanImage base → slot < 78
        → entry_is_used (entry_at base slot) ≡ true → open_at s d ≡ Some f → f.may_write ≡ true → s.files ≡ stored_files base
        → f.name ≡ bare_name (entry_at base slot).name → fitting f new s ≡ k → 0 < k → k ≤ length new
        → stored_files made ≡ with_contents (bare_name (entry_at base slot).name)
        (overwritten f.position (take k new) (entry_bytes base (entry_at base slot))) (stored_files base)
        → ◌≡◌ {A = FileEffect} (file_effect (model.Write d (length new)) new s)
        (record {
          system = record s { files = stored_files made; devices = slice_set s.devices d (Some (record f { position = f.position + k })) };
          reply = pos k;
          bytes = [];
        }) }
    ensures refused { (new : List ℕ) (d : ℕ) (f : OpenFile) (s : FileSystem) → open_at s d ≡ Some f → fitting f new s ≡ 0 → 0 < length new
        → file_effect (model.Write d (length new)) new s ≡ refused_effect s }
    ensures granted { (new : List ℕ) (d : ℕ) (f : OpenFile) (s : FileSystem) → open_at s d ≡ Some f → f.may_write ≡ true
        → 0 < fitting f new s → (file_effect (model.Write d (length new)) new s).reply ≢ negsuc 0 }
    ensures none { (base : List ℕ) (d slot : ℕ) (f : OpenFile) (s : FileSystem) → IsCleanImage base → slot < 78
        → entry_is_used (entry_at base slot) ≡ true → open_at s d ≡ Some f → f.may_write ≡ true → s.files ≡ stored_files base
        → f.name ≡ bare_name (entry_at base slot).name → file_effect (model.Write d 0) [] s ≡ replies (pos 0) s }
{}

/// `putc` puts its byte if it fits, and is refused if it doesn't.
pub fn putc_puts_its_byte()
    ensures some { (base made bytes : List ℕ) (d slot b : ℕ) (f : OpenFile) (s : FileSystem) → IsCleanImage base → slot < 78
        → entry_is_used (entry_at base slot) ≡ true → open_at s d ≡ Some f → f.may_write ≡ true → s.files ≡ stored_files base
        → f.name ≡ bare_name (entry_at base slot).name → fitting f (b ∷ []) s ≡ 1
        → stored_files made ≡ with_contents (bare_name (entry_at base slot).name)
        (overwritten f.position (b ∷ []) (entry_bytes base (entry_at base slot))) (stored_files base)
        → ◌≡◌ {A = FileEffect} (file_effect (model.Putc d b) bytes s)
        (record {
          system = record s { files = stored_files made; devices = slice_set s.devices d (Some (record f { position = f.position + 1 })) };
          reply = pos 0;
          bytes = [];
        }) }
    ensures refused { (bytes : List ℕ) (d b : ℕ) (f : OpenFile) (s : FileSystem) → open_at s d ≡ Some f → fitting f (b ∷ []) s ≡ 0
        → file_effect (model.Putc d b) bytes s ≡ refused_effect s }
    ensures granted { (bytes : List ℕ) (d b : ℕ) (f : OpenFile) (s : FileSystem) → open_at s d ≡ Some f → f.may_write ≡ true
        → 0 < fitting f (b ∷ []) s → (file_effect (model.Putc d b) bytes s).reply ≢ negsuc 0 }
{}

/// A truncation leaves its file empty, and a deletion takes its file away; it is refused if there is none. Neither is refused else.
pub fn files_are_emptied_and_deleted()
    ensures empty { (base made bytes : List ℕ) (d slot : ℕ) (f : OpenFile) (s : FileSystem) → open_at s d ≡ Some f → f.may_write ≡ true
        → s.files ≡ stored_files base → f.name ≡ bare_name (entry_at base slot).name
        → stored_files made ≡ with_contents (bare_name (entry_at base slot).name) [] (stored_files base)
        → ◌≡◌ {A = FileEffect} (file_effect (model.Truncate d) bytes s)
        (record {
          system = record s { files = stored_files made; devices = slice_set s.devices d (Some (record f { position = 0 })) };
          reply = pos 0;
          bytes = [];
        }) }
    ensures deleted { (base made bytes : List ℕ) (slot : ℕ) (s : FileSystem) → IsCleanImage base → slot < 78
        → entry_is_used (entry_at base slot) ≡ true → is_open (bare_name (entry_at base slot).name) s ≡ false → s.files ≡ stored_files base
        → stored_files made ≡ without_file (bare_name (entry_at base slot).name) (stored_files base)
        → ◌≡◌ {A = FileEffect} (file_effect (model.Delete (bare_name (entry_at base slot).name)) bytes s)
        (record { system = record s { files = stored_files made }; reply = pos 0; bytes = [] }) }
    ensures refused { (name bytes : List ℕ) (s : FileSystem) → file_named name s.files ≡ None
        → file_effect (model.Delete name) bytes s ≡ refused_effect s }
    ensures emptied { (bytes : List ℕ) (d : ℕ) (f : OpenFile) (s : FileSystem) → open_at s d ≡ Some f → f.may_write ≡ true
        → (file_effect (model.Truncate d) bytes s).reply ≢ negsuc 0 }
    ensures granted { (base bytes : List ℕ) (slot : ℕ) (s : FileSystem) → IsCleanImage base → slot < 78
        → entry_is_used (entry_at base slot) ≡ true → is_open (bare_name (entry_at base slot).name) s ≡ false → s.files ≡ stored_files base
        → (file_effect (model.Delete (bare_name (entry_at base slot).name)) bytes s).reply ≢ negsuc 0 }
    ensures kept { (base : List ℕ) (slot : ℕ) → IsCleanImage base → slot < 78 → entry_is_used (entry_at base slot) ≡ true
        → with_contents (bare_name (entry_at base slot).name) (entry_bytes base (entry_at base slot)) (stored_files base) ≡ stored_files base }
{}
