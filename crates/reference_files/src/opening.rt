//! Opening, closing and deleting files (book, chapter 19, `lfsopen.c`, `lflclose.c`).

ghost use Rattle.std.specs.Prelude.{◌≡◌, ◌≤◌, IfOk, None, if◌then◌else◌};
ghost use Rattle.reference_files.specs.Effects.{left};
ghost use Rattle.xinu_model.specs.Files.Opening as model;
ghost use Rattle.xinu_model.specs.Files.Systems as systems;

use crate::stored::{file_named, with_stored, without_file};
use crate::systems::{FileAnswer, OK, free_device, is_open, open_at, refused, replies, set_device};
use reference_state::{FileSystem, OpenFile, StoredFile};
use reference_tables::append;
use xinu_base::{NoMemory, OpenMode};

/// `open`: refused if the file is open, or no device is free; if only an old one is wanted and there is none, or only a new one and there
/// is one; or if it would be one file too many.
pub fn open_file(s: &mut FileSystem, name: &[u8], mode: OpenMode) -> Result<FileAnswer, NoMemory>
    ensures opened { IfOk result (λ x. left s.new x ≡ model.open_file name.now mode s.old) }
{
    if is_open(s, name) || free_device(s) >= 6 {
        return Ok(refused(s));
    }
    match file_named(&s.files, name) {
        Some(_) => open_old(s, name, mode),
        None => open_new(s, name, mode),
    }
}

// Opens a file that there is.
fn open_old(s: &mut FileSystem, name: &[u8], mode: OpenMode) -> Result<FileAnswer, NoMemory>
    requires free { systems.free_device s.old.devices ≤ 5 }
    ensures opened { IfOk result (λ x. left s.new x ≡ (if mode.only_new then systems.refused_effect s.old else model.opened name.now mode s.old)) }
{
    if mode.only_new {
        return Ok(refused(s));
    }
    opened(s, name, mode)
}

// Opens a file that there isn't, which is made.
fn open_new(s: &mut FileSystem, name: &[u8], mode: OpenMode) -> Result<FileAnswer, NoMemory>
    requires free { systems.free_device s.old.devices ≤ 5 }
    ensures opened { IfOk result (λ x. left s.new x ≡ model.open_stored None name.now mode s.old) }
{
    if mode.only_old || s.files.len() >= 78 {
        return Ok(refused(s));
    }
    create(s, name)?;
    opened(s, name, mode)
}

// The files with an empty one of this name.
fn create(s: &mut FileSystem, name: &[u8]) -> Result<(), NoMemory>
    ensures created { IfOk result (λ _. s.new ≡ model.with_created name.now s.old) }
{
    let file = StoredFile {
        name: text(s, name)?,
        bytes: Vec::new(*s.files.allocator()),
    };
    with_stored(&mut s.files, file)
}

// The lowest device that has nothing open gets the file.
fn opened(s: &mut FileSystem, name: &[u8], mode: OpenMode) -> Result<FileAnswer, NoMemory>
    requires free { systems.free_device s.old.devices ≤ 5 }
    ensures opened { IfOk result (λ x. left s.new x ≡ model.opened name.now mode s.old) }
{
    let d = free_device(s) as u32;
    let f = OpenFile {
        name: text(s, name)?,
        position: 0,
        may_read: mode.read || !mode.write,
        may_write: mode.write || !mode.read,
    };
    set_device(s, d, Some(f));
    Ok(replies(4 + d as i32, s))
}

// A list of these bytes.
fn text(s: &FileSystem, bytes: &[u8]) -> Result<Vec<u8>, NoMemory>
    ensures text { IfOk result (λ l. l.items ≡ bytes.now) }
{
    let mut text = Vec::new(*s.files.allocator());
    append(&mut text, bytes)?;
    Ok(text)
}

/// `close`: the device has nothing open.
pub fn close_file(s: &mut FileSystem, d: u32) -> FileAnswer
    ensures closed { left s.new result ≡ systems.on_open (systems.open_at s.old d) (λ f. model.close_file d f s.old) s.old }
{
    match open_at(s, d) {
        None => refused(s),
        Some(_) => {
            set_device(s, d, None);
            replies(OK, s)
        }
    }
}

/// The file system's `control` that deletes a file: refused if there is none, or it is open.
pub fn delete_file(s: &mut FileSystem, name: &[u8]) -> FileAnswer
    ensures deleted { left s.new result ≡ model.delete_file name.now s.old }
{
    if is_open(s, name) || file_named(&s.files, name).is_none() {
        return refused(s);
    }
    without_file(&mut s.files, name);
    replies(OK, s)
}
