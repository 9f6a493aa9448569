//! Reading a file, and its position and size (book, chapter 19, `lflread.c`, `lflgetc.c`, `lflseek.c`, `lflcontrol.c`).

ghost use Rattle.std.specs.Prelude.{◌≡◌, ◌≤◌, IfOk, length};
ghost use Rattle.reference_files.specs.Effects.{left};
ghost use Rattle.reference_files.specs.Sizes.{IsSmall};
ghost use Rattle.xinu_model.specs.Files.Reading as model;
ghost use Rattle.xinu_model.specs.Files.Systems as systems;

use crate::systems::{FileAnswer, OK, copy_at, move_device, open_at, open_bytes, refused, replies};
use reference_state::{FileSystem, OpenFile};
use reference_tables::append;
use xinu_base::{EOF, NoMemory};

/// `read`: as many of n bytes as there are; the end of the file is told only to who asks for bytes.
pub fn read_file(s: &mut FileSystem, d: u32, n: u32) -> Result<FileAnswer, NoMemory>
    requires small { IsSmall s.old }
    ensures read { IfOk result (λ x. left s.new x ≡ systems.on_open (systems.open_at s.old d) (λ f. model.read_file d n f s.old) s.old) }
{
    let Some(f) = copy_at(s, d)? else {
        return Ok(refused(s));
    };
    if !f.may_read {
        return Ok(refused(s));
    }
    if n == 0 {
        return Ok(replies(OK, s));
    }
    if open_bytes(s, &f).len() <= f.position as usize {
        return Ok(replies(EOF, s));
    }
    taken(s, d, n, &f)
}

// The bytes from the position on, at most n, are read.
fn taken(s: &mut FileSystem, d: u32, n: u32, f: &OpenFile) -> Result<FileAnswer, NoMemory>
    requires small { length (systems.open_bytes f.now s.old) ≤ 2147483647 }
    requires place { f.now.position ≤ length (systems.open_bytes f.now s.old) }
    ensures taken { IfOk result (λ x. left s.new x ≡ model.taken (model.bytes_ahead n f.now s.old) d f.now s.old) }
{
    let mut bytes = Vec::new(*s.files.allocator());
    let ahead = bytes_ahead(s, f, n);
    append(&mut bytes, ahead)?;
    let read = bytes.len() as u32;
    move_device(s, d, f, f.position + read)?;
    Ok(FileAnswer {
        reply: read as i32,
        bytes,
    })
}

// The bytes from the position on, at most n.
fn bytes_ahead<'a>(s: &'a FileSystem, f: &OpenFile, n: u32) -> &'a [u8]
    requires place { f.now.position ≤ length (systems.open_bytes f.now s.now) }
    ensures ahead { result.now ≡ model.bytes_ahead n f.now s.now }
{
    let (_, ahead) = open_bytes(s, f).split_at(f.position as usize);
    &ahead[..ahead.len().min(n as usize)]
}

/// `getc`: one byte.
pub fn getc_file(s: &mut FileSystem, d: u32) -> Result<FileAnswer, NoMemory>
    requires small { IsSmall s.old }
    ensures read { IfOk result (λ x. left s.new x ≡ systems.on_open (systems.open_at s.old d) (λ f. model.getc_file d f s.old) s.old) }
{
    let Some(f) = copy_at(s, d)? else {
        return Ok(refused(s));
    };
    if !f.may_read {
        return Ok(refused(s));
    }
    match bytes_ahead(s, &f, 1).first() {
        None => Ok(replies(EOF, s)),
        Some(b) => {
            let b = *b;
            move_device(s, d, &f, f.position + 1)?;
            Ok(replies(i32::from(b), s))
        }
    }
}

/// `seek`: a position up to the end.
pub fn seek_file(s: &mut FileSystem, d: u32, n: i32) -> Result<FileAnswer, NoMemory>
    ensures sought { IfOk result (λ x. left s.new x ≡ systems.on_open (systems.open_at s.old d) (λ f. model.seek_file d n f s.old) s.old) }
{
    let Some(f) = copy_at(s, d)? else {
        return Ok(refused(s));
    };
    if n < 0 || open_bytes(s, &f).len() < n as usize {
        return Ok(refused(s));
    }
    move_device(s, d, &f, n as u32)?;
    Ok(replies(OK, s))
}

/// A file device's `control` that tells the size.
pub fn size_of_file(s: &FileSystem, d: u32) -> FileAnswer
    requires small { IsSmall s.now }
    ensures size { left s.now result ≡ systems.on_open (systems.open_at s.now d) (λ f. model.size_of_file f s.now) s.now }
{
    match open_at(s, d) {
        None => refused(s),
        Some(f) => replies(open_bytes(s, f).len() as i32, s),
    }
}
