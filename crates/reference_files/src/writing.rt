//! Writing and emptying a file (book, chapter 19, `lflwrite.c`, `lflputc.c`, `lftruncate.c`).

ghost use Rattle.std.specs.Prelude.{◌≡◌, ◌+◌, ◌≤◌, [], IfOk, length};
ghost use Rattle.reference_files.specs.Effects.{left};
ghost use Rattle.reference_files.specs.Sizes.{IsSmall};
ghost use Rattle.xinu_model.specs.Files.Systems as systems;
ghost use Rattle.xinu_model.specs.Files.Writing as model;

use crate::room::{fitting, have_room};
use crate::stored::with_contents;
use crate::systems::{FileAnswer, OK, copy_at, move_device, open_bytes, refused, replies};
use reference_state::{FileSystem, OpenFile};
use reference_tables::append;
use xinu_base::NoMemory;

// Bytes with others in their place from a position on.
fn overwritten(s: &FileSystem, position: u32, new: &[u8], old: &[u8]) -> Result<Vec<u8>, NoMemory>
    requires few { length new.now ≤ 1048576 }
    ensures overwritten { IfOk result (λ l. l.items ≡ model.overwritten position new.now old.now) }
{
    let start = position as usize;
    let end = start + new.len();
    let mut bytes = Vec::new(*s.files.allocator());
    append(&mut bytes, &old[..start.min(old.len())])?;
    append(&mut bytes, new)?;
    append(&mut bytes, &old[end.min(old.len())..])?;
    Ok(bytes)
}

// These bytes are put at the position of an open file, which moves to their end.
fn put_bytes(s: &mut FileSystem, d: u32, new: &[u8], f: &OpenFile) -> Result<(), NoMemory>
    requires few { length new.now ≤ 1048576 }
    requires small { f.now.position ≤ 2147483647 }
    ensures put { IfOk result (λ _. s.new ≡ model.put_bytes new.now d f.now s.old) }
{
    let all = overwritten(s, f.position, new, open_bytes(s, f))?;
    move_device(s, d, f, f.position + new.len() as u32)?;
    with_contents(&mut s.files, &f.name, &all)
}

/// `write`: as many of the bytes as there is room for; refused if there are some, and room for none.
pub fn write_file(s: &mut FileSystem, d: u32, bytes: &[u8]) -> Result<FileAnswer, NoMemory>
    requires small { IsSmall s.old }
    requires few { length bytes.now ≤ 1048576 }
    ensures written { IfOk result (λ x. left s.new x ≡ systems.on_open (systems.open_at s.old d) (λ f. model.write_file d bytes.now f s.old) s.old) }
{
    let Some(f) = copy_at(s, d)? else {
        return Ok(refused(s));
    };
    let k = fitting(s, &f, bytes, open_bytes(s, &f).len());
    if !f.may_write || (!bytes.is_empty() && k == 0) {
        return Ok(refused(s));
    }
    let (new, _) = bytes.split_at(k);
    put_bytes(s, d, new, &f)?;
    Ok(replies(k as i32, s))
}

/// `putc`: one byte.
pub fn putc_file(s: &mut FileSystem, d: u32, b: u8) -> Result<FileAnswer, NoMemory>
    requires small { IsSmall s.old }
    ensures put { IfOk result (λ x. left s.new x ≡ systems.on_open (systems.open_at s.old d) (λ f. model.putc_file d b f s.old) s.old) }
{
    let Some(f) = copy_at(s, d)? else {
        return Ok(refused(s));
    };
    if !f.may_write || !have_room(s, &f, &[b], open_bytes(s, &f).len()) {
        return Ok(refused(s));
    }
    put_bytes(s, d, &[b], &f)?;
    Ok(replies(OK, s))
}

/// A file device's `control` that empties the file.
pub fn truncate_file(s: &mut FileSystem, d: u32) -> Result<FileAnswer, NoMemory>
    ensures emptied { IfOk result (λ x. left s.new x ≡ systems.on_open (systems.open_at s.old d) (λ f. model.truncate_file d f s.old) s.old) }
{
    let Some(f) = copy_at(s, d)? else {
        return Ok(refused(s));
    };
    if !f.may_write {
        return Ok(refused(s));
    }
    move_device(s, d, &f, 0)?;
    with_contents(&mut s.files, &f.name, &[])?;
    Ok(replies(OK, s))
}
