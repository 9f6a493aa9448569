//! The file system: its files and its open devices. Devices are counted from the first file device.

ghost use Rattle.std.specs.Prelude.{◌≡◌, ◌+◌, [], IfOk, MatchOption, None, Some};
ghost use Rattle.reference_files.specs.Effects.{left};
ghost use Rattle.xinu_model.specs.Files.Systems as model;

use crate::stored::file_named;
use reference_state::{FileSystem, OpenFile};
use reference_tables::{copied, set};
use xinu_base::{NoMemory, SYSERR};

/// The answer of a call that was carried out and has nothing to tell.
pub(crate) const OK: i32 = 0;

/// What a call on files answers: its reply, and the bytes that go to RAM.
#[derive(Drop)]
pub struct FileAnswer {
    /// The reply.
    pub reply: i32,
    /// The bytes.
    pub bytes: Vec<u8>,
}

/// A call is answered that gives no bytes.
pub fn replies(reply: i32, s: &FileSystem) -> FileAnswer
    ensures replies { left s.now result ≡ model.replies reply s.now }
{
    FileAnswer {
        reply,
        bytes: Vec::new(*s.files.allocator()),
    }
}

/// A call is refused.
pub fn refused(s: &FileSystem) -> FileAnswer
    ensures refused { left s.now result ≡ model.refused_effect s.now }
{
    replies(SYSERR, s)
}

/// What a device has open.
pub fn open_at(s: &FileSystem, d: u32) -> Option<&OpenFile>
    ensures open { MatchOption result (model.open_at s.now d ≡ None) (λ f. model.open_at s.now d ≡ Some f.now) }
{
    match s.devices.get(d as usize) {
        None => None,
        Some(x) => x.as_ref(),
    }
}

/// A copy of what a device has open.
pub fn copy_at(s: &FileSystem, d: u32) -> Result<Option<OpenFile>, NoMemory>
    ensures open { IfOk result (λ f. f ≡ model.open_at s.now d) }
{
    match open_at(s, d) {
        None => Ok(None),
        Some(f) => Ok(Some(at_position(f, f.position)?)),
    }
}

// A copy of an open file, at another position.
fn at_position(f: &OpenFile, position: u32) -> Result<OpenFile, NoMemory>
    ensures moved { IfOk result (λ x. x ≡ record f.now { position = position }) }
{
    Ok(OpenFile {
        name: copied(&f.name)?,
        position,
        may_read: f.may_read,
        may_write: f.may_write,
    })
}

/// Whether the file of a name is open.
pub fn is_open(s: &FileSystem, name: &[u8]) -> bool
    ensures open { result ≡ model.is_open name.now s.now }
{
    for x in &s.devices {
        if has_open(x, name) {
            return true;
        }
    }
    false
}

// Whether a device has the file of a name open.
fn has_open(x: &Option<OpenFile>, name: &[u8]) -> bool
    ensures open { result ≡ model.has_open name.now x.now }
{
    match x {
        None => false,
        Some(f) => f.name.as_slice() == name,
    }
}

/// The lowest device that has nothing open.
pub fn free_device(s: &FileSystem) -> usize
    ensures free { result ≡ model.free_device s.now.devices }
{
    let mut d = 0usize;
    for x in &s.devices {
        if x.is_none() {
            return d;
        }
        d += 1;
    }
    d
}

/// The bytes of the file that a device has open.
pub fn open_bytes<'a>(s: &'a FileSystem, f: &OpenFile) -> &'a [u8]
    ensures bytes { result.now ≡ model.open_bytes f.now s.now }
{
    match file_named(&s.files, &f.name) {
        None => &[],
        Some(file) => file.bytes.as_slice(),
    }
}

/// A device has this open.
pub fn set_device(s: &mut FileSystem, d: u32, x: Option<OpenFile>)
    ensures device { s.new ≡ model.with_device d x s.old }
{
    set(&mut s.devices, d as usize, x);
}

/// A device is at another position of its file.
pub fn move_device(s: &mut FileSystem, d: u32, f: &OpenFile, position: u32) -> Result<(), NoMemory>
    ensures moved { IfOk result (λ _. s.new ≡ model.moved d f.now position s.old) }
{
    let x = at_position(f, position)?;
    set_device(s, d, Some(x));
    Ok(())
}
