//! How long a call on files may take: after so many good completions it takes effect at the latest.

ghost use Rattle.std.specs.Prelude.{◌≡◌, length};
ghost use Rattle.reference_state.specs.FileCalls.{file_call_of};
ghost use Rattle.xinu_model.specs.Files.Stored as stored;
ghost use Rattle.xinu_model.specs.Files.Systems as systems;
ghost use Rattle.xinu_model.specs.Files.Work as model;

use crate::room::{data_blocks, index_blocks};
use crate::stored::file_named;
use crate::systems::{open_at, open_bytes};
use reference_state::{FileCall, FileSystem, FileWork};

// How many bytes a call takes or puts.
fn byte_count(call: &FileCall) -> u32
    ensures count { result ≡ model.byte_count (file_call_of call.now) }
{
    match call {
        FileCall::Read(_, n) | FileCall::Write(_, n) => *n,
        FileCall::Getc(_) | FileCall::Putc(_, _) => 1,
        _ => 0,
    }
}

// The size of the file of a name.
fn size_named(s: &FileSystem, name: &[u8]) -> usize
    ensures size { result ≡ length (stored.bytes_in (stored.file_named name.now s.now.files)) }
{
    match file_named(&s.files, name) {
        None => 0,
        Some(file) => file.bytes.len(),
    }
}

// The size of the file that a device has open.
fn size_at(s: &FileSystem, d: u32) -> usize
    ensures size { result ≡ model.size_at (systems.open_at s.now d) s.now }
{
    match open_at(s, d) {
        None => 0,
        Some(f) => open_bytes(s, f).len(),
    }
}

// The size of the file that a call names or has open.
fn size_for(call: &FileCall, s: &FileSystem) -> usize
    ensures size { result ≡ model.size_for (file_call_of call.now) s.now }
{
    match call {
        FileCall::Open(name, _) => size_named(s, &name.bytes),
        FileCall::Delete(name) => size_named(s, &name.bytes),
        FileCall::Close(d) => size_at(s, *d),
        FileCall::Read(d, _) => size_at(s, *d),
        FileCall::Write(d, _) => size_at(s, *d),
        FileCall::Getc(d) => size_at(s, *d),
        FileCall::Putc(d, _) => size_at(s, *d),
        FileCall::Seek(d, _) => size_at(s, *d),
        FileCall::Truncate(d) => size_at(s, *d),
        FileCall::Size(d) => size_at(s, *d),
    }
}

/// The bound: a call that is the first takes effect after at most this many good completions.
pub fn most_turns(call: &FileCall, s: &FileSystem) -> usize
    ensures most { result ≡ model.most_turns (file_call_of call.now) s.now }
{
    let size = size_for(call, s);
    let count = byte_count(call) as usize;
    32 + 8 * (data_blocks(size) + index_blocks(size) + data_blocks(count))
}

/// How many of the calls have to take effect at a good completion: one if it would be the last turn of the first, else none.
pub fn least_effects(w: &FileWork) -> usize
    ensures least { result ≡ model.least_effects w.now.calls w.now }
{
    match w.calls.first() {
        None => 0,
        Some(a) => {
            let is_last = w.turns as usize + 1 >= most_turns(&a.call, &w.system);
            usize::from(is_last)
        }
    }
}
