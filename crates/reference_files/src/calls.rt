//! The ten calls on files, and the effect of each (book, chapter 19).

ghost use Rattle.std.specs.Prelude.{◌≡◌, ◌≤◌, IfOk, length};
ghost use Rattle.reference_files.specs.Effects.{left};
ghost use Rattle.reference_files.specs.Sizes.{IsSmall};
ghost use Rattle.reference_state.specs.FileCalls.{file_call_of};
ghost use Rattle.xinu_model.specs.Files.Calls as model;

use crate::opening::{close_file, delete_file, open_file};
use crate::reading::{getc_file, read_file, seek_file, size_of_file};
use crate::systems::FileAnswer;
use crate::writing::{putc_file, truncate_file, write_file};
use reference_state::{FileCall, FileSystem};
use xinu_base::NoMemory;

/// The effect of a call, of which these are the bytes if it writes.
pub fn file_effect(
    s: &mut FileSystem,
    call: &FileCall,
    bytes: &[u8],
) -> Result<FileAnswer, NoMemory>
    requires small { IsSmall s.old }
    requires few { length bytes.now ≤ 1048576 }
    ensures effect { IfOk result (λ x. left s.new x ≡ model.file_effect (file_call_of call.now) bytes.now s.old) }
{
    match call {
        FileCall::Open(name, mode) => open_file(s, &name.bytes, *mode),
        FileCall::Delete(name) => Ok(delete_file(s, &name.bytes)),
        FileCall::Close(d) => Ok(close_file(s, *d)),
        FileCall::Read(d, n) => read_file(s, *d, *n),
        FileCall::Write(d, _) => write_file(s, *d, bytes),
        FileCall::Getc(d) => getc_file(s, *d),
        FileCall::Putc(d, b) => putc_file(s, *d, *b),
        FileCall::Seek(d, n) => seek_file(s, *d, *n),
        FileCall::Truncate(d) => truncate_file(s, *d),
        FileCall::Size(d) => Ok(size_of_file(s, *d)),
    }
}
