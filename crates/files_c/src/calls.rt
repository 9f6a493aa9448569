//! The calls on files.

ghost use Rattle.std.specs.Prelude.{◌≡◌, ◌-◌, [], false, true, IfNone, IfSome, length};
ghost use Rattle.files_c.specs.Answers.{answered, answers_of, bytes_after, can_move, device_call, has_name, is_device, mode_of, named, on_device, others, reads, writes};
ghost use Rattle.files_c.specs.Spans.{is_span, span};
ghost use Rattle.lfs_check.specs.Rules.{is_name};
ghost use Rattle.lfs_layout.specs.Files.{bare_name};
ghost use Rattle.local_files.specs.Hands.{IsCall, system};
ghost use Rattle.local_files.specs.Standing.{Stands, call_of};
ghost use Rattle.xinu_model.specs.Files.Calls.{Delete, Open};

use crate::making::{make_plain, make_write};
use crate::spans::{is_span, put, span};
use local_files::{FileCall, FileDev, Files, Phase, file_name};
use xinu_base::OpenMode;

/// What is answered to a call that is refused.
const REFUSED: i64 = -1;

/// A call on files.
#[repr(C)]
#[derive(Clone, Copy)]
pub struct FilesCall {
    /// 0: the file whose name lies there is opened or made; the answer is the number of its device, from 4 to 9.
    /// 1: the file whose name lies there is deleted.
    /// 2: the device is closed.
    /// 3: so many bytes are read, and put there; the answer is how many were, or -2 at the end of the file.
    /// 4: the bytes that lie there are written; the answer is how many were.
    /// 5: a byte is read; the answer is the byte, or -2 at the end of the file.
    /// 6: the byte of that count is written.
    /// 7: the position becomes that count.
    /// 8: the file is emptied.
    /// 9: the answer is the size of the file.
    /// What can't be done is refused, and so is any other call: the answer is -1.
    pub kind: u32,
    /// The device; of a file that is opened the mode: 1 for reading, 2 for writing, 4 for an old file alone, 8 for a new one alone.
    pub number: u32,
    /// Where the name or the bytes begin, and how many there are.
    pub at: u32,
    pub count: u32,
}

/// Makes the calls one after another, and writes what each answers.
pub(crate) fn answer_all(
    files: &mut Files,
    disk: &mut [u8],
    calls: &[FilesCall],
    bytes: &mut [u8],
    answers: &mut [i64],
)
    requires idle { files.old.phase ≡ Phase.Idle }
    requires stands { Stands files.old disk.old disk.old }
    requires same { length answers.old ≡ length calls.now }
    ensures answers { answers.new ≡ answers_of (record { system = system files.old disk.old; bytes = bytes.old }) calls.now }
    ensures bytes { bytes.new ≡ bytes_after (record { system = system files.old disk.old; bytes = bytes.old }) calls.now }
{
    for k in 0..calls.len() {
        answers[k] = answer(files, disk, calls[k], bytes);
    }
}

// Makes a call.
fn answer(files: &mut Files, disk: &mut [u8], call: FilesCall, bytes: &mut [u8]) -> i64
    requires idle { files.old.phase ≡ Phase.Idle }
    requires stands { Stands files.old disk.old disk.old }
    ensures answer { result ≡ (answered (record { system = system files.old disk.old; bytes = bytes.old }) call).answer }
    ensures held { record { system = system files.new disk.new; bytes = bytes.new } ≡ (answered (record { system = system files.old disk.old; bytes = bytes.old }) call).held }
    ensures stands { Stands files.new disk.new disk.new }
    ensures idle { files.new.phase ≡ Phase.Idle }
{
    if call.kind == 0 {
        return open(files, disk, call, bytes);
    }
    if call.kind == 1 {
        return delete(files, disk, call, bytes);
    }
    if call.kind == 3 {
        return read(files, disk, call, bytes);
    }
    if call.kind == 4 {
        return write(files, disk, call, bytes);
    }
    other(files, disk, call, bytes)
}

// Opens the file of a name, or makes it.
fn open(files: &mut Files, disk: &mut [u8], call: FilesCall, bytes: &[u8]) -> i64
    requires idle { files.old.phase ≡ Phase.Idle }
    requires stands { Stands files.old disk.old disk.old }
    ensures answer { result ≡ (named (Open (span bytes.now call.at call.count) (mode_of call.number)) call (record { system = system files.old disk.old; bytes = bytes.now })).answer }
    ensures held { record { system = system files.new disk.new; bytes = bytes.now } ≡ (named (Open (span bytes.now call.at call.count) (mode_of call.number)) call (record { system = system files.old disk.old; bytes = bytes.now })).held }
    ensures stands { Stands files.new disk.new disk.new }
    ensures idle { files.new.phase ≡ Phase.Idle }
{
    match name_in(bytes, call) {
        Some(name) => make_plain(files, disk, FileCall::Open(name, mode_of(call.number))) as i64,
        None => REFUSED,
    }
}

// Deletes the file of a name.
fn delete(files: &mut Files, disk: &mut [u8], call: FilesCall, bytes: &[u8]) -> i64
    requires idle { files.old.phase ≡ Phase.Idle }
    requires stands { Stands files.old disk.old disk.old }
    ensures answer { result ≡ (named (Delete (span bytes.now call.at call.count)) call (record { system = system files.old disk.old; bytes = bytes.now })).answer }
    ensures held { record { system = system files.new disk.new; bytes = bytes.now } ≡ (named (Delete (span bytes.now call.at call.count)) call (record { system = system files.old disk.old; bytes = bytes.now })).held }
    ensures stands { Stands files.new disk.new disk.new }
    ensures idle { files.new.phase ≡ Phase.Idle }
{
    match name_in(bytes, call) {
        Some(name) => make_plain(files, disk, FileCall::Delete(name)) as i64,
        None => REFUSED,
    }
}

// Reads bytes, and puts them where the call says.
fn read(files: &mut Files, disk: &mut [u8], call: FilesCall, bytes: &mut [u8]) -> i64
    requires idle { files.old.phase ≡ Phase.Idle }
    requires stands { Stands files.old disk.old disk.old }
    ensures answer { result ≡ (reads call (record { system = system files.old disk.old; bytes = bytes.old })).answer }
    ensures held { record { system = system files.new disk.new; bytes = bytes.new } ≡ (reads call (record { system = system files.old disk.old; bytes = bytes.old })).held }
    ensures stands { Stands files.new disk.new disk.new }
    ensures idle { files.new.phase ≡ Phase.Idle }
{
    if !can_move(call, bytes) {
        return REFUSED;
    }
    let reply = make_plain(files, disk, FileCall::Read(device(call.number), call.count));
    put(bytes, call.at, files.gathered());
    reply as i64
}

// Writes the bytes that are where the call says.
fn write(files: &mut Files, disk: &mut [u8], call: FilesCall, bytes: &[u8]) -> i64
    requires idle { files.old.phase ≡ Phase.Idle }
    requires stands { Stands files.old disk.old disk.old }
    ensures answer { result ≡ (writes call (record { system = system files.old disk.old; bytes = bytes.now })).answer }
    ensures held { record { system = system files.new disk.new; bytes = bytes.now } ≡ (writes call (record { system = system files.old disk.old; bytes = bytes.now })).held }
    ensures stands { Stands files.new disk.new disk.new }
    ensures idle { files.new.phase ≡ Phase.Idle }
{
    if !can_move(call, bytes) {
        return REFUSED;
    }
    let given = span(bytes, call.at, call.count);
    make_write(files, disk, device(call.number), given) as i64
}

// Makes a call on a device that takes no bytes.
fn work_on(files: &mut Files, disk: &mut [u8], call: FilesCall, bytes: &[u8]) -> i64
    requires idle { files.old.phase ≡ Phase.Idle }
    requires stands { Stands files.old disk.old disk.old }
    ensures answer { result ≡ (on_device call (record { system = system files.old disk.old; bytes = bytes.now })).answer }
    ensures held { record { system = system files.new disk.new; bytes = bytes.now } ≡ (on_device call (record { system = system files.old disk.old; bytes = bytes.now })).held }
    ensures stands { Stands files.new disk.new disk.new }
    ensures idle { files.new.phase ≡ Phase.Idle }
{
    if !is_device(call.number) {
        return REFUSED;
    }
    let asked = device_call(call.kind, device(call.number), call.count);
    make_plain(files, disk, asked) as i64
}

// Makes a call of any other kind.
fn other(files: &mut Files, disk: &mut [u8], call: FilesCall, bytes: &[u8]) -> i64
    requires idle { files.old.phase ≡ Phase.Idle }
    requires stands { Stands files.old disk.old disk.old }
    ensures answer { result ≡ (others call (record { system = system files.old disk.old; bytes = bytes.now })).answer }
    ensures held { record { system = system files.new disk.new; bytes = bytes.now } ≡ (others call (record { system = system files.old disk.old; bytes = bytes.now })).held }
    ensures stands { Stands files.new disk.new disk.new }
    ensures idle { files.new.phase ≡ Phase.Idle }
{
    if call.kind > 9 {
        return REFUSED;
    }
    work_on(files, disk, call, bytes)
}

// The name that lies where a call says.
fn name_in(bytes: &[u8], call: FilesCall) -> Option<[u8; 28]>
    ensures there { IfSome result (λ _. has_name call bytes.now ≡ true) }
    ensures bare { IfSome result (λ name. bare_name name ≡ span bytes.now call.at call.count) }
    ensures name { IfSome result (λ name. is_name 27 name ≡ true) }
    ensures len { IfSome result (λ name. length name ≡ 28) }
    ensures none { IfNone result (has_name call bytes.now ≡ false) }
{
    if !is_span(bytes, call.at, call.count) {
        return None;
    }
    file_name(span(bytes, call.at, call.count))
}

// The call on a device of a kind that takes no bytes.
fn device_call(kind: u32, d: FileDev, n: u32) -> FileCall
    ensures call { call_of result [] ≡ device_call kind d n }
    ensures can { IsCall result }
{
    match kind {
        2 => FileCall::Close(d),
        5 => FileCall::Getc(d),
        6 => FileCall::Putc(d, (n % 256) as u8),
        7 => FileCall::Seek(d, n.min(2_147_483_647) as i32),
        8 => FileCall::Truncate(d),
        _ => FileCall::Size(d),
    }
}

// Whether bytes can be read or written.
fn can_move(call: FilesCall, bytes: &[u8]) -> bool
    ensures can { result ≡ can_move call bytes.now }
{
    is_device(call.number) && is_span(bytes, call.at, call.count) && call.count <= 1_048_576
}

// Whether there is a device of a number.
fn is_device(number: u32) -> bool
    ensures device { result ≡ is_device number }
{
    4 <= number && number < 10
}

// The device of a number.
fn device(number: u32) -> FileDev
    requires device { is_device number ≡ true }
    ensures device { result ≡ number - 4 }
{
    FileDev::at(number as usize - 4)
}

// The mode of a number.
fn mode_of(number: u32) -> OpenMode
    ensures mode { result ≡ mode_of number }
{
    OpenMode {
        read: number % 2 == 1,
        write: number / 2 % 2 == 1,
        only_old: number / 4 % 2 == 1,
        only_new: number / 8 % 2 == 1,
    }
}
