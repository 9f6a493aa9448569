//! Calls on files as processes make them, and the good completions of their disk (book, chapter 19, `lflread.c`, `lflwrite.c`,
//! `lflcontrol.c`).
//!
//! A call that needs no block takes effect as it is made, if none is before it. Any other caller waits until its call takes effect; the
//! reply is kept for it, and it goes on with that by itself.

ghost use Rattle.std.specs.Prelude.{◌≡◌, IfSome, map, option_map};
ghost use Rattle.file_server.specs.Requests.{call_with, note_of};
ghost use Rattle.io_calls.specs.Files.{AreTold, AsksFiles, bytes_asked, CompletesFiles, WaitsFor};
ghost use Rattle.kernel_state.specs.Beginnings.{BeginsAs, next_of};
ghost use Rattle.kernel_state.specs.Results.{came_to, IsStart};
ghost use Rattle.local_files.specs.Hands.{IsCall};
ghost use Rattle.local_files.specs.Resting.{ServesDisk};
ghost use Rattle.xinu_model.specs.Devices.Calls.{named_control};
ghost use Rattle.xinu_model.specs.Devices.Texts.{text_at};
ghost use Rattle.xinu_model.specs.Files.Issue.{file_control_call, read_call, write_call};
ghost use Rattle.xinu_model.specs.Files.Sound.{InRam};
ghost use Rattle.xinu_model.specs.Files.Syscalls as model;
ghost use Rattle.xinu_model.specs.Files.Syscalls.{files_of};
ghost use Rattle.xinu_model.specs.Machine.{Silent};
ghost use Rattle.xinu_model.specs.Sound.Disks.{IsFileDisk};
ghost use Rattle.xinu_model.specs.Sound.Tables.{IsSoundTables};

use crate::file_texts::system_control_call;
use crate::texts::text_at;
use file_server::{FileNote, FileNotes, FileRequest};
use kernel_state::{Begun, KernelState};
use local_files::{FileCall, FileDev};
use rv_hart::Ram;
use xinu_base::{Next, RAM_SIZE, Rest, SYSERR, Sem};

// The control function of a file device that empties its file.
const LF_CTL_TRUNC: u32 = 1;

// The one that tells the size of its file.
const LF_CTL_SIZE: u32 = 2;

/// `read`: n bytes of a file to an address. Refused as it is made if n is negative or the range isn't in RAM.
pub(crate) fn file_read(k: &mut KernelState, d: FileDev, at: u32, n: i32) -> Begun
    requires asks { AsksFiles k.old.call }
    ensures read { BeginsAs result (model.asks_files (read_call d at n) at k.old.call.state) k.old.call.state (came_to k.new.call (next_of result)) }
    ensures image { k.new.image ≡ k.old.image }
{
    match bytes_asked(at, n) {
        Some(count) => ask_at(k, FileCall::Read(d, count), 0, at),
        None => Begun::ByRow(Next::Returns(SYSERR)),
    }
}

/// `write`: n bytes from an address to a file. Refused as it is made, as `read`.
pub(crate) fn file_write(k: &mut KernelState, d: FileDev, at: u32, n: i32) -> Begun
    requires asks { AsksFiles k.old.call }
    ensures write { BeginsAs result (model.asks_files (write_call d at n) at k.old.call.state) k.old.call.state (came_to k.new.call (next_of result)) }
    ensures image { k.new.image ≡ k.old.image }
{
    match bytes_asked(at, n) {
        Some(count) => ask_at(k, FileCall::Write(d), count, at),
        None => Begun::ByRow(Next::Returns(SYSERR)),
    }
}

/// `control` of a file device. Refused as it is made if there is no such function.
pub(crate) fn file_control(k: &mut KernelState, d: FileDev, f: u32) -> Begun
    requires asks { AsksFiles k.old.call }
    ensures control { BeginsAs result (model.asks_files (file_control_call d f) 0 k.old.call.state) k.old.call.state (came_to k.new.call (next_of result)) }
    ensures image { k.new.image ≡ k.old.image }
{
    match f {
        LF_CTL_TRUNC => ask(k, FileCall::Truncate(d)),
        LF_CTL_SIZE => ask(k, FileCall::Size(d)),
        _ => Begun::ByRow(Next::Returns(SYSERR)),
    }
}

/// `control` of the file system, with the address of a text. Refused as it is made if there is no such function, or no text that can be the
/// name of a file.
pub(crate) fn system_control(k: &mut KernelState, f: u32, x: u32) -> Begun
    requires asks { AsksFiles k.old.call }
    ensures control { BeginsAs result (model.asks_files (named_control f (text_at x k.old.call.state.memory)) 0 k.old.call.state) k.old.call.state (came_to k.new.call (next_of result)) }
    ensures image { k.new.image ≡ k.old.image }
{
    match named_control(&k.ram, f, x) {
        Some(call) => ask(k, call),
        None => Begun::ByRow(Next::Returns(SYSERR)),
    }
}

// The call that `control` of the file system makes, with the text at an address.
fn named_control(ram: &Ram, f: u32, x: u32) -> Option<FileCall>
    ensures call { option_map (λ call. call_with call 0) result ≡ named_control f (text_at x ram.now) }
    ensures can { IfSome result (λ call. IsCall call) }
{
    let name = text_at(ram, x)?;
    system_control_call(f, name)
}

/// A call that can be made and has no bytes in RAM. It takes effect as it is made, or its caller waits.
pub(crate) fn ask(k: &mut KernelState, call: FileCall) -> Begun
    requires asks { AsksFiles k.old.call }
    requires call { IsCall call }
    ensures asks { BeginsAs result (model.awaits_files (call_with call 0) 0 k.old.call.state) k.old.call.state (came_to k.new.call (next_of result)) }
    ensures image { k.new.image ≡ k.old.image }
{
    ask_at(k, call, 0, 0)
}

// A call that can be made, with the address of its bytes and how many it writes. It takes effect as it is made, or its caller waits.
fn ask_at(k: &mut KernelState, call: FileCall, count: u32, at: u32) -> Begun
    requires asks { AsksFiles k.old.call }
    requires call { IsCall call }
    requires range { InRam (call_with call count) at }
    ensures asks { BeginsAs result (model.awaits_files (call_with call count) at k.old.call.state) k.old.call.state (came_to k.new.call (next_of result)) }
    ensures image { k.new.image ≡ k.old.image }
{
    let caller = Some(k.tables.current());
    let request = FileRequest {
        caller,
        call,
        count,
        at,
    };
    if let Some(reply) = k.files.issue(request, &mut k.ram) {
        return Begun::AtOnce(reply);
    }
    k.tables.wait(files_sem(), Rest::Disk(None));
    Begun::ByRow(Next::Waits)
}

// How many bytes a read or a write asks for. `None` if and only if n is negative or the range isn't in RAM.
fn bytes_asked(at: u32, n: i32) -> Option<u32>
    ensures asked { result ≡ bytes_asked at n }
{
    if n < 0 {
        return None;
    }
    let count = n as u32;
    if count > RAM_SIZE || at > RAM_SIZE - count {
        return None;
    }
    Some(count)
}

/// The files' disk completes well: the first call takes effect and some after it, as many as the abstract machine allows, or it has a turn.
/// The living callers of those that took effect become ready with their replies. Tells what happened, in order; nothing happens if no call
/// is under way. At most one block of the disk changes, and none if no call is under way or the first will be refused or writes no file.
///
/// Tables and files are sound, and nothing was done yet in this event.
pub fn on_files(k: &mut KernelState) -> FileNotes
    requires start { IsStart k.old.call }
    requires sound { IsSoundTables k.old.call.state.tables }
    requires files { IsFileDisk k.old.call.state.tables (files_of k.old.call.state) }
    ensures completes { CompletesFiles k.old.call.state (map note_of result.items) (record { call = k.new.call; answer = Silent }) }
    ensures image { ServesDisk (files_of k.old.call.state) k.old.image k.new.image }
{
    if !k.files.are_calls() {
        return FileNotes::new();
    }
    let notes = k.files.complete(&mut k.ram);
    tell_all(k, notes.as_slice());
    notes
}

// The living callers of the calls that took effect become ready with their replies.
fn tell_all(k: &mut KernelState, notes: &[FileNote])
    requires callers { AreTold (map note_of notes.now) k.old.call.state.tables }
    ensures told { k.new.call ≡ model.all_told (map note_of notes.now) k.old.call }
    ensures image { k.new.image ≡ k.old.image }
{
    for note in notes {
        tell(k, *note);
    }
}

// The caller of a call that took effect, if it lives, becomes ready with its reply.
fn tell(k: &mut KernelState, note: FileNote)
    requires waits { WaitsFor note.reply note.caller k.old.call.state.tables }
    ensures told { k.new.call ≡ model.told note.reply note.caller k.old.call }
    ensures image { k.new.image ≡ k.old.image }
{
    let (Some(reply), Some(p)) = (note.reply, note.caller) else {
        return;
    };
    k.tables.keep_reply(p, reply);
    k.owes_resched = true;
}

// The semaphore on which the callers of files wait.
fn files_sem() -> Sem
    ensures files { result ≡ model.LF_SEM }
{
    Sem::at(3)
}
