//! A call becomes the first: it takes effect at once, or waits for a block. So do the calls after it, one after another.

ghost use Rattle.arrayvec.specs.ArrayVec.{array_vec_len};
ghost use Rattle.file_server.specs.Requests.{AreRequests, call_with, note_of, request_of};
ghost use Rattle.file_server.specs.Starts.{HasBegun, TookEffect, WentOn, about_to};
ghost use Rattle.file_server.specs.Servers.{FirstIsHeld, work_of};
ghost use Rattle.std.specs.Prelude.{◌≡◌, ◌<◌, ◌≤◌, ◌+◌, ◌++◌, [], ◌∷◌, Some, None, false, true, if◌then◌else◌, length, map};
ghost use Rattle.xinu_base.specs.declared.lines.FileMoment.TheVariants.{Next};
ghost use Rattle.xinu_model.specs.Files.Sound.{InRam};
ghost use Rattle.xinu_model.specs.Files.Work.{FileStep, bytes_written, copied, took_effect};
ghost use Rattle.xinu_model.specs.Memory.{in_ram};

use crate::file_disk::FileDisk;
use crate::requests::{FileNote, FileNotes, FileRequest, Requests};
use local_files::FileCall;
use rv_hart::Ram;
use xinu_base::{FileMoment, Pid};

// The bytes of a write in RAM; none if the call isn't one.
pub(crate) fn bytes_of<'a>(r: &FileRequest, ram: &'a Ram) -> &'a [u8]
    requires range { InRam (call_with r.now.call r.now.count) r.now.at }
    ensures bytes { result.now ≡ bytes_written (call_with r.now.call r.now.count) r.now.at ram.now }
    ensures few { length result.now ≤ 1048576 }
{
    if let FileCall::Write(_) = r.call {
        if let Ok(bytes) = ram.copy_out(r.at, r.count as usize) {
            return bytes;
        }
    }
    &[]
}

// The bytes that a call has given go to RAM, if its caller lives and they have room there.
pub(crate) fn hand_over(ram: &mut Ram, caller: Option<Pid>, at: u32, bytes: &[u8])
    ensures memory { ram.new ≡ (if in_ram at (length bytes.now) then copied caller at bytes.now ram.old else ram.old) }
{
    if caller.is_some() {
        let _copied = ram.copy_in(at, bytes);
    }
}

// The first call took effect, with this reply: its bytes go to RAM, it is noted, and it is under way no more.
pub(crate) fn take_effect(
    r: &FileRequest,
    disk: &FileDisk,
    ram: &mut Ram,
    notes: &mut FileNotes,
    moment: FileMoment,
    reply: i32,
)
    requires room { array_vec_len notes.old < 64 }
    ensures memory { ram.new ≡ (if in_ram r.now.at (length disk.now.given) then copied r.now.caller r.now.at disk.now.given ram.old else ram.old) }
    ensures notes { map note_of notes.new.items ≡ map note_of notes.old.items ++ took_effect (request_of r.now) moment reply ∷ [] }
    ensures more { array_vec_len notes.new ≡ array_vec_len notes.old + 1 }
{
    hand_over(ram, r.caller, r.at, disk.given());
    notes.push(FileNote {
        caller: r.caller,
        moment,
        reply: Some(reply),
    });
}

// Begins the first of the calls, if there is one. `true` if it took effect, and is under way no more; else it waits, or there is none.
pub(crate) fn begin_first(
    disk: &mut FileDisk,
    requests: &mut Requests,
    ram: &mut Ram,
    notes: &mut FileNotes,
    moment: FileMoment,
) -> bool
    requires idle { disk.old.hand ≡ None }
    requires calls { AreRequests requests.old.items }
    requires room { array_vec_len notes.old + array_vec_len requests.old ≤ 64 }
    ensures effect { result ≡ true → TookEffect moment (about_to disk.old requests.old.items ram.old notes.old.items)
        (about_to disk.new requests.new.items ram.new notes.new.items) }
    ensures idle { result ≡ true → disk.new.hand ≡ None }
    ensures shorter { result ≡ true → array_vec_len requests.new + 1 ≡ array_vec_len requests.old }
    ensures room { array_vec_len notes.new + array_vec_len requests.new ≤ 64 }
    ensures begun { result ≡ false → HasBegun disk.old disk.new requests.old.items ram.old }
    ensures requests { result ≡ false → requests.new ≡ requests.old }
    ensures memory { result ≡ false → ram.new ≡ ram.old }
    ensures notes { result ≡ false → notes.new ≡ notes.old }
    ensures calls { AreRequests requests.new.items }
    ensures image { disk.new.image ≡ disk.old.image }
{
    if requests.is_empty() {
        return false;
    }
    let first = requests.as_slice()[0];
    let Some(reply) = disk.begin(first.call, bytes_of(&first, ram)) else {
        return false;
    };
    take_effect(&first, disk, ram, notes, moment, reply);
    requests.pop_at(0);
    true
}

// Begins the first of the calls, and each after it, until one waits or none is left.
pub(crate) fn begin_next(
    disk: &mut FileDisk,
    requests: &mut Requests,
    ram: &mut Ram,
    notes: &mut FileNotes,
)
    requires idle { disk.old.hand ≡ None }
    requires calls { AreRequests requests.old.items }
    requires room { array_vec_len notes.old + array_vec_len requests.old ≤ 64 }
    ensures went { (let after : FileStep = record { work = work_of disk.new requests.new.items 0; memory = ram.new; notes = map note_of notes.new.items } in
        WentOn (about_to disk.old requests.old.items ram.old notes.old.items) after) }
    ensures first { FirstIsHeld disk.new.hand (map request_of requests.new.items) 0 disk.new.system }
    ensures calls { AreRequests requests.new.items }
    ensures image { disk.new.image ≡ disk.old.image }
{
    while begin_first(disk, requests, ram, notes, FileMoment::Next) {}
}
