//! The raw disk as processes call it, and its completions (book, chapter 18, `rdsread.c`, `rdswrite.c`, `rdscontrol.c`, `rdsprocess.c`).
//!
//! A caller waits until its request is completed; the reply is kept for it, and it goes on with that by itself.

ghost use Rattle.std.specs.Prelude.{◌≡◌, ◌+◌, ◌≤◌, length, true};
ghost use Rattle.disk_driver.specs.Served.{bytes_read};
ghost use Rattle.io_calls.specs.Disks.{after_completing, AsksDisk};
ghost use Rattle.kernel_state.specs.Results.{came_to, IsStart};
ghost use Rattle.xinu_model.specs.Memory.{bytes_from, in_ram, ram_size, with_bytes};
ghost use Rattle.xinu_model.specs.RawDisk.Calls as model;
ghost use Rattle.xinu_model.specs.RawDisk.Calls.{disk_of};
ghost use Rattle.xinu_model.specs.RawDisk.Completions.{raw_completed};
ghost use Rattle.xinu_model.specs.Sound.Disks.{IsRawDisk};
ghost use Rattle.xinu_model.specs.Sound.Tables.{IsSoundTables};
ghost use Rattle.xinu_model.specs.Tables.{process_at, state_at};

use crate::console_tokens::byte_at;
use disk_driver::{Done, Request};
use kernel_state::KernelState;
use xinu_base::{Next, Pid, RAM_SIZE, Rest, SYSERR, Sem, State};

// The bytes of a block.
const RD_BLKSIZ: u32 = 512;

// The control function that answers how many blocks there are.
const RD_CTL_SIZE: u32 = 1;

/// `read`: a block to an address; its caller waits. Refused if there is no such block or it would leave RAM.
pub(crate) fn disk_read(k: &mut KernelState, at: u32, block: u32) -> Next
    requires asks { AsksDisk k.old.call }
    ensures read { came_to k.new.call result ≡ model.disk_read at block k.old.call.state }
    ensures image { k.new.image ≡ k.old.image }
{
    if !may_request(k, at, block) {
        return Next::Returns(SYSERR);
    }
    await_disk(k, at, block, None)
}

/// `write`: a block from an address, with the bytes that are there now; its caller waits. Refused as `read`.
pub(crate) fn disk_write(k: &mut KernelState, at: u32, block: u32) -> Next
    requires asks { AsksDisk k.old.call }
    ensures write { came_to k.new.call result ≡ model.disk_write at block k.old.call.state }
    ensures image { k.new.image ≡ k.old.image }
{
    if !may_request(k, at, block) {
        return Next::Returns(SYSERR);
    }
    let bytes = bytes_at(k, at);
    await_disk(k, at, block, Some(bytes))
}

/// `control`: how many blocks there are. Refused if there is no such function.
pub(crate) fn disk_control(k: &KernelState, f: u32) -> Next
    requires start { IsStart k.now.call }
    ensures control { came_to k.now.call result ≡ model.disk_control f k.now.call.state }
{
    if f == RD_CTL_SIZE {
        Next::Returns(k.disk.blocks() as i32)
    } else {
        Next::Returns(SYSERR)
    }
}

/// What is left of a call on a disk, the raw one or that with files, once it was served: the reply that was kept.
pub(crate) fn go_on_disk(k: &mut KernelState, reply: Option<i32>) -> Next
    requires asks { AsksDisk k.old.call }
    requires waits { (process_at k.old.call.state.tables k.old.call.state.tables.current).rest ≡ Rest.Disk reply }
    ensures goes_on { came_to k.new.call result ≡ model.go_on_disk reply k.old.call.state }
    ensures image { k.new.image ≡ k.old.image }
{
    let Some(reply) = reply else {
        return Next::Returns(SYSERR);
    };
    k.tables.go_on();
    Next::Returns(reply)
}

/// The disk completes its first request, well or badly. If the caller lives it becomes ready with its reply, and what was read goes to RAM.
/// Nothing changes if no request waits. Tables and disk are sound, and nothing was done yet in this event.
pub fn on_disk(k: &mut KernelState, good: bool)
    requires start { IsStart k.old.call }
    requires sound { IsSoundTables k.old.call.state.tables }
    requires disk { IsRawDisk k.old.call.state.tables (disk_of k.old.call.state) }
    ensures completes { k.new.call ≡ after_completing (raw_completed good (disk_of k.old.call.state)) k.old.call.state }
    ensures image { k.new.image ≡ k.old.image }
{
    let Some(done) = k.disk.complete(good) else {
        return;
    };
    let Some(p) = done.request.caller else {
        return;
    };
    answer_caller(k, p, &done);
}

// A request was served whose caller is p, which waits: what was read goes to RAM, and p becomes ready with its reply.
fn answer_caller(k: &mut KernelState, p: Pid, done: &Done)
    requires range { in_ram done.now.request.at 512 ≡ true }
    requires waits { state_at k.old.call.state.tables p ≡ State.Waiting }
    ensures answered { k.new.call ≡ model.keep_reply p done.now.reply (record k.old.call { state = record k.old.call.state { memory = with_bytes k.old.call.state.memory done.now.request.at (length (bytes_read done.now.read)) (bytes_read done.now.read) } }) }
    ensures image { k.new.image ≡ k.old.image }
{
    if let Some(bytes) = &done.read {
        let _ = k.ram.copy_in(done.request.at, bytes);
    }
    k.tables.keep_reply(p, done.reply);
    k.owes_resched = true;
}

// Whether there is a block, and the bytes of one at an address are in RAM.
fn may_request(k: &KernelState, at: u32, block: u32) -> bool
    ensures may { result ≡ model.may_request at block k.now.call.state }
{
    at <= RAM_SIZE - RD_BLKSIZ && block < k.disk.blocks()
}

// The caller makes a request, and waits until it is completed.
fn await_disk(k: &mut KernelState, at: u32, block: u32, written: Option<[u8; 512]>) -> Next
    requires asks { AsksDisk k.old.call }
    requires may { model.may_request at block k.old.call.state ≡ true }
    ensures waits { came_to k.new.call result ≡ model.awaits_disk written at block k.old.call.state }
    ensures image { k.new.image ≡ k.old.image }
{
    let caller = Some(k.tables.current());
    k.disk.submit(Request {
        caller,
        at,
        block,
        written,
    });
    k.tables.wait(disk_sem(), Rest::Disk(None));
    Next::Waits
}

// The bytes of a block at an address.
fn bytes_at(k: &KernelState, at: u32) -> [u8; 512]
    requires there { at + 512 ≤ ram_size }
    ensures bytes { result ≡ bytes_from k.now.call.state.memory at 512 }
{
    let mut bytes = [0; 512];
    for i in 0..RD_BLKSIZ {
        bytes[i as usize] = byte_at(k, at + i);
    }
    bytes
}

// The semaphore on which the callers of the raw disk wait.
fn disk_sem() -> Sem
    ensures disk { result ≡ model.RD_SEM }
{
    Sem::at(2)
}
