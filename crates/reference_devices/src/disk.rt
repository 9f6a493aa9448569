//! The raw disk: requests, which are served in their order, and completions (book, chapter 18, `rdsread.c`, `rdswrite.c`, `rdscontrol.c`,
//! `rdsprocess.c`).

ghost use Rattle.std.specs.Prelude.{◌≡◌, ◌≤◌, ◌+◌, ◌∷◌, [], IfOk, IfNone, IfSome, MatchOption, slice_set};
ghost use Rattle.reference_devices.specs.Transfers.{transferring};
ghost use Rattle.reference_state.specs.Answers.{came_to, IsStart};
ghost use Rattle.reference_state.specs.Happened.{happened};
ghost use Rattle.xinu_model.specs.Files.Work.{copied};
ghost use Rattle.xinu_model.specs.Memory.{bytes_from};
ghost use Rattle.xinu_model.specs.RawDisk.Calls as model;
ghost use Rattle.xinu_model.specs.RawDisk.Completions.{served};
ghost use Rattle.xinu_model.specs.RawDisk.Requests as requests;
ghost use Rattle.xinu_model.specs.RawDisk.Sound.{IsSoundRawDisk};

use crate::ranges::in_ram;
use crate::silence::nothing;
use reference_state::{Answer, Bytes, Happened, Machine, Request};
use reference_tables::{Place, append, push, set};
use xinu_base::{NoMemory, Pid, Process, Rest, SYSERR, State};

// The number of bytes of a block.
const RD_BLKSIZ: u32 = 512;

// The control function that answers how many blocks there are.
const RD_CTL_SIZE: u32 = 1;

// The semaphore on which the callers of the raw disk wait, without a token.
const RD_SEM: u32 = 2;

/// `read`: a block to an address. Refused if there is no such block or it would leave RAM, and if its own completion fails.
pub fn disk_read(m: &mut Machine, at: u32, block: u32) -> Result<Answer, NoMemory>
    requires start { IsStart m.old }
    ensures read { IfOk result (λ a. came_to m.new a ≡ model.disk_read at block m.old.state) }
{
    if !may_request(m, at, block) {
        return Ok(Answer::Returns(SYSERR));
    }
    request(m, at, block, None)
}

/// `write`: a block from an address, with the bytes that are there as the call is made. Refused as `read`.
pub fn disk_write(m: &mut Machine, at: u32, block: u32) -> Result<Answer, NoMemory>
    requires start { IsStart m.old }
    ensures write { IfOk result (λ a. came_to m.new a ≡ model.disk_write at block m.old.state) }
{
    if !may_request(m, at, block) {
        return Ok(Answer::Returns(SYSERR));
    }
    let written = block_in_ram(m, at)?;
    request(m, at, block, Some(written))
}

/// `control`: how many blocks there are. Refused if there is no such function.
pub fn disk_control(m: &Machine, f: u32) -> Answer
    requires start { IsStart m.now }
    ensures control { came_to m.now result ≡ model.disk_control f m.now.state }
{
    if f == RD_CTL_SIZE {
        return Answer::Returns(m.disk.blocks.len() as i32);
    }
    Answer::Returns(SYSERR)
}

/// The caller of `read` or `write` goes on with the reply that was kept for it.
pub fn go_on_disk(m: &mut Machine, reply: Option<i32>) -> Result<Answer, NoMemory>
    requires start { IsStart m.old }
    ensures goes_on { IfOk result (λ a. came_to m.new a ≡ model.go_on_disk reply m.old.state) }
{
    let Some(value) = reply else {
        return Ok(Answer::Silent);
    };
    let message = m.held();
    m.goes_on(message)?;
    Ok(Answer::Returns(value))
}

/// The event in which the raw disk completes its first request, well or badly: its bytes go to RAM and its reply to its caller, if that
/// lives.
pub fn disk_completes(m: &mut Machine, good: bool) -> Result<Happened, NoMemory>
    requires start { IsStart m.old }
    requires sound { IsSoundRawDisk (model.disk_of m.old.state) }
    ensures completes { IfOk result (λ h. happened h m.new.state ≡ model.disk_completes good m.old.state) }
    ensures start { IfOk result (λ _. IsStart m.new) }
{
    let was = m.current();
    let Some(r) = take_request(m) else {
        return Ok(nothing(m));
    };
    serve(m, r, good)?;
    let first = m.no_lines();
    m.end_of_event(was, first, Answer::Silent)
}

// A request is served, well or badly: its bytes go to RAM and its reply to its caller, if that lives.
fn serve(m: &mut Machine, r: Request, good: bool) -> Result<(), NoMemory>
    requires start { IsStart m.old }
    requires sound { IsSoundRawDisk (model.disk_of m.old.state) }
    ensures served { IfOk result (λ _. m.new ≡ model.after_served (served good r (model.disk_of m.old.state)) m.old.state) }
{
    let caller = r.caller;
    if !good {
        return reply_kept(m, caller, SYSERR);
    }
    transfer(m, r);
    reply_kept(m, caller, 0)
}

// The same, if the caller lives.
fn reply_kept(m: &mut Machine, caller: Option<Pid>, reply: i32) -> Result<(), NoMemory>
    ensures kept { IfOk result (λ _. m.new ≡ model.reply_kept caller reply m.old) }
{
    match caller {
        None => Ok(()),
        Some(p) => keep_reply(m, p, reply),
    }
}

/// The caller of a request or a call on files becomes ready, and its reply is kept for it.
pub fn keep_reply(m: &mut Machine, p: Pid, reply: i32) -> Result<(), NoMemory>
    ensures kept { IfOk result (λ _. m.new ≡ model.keep_reply p reply m.old) }
{
    let x = Process {
        state: State::Ready,
        rest: Rest::Disk(Some(reply)),
        ..m.process_at(p)
    };
    let message = m.message_at(p);
    m.move_to(p, x, message, Place::InReady)?;
    m.owe_resched();
    Ok(())
}

// Whether there is a block, and the bytes of one at an address are in RAM.
fn may_request(m: &Machine, at: u32, block: u32) -> bool
    ensures may { result ≡ model.may_request at block m.now.state }
{
    in_ram(at, RD_BLKSIZ) && has_block(m, block)
}

// Whether there is a block of a number.
fn has_block(m: &Machine, block: u32) -> bool
    ensures has { result ≡ requests.has_block block (model.disk_of m.now.state) }
{
    (block as usize) < m.disk.blocks.len()
}

// The caller makes a request, and waits until it is completed.
fn request(m: &mut Machine, at: u32, block: u32, written: Option<Bytes>) -> Result<Answer, NoMemory>
    requires start { IsStart m.old }
    requires within { at + 512 ≤ 1048576 }
    ensures waits { IfOk result (λ a. came_to m.new a ≡ model.awaits_disk written at block m.old.state) }
{
    let caller = Some(m.current());
    add_request(
        m,
        Request {
            caller,
            at,
            block,
            written,
        },
    )?;
    m.blocked(State::Waiting, Rest::Disk(None), Place::InSemaphore(RD_SEM))
}

// A request goes after the others.
fn add_request(m: &mut Machine, r: Request) -> Result<(), NoMemory>
    ensures added { IfOk result (λ _. m.new ≡
        record m.old { state = model.with_disk (requests.requested r (model.disk_of m.old.state)) m.old.state }) }
{
    push(&mut m.disk.requests, r)
}

// The bytes of a block at an address in RAM.
fn block_in_ram(m: &Machine, at: u32) -> Result<Bytes, NoMemory>
    requires within { at + 512 ≤ 1048576 }
    ensures bytes { IfOk result (λ b. b ≡ bytes_from m.now.state.memory at 512) }
{
    let mut bytes = Vec::new(*m.names.allocator());
    let block = m.memory.copy_out(at, 512).unwrap();
    append(&mut bytes, block)?;
    Ok(Bytes { bytes })
}

// The first request leaves the others.
fn take_request(m: &mut Machine) -> Option<Request>
    ensures first { MatchOption result ((model.disk_of m.old.state).requests ≡ [])
        (λ r. (model.disk_of m.old.state).requests ≡ r ∷ (model.disk_of m.new.state).requests) }
    ensures machine { m.new ≡ record m.old {
      state =
          model.with_disk (record (model.disk_of m.old.state) { requests = (model.disk_of m.new.state).requests }) m.old.state;
    } }
    ensures stays { IfNone result (m.new ≡ m.old) }
    ensures within { IfSome result (λ r. r.at + 512 ≤ 1048576) }
{
    if m.disk.requests.is_empty() {
        return None;
    }
    Some(m.disk.requests.remove(0))
}

// A block is read, or written.
fn transfer(m: &mut Machine, r: Request)
    requires sound { IsSoundRawDisk (model.disk_of m.old.state) }
    ensures transferred { m.new ≡ record m.old { state = transferring r m.old.state } }
{
    let Request {
        caller,
        at,
        block,
        written,
    } = r;
    match written {
        None => copy_block(m, caller, at, block),
        Some(bytes) => set_block(m, block, bytes),
    }
}

// The bytes of a block go to an address in RAM, if the caller lives.
fn copy_block(m: &mut Machine, caller: Option<Pid>, at: u32, block: u32)
    requires within { at + 512 ≤ 1048576 }
    requires sound { IsSoundRawDisk (model.disk_of m.old.state) }
    ensures copied { m.new ≡ record m.old {
      state = record m.old.state {
        memory =
            copied caller at (requests.block_at (model.disk_of m.old.state) block) m.old.state.memory;
      };
    } }
{
    if caller.is_none() {
        return;
    }
    if let Some(bytes) = m.disk.blocks.get(block as usize) {
        let _ = m.memory.copy_in(at, &bytes.bytes);
    }
}

// A block has other bytes.
fn set_block(m: &mut Machine, block: u32, bytes: Bytes)
    ensures set { m.new ≡ record m.old {
      state = model.with_disk (record (model.disk_of m.old.state) {
        blocks =
            slice_set (model.disk_of m.old.state).blocks block bytes;
      }) m.old.state;
    } }
{
    set(&mut m.disk.blocks, block as usize, bytes);
}
