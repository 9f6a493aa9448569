//! Bytes that requests of disks load and store: those of a write as the call is made, or becomes the first; those of a read as it is
//! completed.

use crate::acts::{Acts, Doer, is_in_ram};
use crate::ahead::Ahead;
use crate::texts::is_kind;
use file_server::FileRequest;
use kernel_state::KernelState;
use local_files::FileCall;
use std::alloc::AllocError;
use xinu_base::{Call, Kind, Pid, Rest};

/// How many bytes a block has.
const BLOCK: u32 = 512;

/// `write` of the raw disk: its block is loaded as the call is made, unless it is refused. The state is that ahead of the event.
///
/// # Errors
/// Out of memory.
pub(crate) fn push_raw(
    acts: &mut Acts,
    doer: &Doer,
    call: &Call,
    k: &KernelState,
) -> Result<(), AllocError> {
    let args = &call.args;
    if call.number == 39 && is_kind(args[0], Kind::RawDisk) && args[2] < k.disk.blocks() {
        acts.load(doer, args[1], BLOCK)
    } else {
        Ok(())
    }
}

/// A good completion of the raw disk stores the block of a read for its caller, if that lives. The state is that ahead of the event.
///
/// # Errors
/// Out of memory.
pub(crate) fn push_completion(
    acts: &mut Acts,
    event: u32,
    k: &KernelState,
) -> Result<(), AllocError> {
    let Some(request) = k.disk.requests().first() else {
        return Ok(());
    };
    let Some(process) = request.caller else {
        return Ok(());
    };
    if request.written.is_none() {
        let place = k.harts[process.index()].pc.wrapping_sub(4);
        let doer = Doer {
            event,
            process,
            place,
        };
        acts.store(&doer, request.at, BLOCK)?;
    }
    Ok(())
}

/// Calls on files that take effect at a completion, one after another: each stores what it reads, and the next one becomes the first.
///
/// # Errors
/// Out of memory.
pub(crate) fn push_effects(
    acts: &mut Acts,
    event: u32,
    ahead: &Ahead,
    k: &KernelState,
) -> Result<(), AllocError> {
    let calls = ahead.calls.as_slice();
    let effects = calls.len().saturating_sub(k.files.pending());
    for i in 0..effects {
        if let Some(call) = calls.get(i) {
            push_effect(acts, event, ahead, k, call)?;
        }
        if let Some(call) = calls.get(i + 1) {
            push_first(acts, event, ahead, call)?;
        }
    }
    Ok(())
}

// A call takes effect: what it reads is stored for its caller, if that lives, to whom the reply is kept.
fn push_effect(
    acts: &mut Acts,
    event: u32,
    ahead: &Ahead,
    k: &KernelState,
    call: &FileRequest,
) -> Result<(), AllocError> {
    let Some(process) = call.caller else {
        return Ok(());
    };
    let (FileCall::Read(_, _), Rest::Disk(Some(reply))) = (
        call.call,
        k.tables.process(process).rest,
    ) else {
        return Ok(());
    };
    if reply > 0 {
        acts.store(&waiter(event, ahead, process), call.at, reply as u32)?;
    }
    Ok(())
}

// A call becomes the first: the bytes that it writes are loaded for its caller, if that lives.
fn push_first(
    acts: &mut Acts,
    event: u32,
    ahead: &Ahead,
    call: &FileRequest,
) -> Result<(), AllocError> {
    match (call.caller, call.call) {
        (Some(process), FileCall::Write(_)) => {
            acts.load(&waiter(event, ahead, process), call.at, call.count)
        }
        _ => Ok(()),
    }
}

// A process that waits in a call.
fn waiter(event: u32, ahead: &Ahead, process: Pid) -> Doer {
    Doer {
        event,
        process,
        place: ahead.pcs[process.index()].wrapping_sub(4),
    }
}

/// A call on files is made while none is under way: a write loads its bytes, and a read that takes effect at once stores what it read.
///
/// # Errors
/// Out of memory.
pub(crate) fn push_issue(
    acts: &mut Acts,
    doer: &Doer,
    call: &Call,
    ahead: &Ahead,
    k: &KernelState,
) -> Result<(), AllocError> {
    let args = &call.args;
    if !ahead.calls.is_empty() || !is_kind(args[0], Kind::File) || !is_in_ram(args[1], args[2]) {
        return Ok(());
    }
    match call.number {
        38 if k.files.pending() == 0 => {
            let answer = k.harts[doer.process.index()].regs[10];
            if answer < 0x8000_0000 {
                acts.store(doer, args[1], answer)?;
            }
            Ok(())
        }
        39 => acts.load(doer, args[1], args[2]),
        _ => Ok(()),
    }
}
