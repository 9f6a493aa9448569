//! The reason of a call that is answered -1.

ghost use Rattle.std.specs.Prelude.{◌≡◌, IfOk};
ghost use Rattle.refusal_reasons.specs.Reasons.{reason};
ghost use Rattle.xinu_model.specs.Sound.State.{IsSound};

use crate::clock_causes::{sleep, sleepms};
use crate::device_causes::{control, open, read, switch_reason, write};
use crate::memory_causes::{freemem, freestk, taking};
use crate::message_causes::{receive, recvtime, send};
use crate::name_causes::mount;
use crate::pool_causes::{freebuf, getbuf, mkbufpool};
use crate::port_causes::{disposal, ptcreate, ptrecv, ptsend};
use crate::process_causes::{create, kill, priority, resume, suspend};
use crate::reasons::Reason;
use crate::semaphore_causes::{named, semcount, semcreate, semreset, signal, signaln};
use kernel_state::KernelState;
use std::alloc::AllocError;
use xinu_base::{Call, Op};

/// Why a call that the current process makes in a sound state is answered -1 in its event. `None` if and only if it isn't.
///
/// # Errors
/// Out of memory, for copies of the heap's records, of the pools or of the mounted prefixes.
#[tactic(auto, unfolding(crate::specs::Reasons::cause_rows))]
pub fn reason_of(k: &KernelState, call: &Call) -> Result<Option<Reason>, AllocError>
    requires sound { IsSound k.now.call.state }
    ensures reason { IfOk result (λ r. r ≡ reason call.now.number call.now.args k.now.call.state) }
{
    let a = &call.args;
    match call.number {
        1 => Ok(None),
        2 => Ok(create(k, a[1], a[2], a[3])),
        3 => Ok(resume(k, a[0])),
        4 => Ok(suspend(k, a[0])),
        5 => Ok(kill(k, a[0])),
        6 => Ok(None),
        7 => Ok(priority(k, a[0])),
        8 => Ok(priority(k, a[0])),
        9 => Ok(None),
        10 => Ok(taking(k, a[0])),
        11 => freemem(k, a[0], a[1]),
        12 => Ok(taking(k, a[0])),
        13 => freestk(k, a[0], a[1]),
        14 => Ok(semcreate(k, a[0])),
        15 => Ok(named(k, a[0])),
        16 => Ok(semreset(k, a[0], a[1])),
        17 => Ok(semcount(k, a[0])),
        18 => Ok(named(k, a[0])),
        19 => Ok(signal(k, a[0])),
        20 => Ok(signaln(k, a[0], a[1])),
        21 => Ok(send(k, a[0])),
        22 => Ok(receive(k)),
        23 => Ok(receive(k)),
        24 => Ok(recvtime(k, a[0])),
        25 => Ok(sleep(a[0])),
        26 => Ok(sleepms(a[0])),
        27 => Ok(None),
        28 => Ok(mkbufpool(k, a[0], a[1])),
        29 => Ok(getbuf(k, a[0])),
        30 => freebuf(k, a[0]),
        31 => Ok(ptcreate(k, a[0])),
        32 => Ok(disposal(k, a[0], a[1])),
        33 => Ok(disposal(k, a[0], a[1])),
        34 => Ok(ptsend(k, a[0])),
        35 => Ok(ptrecv(k, a[0])),
        36 => Ok(open(k, a[0], a[1], a[2])),
        37 => Ok(switch_reason(Op::Close, a[0])),
        38 => Ok(read(k, a[0], a[1], a[2])),
        39 => Ok(write(k, a[0], a[1], a[2])),
        40 => Ok(switch_reason(Op::Getc, a[0])),
        41 => Ok(switch_reason(Op::Putc, a[0])),
        42 => Ok(switch_reason(Op::Seek, a[0])),
        43 => Ok(control(k, a[0], a[1], a[2])),
        44 => mount(k, a[0], a[1], a[2]),
        _ => Ok(Some(Reason::NoCall)),
    }
}
