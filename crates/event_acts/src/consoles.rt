//! Bytes that `write` loads and `read` stores on the console, each in the event in which it is put, or taken.

use crate::acts::{Acts, Doer, is_in_ram};
use crate::texts::is_kind;
use std::alloc::AllocError;
use xinu_base::{Call, Kind, Rest};

/// The call is made: what it does at once, by what is left of it and its answer after the event.
///
/// # Errors
/// Out of memory.
pub(crate) fn push_console(
    acts: &mut Acts,
    doer: &Doer,
    call: &Call,
    left: Rest,
    answer: u32,
) -> Result<(), AllocError> {
    let args = &call.args;
    if !is_kind(args[0], Kind::Console) {
        return Ok(());
    }
    match call.number {
        38 => push_read(acts, doer, args[1], 0, left, answer),
        39 if is_in_ram(args[1], args[2]) => push_write(acts, doer, args[1], 0, args[2], left),
        _ => Ok(()),
    }
}

/// The call goes on in which the process waited.
///
/// # Errors
/// Out of memory.
pub(crate) fn push_continued(
    acts: &mut Acts,
    doer: &Doer,
    was: Rest,
    left: Rest,
    answer: u32,
) -> Result<(), AllocError> {
    match was {
        Rest::TtyWrite(span, returned) => {
            let done = span.done.saturating_add(halfway(returned));
            push_write(acts, doer, span.at, done, span.want, left)
        }
        Rest::TtyRead(span) => push_read(acts, doer, span.at, span.done, left, answer),
        _ => Ok(()),
    }
}

// A newline of which the carriage return was put is loaded already.
fn halfway(returned: bool) -> u32 {
    if returned { 1 } else { 0 }
}

// A write goes on from where so many bytes were loaded.
fn push_write(
    acts: &mut Acts,
    doer: &Doer,
    at: u32,
    done: u32,
    want: u32,
    left: Rest,
) -> Result<(), AllocError> {
    let loaded = match left {
        Rest::TtyWrite(span, returned) => span.done.saturating_add(halfway(returned)),
        _ => want,
    };
    acts.load(doer, at.wrapping_add(done), loaded.saturating_sub(done))
}

// A read goes on from where so many bytes were stored.
fn push_read(
    acts: &mut Acts,
    doer: &Doer,
    at: u32,
    done: u32,
    left: Rest,
    answer: u32,
) -> Result<(), AllocError> {
    let stored = match left {
        Rest::TtyRead(span) => span.done,
        _ => { if answer < 0x8000_0000 { answer } else { done } }
    };
    acts.store(doer, at.wrapping_add(done), stored.saturating_sub(done))
}
