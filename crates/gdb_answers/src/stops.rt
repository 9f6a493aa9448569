//! Why the run stands.

ghost use Rattle.std.specs.Prelude.{◌≡◌, ◌++◌, IfOk, codes};
ghost use Rattle.gdb_answers.specs.Stops as spec;

use crate::threads::thread_text;
use gdb_packets::push_hex;
use std::alloc::{AllocError, Global};
use xinu_base::{Cause, Pid};

/// Why the run stands.
#[derive(Clone, Copy)]
pub enum Stop {
    /// It was to stop here: at a point, or after an instruction.
    Here,
    /// The next instruction is trapped for this cause.
    Trapped(Cause),
    /// The bytes at this address changed.
    Changed(u32),
    /// It went back to its beginning.
    Beginning,
    /// It is at its end.
    End,
}

/// What is told of a stop of a process: the signal; then the address of the bytes that changed, or that the run is at its beginning or its
/// end; and the number of the process's thread.
///
/// # Errors
/// Out of memory.
pub fn stop_text(alloc: Global, stop: Stop, p: Pid) -> Result<Vec<u8>, AllocError>
    ensures text { IfOk result (λ text. text.items ≡ spec.stop_text stop p) }
{
    let thread = thread_text(alloc, p)?;
    let mut text = reason_text(alloc, stop)?;
    text.extend_from_slice(b"thread:")?;
    text.extend_from_slice(thread.as_slice())?;
    text.push(b';')?;
    Ok(text)
}

// The signal of a stop, and what else is told of it.
fn reason_text(alloc: Global, stop: Stop) -> Result<Vec<u8>, AllocError>
    ensures text { IfOk result (λ text. text.items ≡ spec.reason_text stop) }
{
    match stop {
        Stop::Here => Vec::from_slice(alloc, b"T05"),
        Stop::Trapped(cause) => Vec::from_slice(alloc, signal_of(cause)),
        Stop::Changed(address) => changed_text(alloc, address),
        Stop::Beginning => Vec::from_slice(alloc, b"T05replaylog:begin;"),
        Stop::End => Vec::from_slice(alloc, b"T05replaylog:end;"),
    }
}

// What is told of a change.
fn changed_text(alloc: Global, address: u32) -> Result<Vec<u8>, AllocError>
    ensures text { IfOk result (λ text. text.items ≡ codes "T05watch:" ++ spec.address_text address ++ codes ";") }
{
    let mut text = Vec::new(alloc);
    text.extend_from_slice(b"T05watch:")?;
    push_hex(&mut text, &address.to_be_bytes())?;
    text.push(b';')?;
    Ok(text)
}

// The signal of a trap.
fn signal_of(cause: Cause) -> &'static [u8]
    ensures signal { result.now ≡ spec.signal_of cause }
{
    match cause {
        Cause::Fetch | Cause::Load | Cause::Store => b"T0b",
        Cause::Illegal => b"T04",
        Cause::Break => b"T05",
        Cause::Target => b"T0a",
    }
}
