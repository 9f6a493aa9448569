//! The streams of a session: packets are read, and what is answered is written.

ghost use Rattle.std.specs.Prelude.{ℕ, ◌≡◌, OnErr, OnOk, IfOk, false, take};
ghost use Rattle.std.specs.Io.KnownBytes.{Appends};
ghost use Rattle.gdb_command.specs.Reads.{HasServedSome, HasServedStreams, IsCutOff, ReadsMore, ReadsOnce, ReadsSome};

use crate::session::Session;
use host_port::HostFault;
use std::alloc::Global;
use std::io::{Read, Write};

/// Serves packets until the debugger ends the session or the input ends.
///
/// # Errors
/// `Failed` if a stream failed; `NoMemory`.
pub(crate) fn serve<R: Read, W: Write>(
    alloc: Global,
    session: &mut Session,
    input: &mut R,
    output: &mut W,
) -> Result<(), HostFault>
    ensures serves { OnOk result (HasServedStreams session.old session.new (record { left = R.remaining input.old; written = W.contents output.old }) (record { left = R.remaining input.new; written = W.contents output.new })) }
    ensures cut { OnErr result (HasServedSome session.old (record { left = R.remaining input.old; written = W.contents output.old }) (record { left = R.remaining input.new; written = W.contents output.new })) }
{
    let mut pending = Vec::new(alloc);
    for _ in 0..u64::MAX {
        if session.has_ended || !serve_once(session, &mut pending, input, output)? {
            break;
        }
    }
    Ok(())
}

// Reads once, and serves what is whole then. Whether the input goes on.
fn serve_once<R: Read, W: Write>(
    session: &mut Session,
    pending: &mut Vec<u8>,
    input: &mut R,
    output: &mut W,
) -> Result<bool, HostFault>
    ensures once { IfOk result (λ goes. ReadsOnce goes session.old session.new (record { left = R.remaining input.old; written = W.contents output.old }) (record { left = R.remaining input.new; written = W.contents output.new }) pending.old.items pending.new.items) }
    ensures cut { OnErr result (IsCutOff session.old (record { left = R.remaining input.old; written = W.contents output.old }) (record { left = R.remaining input.new; written = W.contents output.new }) pending.old.items) }
{
    if !read_more(pending, input)? {
        return Ok(false);
    }
    let served = session.units(pending.as_slice())?;
    write(output, served.sent.as_slice())?;
    *pending = served.rest;
    Ok(true)
}

/// Appends what is read at once. Whether the input goes on.
///
/// # Errors
/// `Failed` if the stream failed; `NoMemory`.
pub(crate) fn read_more<R: Read>(bytes: &mut Vec<u8>, input: &mut R) -> Result<bool, HostFault>
    ensures reads { IfOk result (λ goes. ReadsMore goes bytes.old.items bytes.new.items (R.remaining input.old) (R.remaining input.new)) }
    ensures some { OnErr result (ReadsSome (R.remaining input.old) (R.remaining input.new)) }
{
    let mut buffer = [0u8; 4096];
    match input.read(&mut buffer) {
        Ok(count) => {
            bytes.extend_from_slice(&buffer[..count])?;
            Ok(count > 0)
        }
        Err(_) => Err(HostFault::Failed),
    }
}

/// Writes bytes.
///
/// # Errors
/// `Failed` if the stream failed.
pub(crate) fn write<W: Write>(output: &mut W, bytes: &[u8]) -> Result<(), HostFault>
    ensures whole { OnOk result (Appends (W.contents output.old) (W.contents output.new) bytes.now) }
    ensures part { OnErr result ((n : ℕ) × Appends (W.contents output.old) (W.contents output.new) (take n bytes.now)) }
{
    let mut rest = bytes;
    while !rest.is_empty() {
        match output.write(rest) {
            Ok(0) => return Err(HostFault::Failed),
            Ok(n) => rest = &rest[n..],
            Err(_) => return Err(HostFault::Failed),
        }
    }
    Ok(())
}
