//! A debugger is told why its run was refused: each packet is answered with an error.

ghost use Rattle.std.specs.Io.KnownBytes.{Appends};
ghost use Rattle.std.specs.Prelude.{ℕ, ◌≡◌, IfOk, OnErr, OnOk, take, true};
ghost use Rattle.gdb_command.specs.Refusing as spec;
ghost use Rattle.gdb_command.specs.Refusing.{AnswersFirst, HasRefused, HasRefusedSome, IsOneCutOff, RefusesOne};
ghost use Rattle.gdb_command.specs.Serving.{IsPartial};
ghost use Rattle.gdb_packets.specs.SeenUnits.{seen};
ghost use Rattle.gdb_packets.specs.Units.{first_unit};
ghost use Rattle.text_lines.specs.Lines.{lines_of};

use crate::serving::{read_more, write};
use crate::session::ends_session;
use gdb_packets::{InputUnit, command_of, first_unit, frame, unescaped};
use host_port::HostFault;
use std::alloc::{AllocError, Global};
use std::io::{Read, Write};
use text_lines::first_line;

/// Answers each packet with an error, the first line of a text, until the debugger ends the session or the input ends.
///
/// # Errors
/// `Failed` if a stream failed; `NoMemory`.
pub(crate) fn refuse_packets<R: Read, W: Write>(
    alloc: Global,
    text: &[u8],
    input: &mut R,
    output: &mut W,
) -> Result<(), HostFault>
    ensures refuses { OnOk result (HasRefused (spec.error_packet text.now) (record { left = R.remaining input.old; written = W.contents output.old }) (record { left = R.remaining input.new; written = W.contents output.new })) }
    ensures cut { OnErr result (HasRefusedSome (spec.error_packet text.now) (record { left = R.remaining input.old; written = W.contents output.old }) (record { left = R.remaining input.new; written = W.contents output.new })) }
{
    let error = error_packet(alloc, text)?;
    refuse_all(alloc, error.as_slice(), input, output)
}

// The packet of an error in words: the first line of a text.
fn error_packet(alloc: Global, text: &[u8]) -> Result<Vec<u8>, AllocError>
    ensures packet { IfOk result (λ packet. packet.items ≡ spec.error_packet text.now) }
{
    let mut words = Vec::from_slice(alloc, b"E.")?;
    words.extend_from_slice(line_of(text))?;
    frame(alloc, words.as_slice())
}

// The first line of a text, if it has one.
fn line_of(text: &[u8]) -> &[u8]
    ensures line { result.now ≡ spec.first_of (lines_of text.now) }
{
    if text.is_empty() {
        return text;
    }
    first_line(text).0
}

// Answers each packet with this error, until the debugger ends the session or the input ends.
fn refuse_all<R: Read, W: Write>(
    alloc: Global,
    error: &[u8],
    input: &mut R,
    output: &mut W,
) -> Result<(), HostFault>
    ensures refuses { OnOk result (HasRefused error.now (record { left = R.remaining input.old; written = W.contents output.old }) (record { left = R.remaining input.new; written = W.contents output.new })) }
    ensures cut { OnErr result (HasRefusedSome error.now (record { left = R.remaining input.old; written = W.contents output.old }) (record { left = R.remaining input.new; written = W.contents output.new })) }
{
    let mut pending = Vec::new(alloc);
    for _ in 0..u64::MAX {
        if !refuse_one(alloc, error, &mut pending, input, output)? {
            break;
        }
    }
    Ok(())
}

// Answers the first piece of what was read, or reads on if it isn't whole. Whether it goes on.
fn refuse_one<R: Read, W: Write>(
    alloc: Global,
    error: &[u8],
    pending: &mut Vec<u8>,
    input: &mut R,
    output: &mut W,
) -> Result<bool, HostFault>
    ensures one { IfOk result (λ goes. RefusesOne error.now goes (record { left = R.remaining input.old; written = W.contents output.old }) (record { left = R.remaining input.new; written = W.contents output.new }) pending.old.items pending.new.items) }
    ensures cut { OnErr result (IsOneCutOff error.now (record { left = R.remaining input.old; written = W.contents output.old }) (record { left = R.remaining input.new; written = W.contents output.new }) pending.old.items) }
{
    if is_partial(pending.as_slice()) {
        return read_more(pending, input);
    }
    let (ends, rest) = answer_first(alloc, error, pending.as_slice(), output)?;
    *pending = rest;
    Ok(!ends)
}

// Whether what an input begins with isn't whole.
fn is_partial(input: &[u8]) -> bool
    ensures waits { result ≡ true → IsPartial input.now }
{
    let (unit, _) = first_unit(input);
    matches!(unit, InputUnit::Partial)
}

// Answers what an input begins with. Whether that ends the session, and what comes after it.
fn answer_first<W: Write>(
    alloc: Global,
    error: &[u8],
    input: &[u8],
    output: &mut W,
) -> Result<(bool, Vec<u8>), HostFault>
    ensures first { IfOk result (λ done. AnswersFirst error.now done.0 input.now done.1.items (W.contents output.old) (W.contents output.new)) }
    ensures part { OnErr result ((n : ℕ) × Appends (W.contents output.old) (W.contents output.new) (take n (spec.refused_unit error.now (first_unit input.now).0))) }
{
    let (unit, next) = first_unit(input);
    let rest = Vec::from_slice(alloc, next)?;
    let ends = ends_with(alloc, unit)?;
    let sent = refused_unit(alloc, error, unit)?;
    write(output, sent.as_slice())?;
    Ok((ends, rest))
}

// What is answered to a piece of an input.
fn refused_unit(alloc: Global, error: &[u8], unit: InputUnit<'_>) -> Result<Vec<u8>, AllocError>
    ensures answer { IfOk result (λ answer. answer.items ≡ spec.refused_unit error.now (seen unit.entry)) }
{
    match unit {
        InputUnit::Packet(_) => {
            let mut answer = Vec::from_slice(alloc, b"+")?;
            answer.extend_from_slice(error)?;
            Ok(answer)
        }
        InputUnit::Damaged => Vec::from_slice(alloc, b"-"),
        InputUnit::Refused => Vec::from_slice(alloc, error),
        InputUnit::Accepted | InputUnit::Interrupt | InputUnit::Noise | InputUnit::Partial => Ok(
            Vec::new(alloc),
        ),
    }
}

// Whether a piece of an input ends the session.
fn ends_with(alloc: Global, unit: InputUnit<'_>) -> Result<bool, AllocError>
    ensures ends { IfOk result (λ ends. ends ≡ spec.ends_with (seen unit.entry)) }
{
    match unit {
        InputUnit::Packet(bytes) => {
            let payload = unescaped(alloc, bytes)?;
            Ok(ends_session(command_of(payload.as_slice())))
        }
        InputUnit::Damaged
        | InputUnit::Accepted
        | InputUnit::Refused
        | InputUnit::Interrupt
        | InputUnit::Noise
        | InputUnit::Partial => Ok(false),
    }
}
