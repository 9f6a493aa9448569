//! The frames of packets that are sent.

ghost use Rattle.std.specs.Prelude.{◌≡◌, ◌%◌, ◌++◌, IfOk, OnOk, sum};
ghost use Rattle.gdb_packets.specs.Frames as spec;

use crate::hex::push_hex;
use std::alloc::{AllocError, Global};

/// The packet that says these bytes.
///
/// # Errors
/// Out of memory.
pub fn frame(alloc: Global, payload: &[u8]) -> Result<Vec<u8>, AllocError>
    ensures framed { IfOk result (λ packet. packet.items ≡ spec.frame payload.now) }
{
    let bytes = escaped(alloc, payload)?;
    framed(alloc, bytes.as_slice())
}

// The packet that has these bytes between its `$` and its `#`.
fn framed(alloc: Global, bytes: &[u8]) -> Result<Vec<u8>, AllocError>
    ensures framed { IfOk result (λ packet. packet.items ≡ spec.framed bytes.now) }
{
    let mut packet = Vec::new(alloc);
    packet.push(b'$')?;
    packet.extend_from_slice(bytes)?;
    packet.push(b'#')?;
    push_hex(&mut packet, &[sum_of(bytes)])?;
    Ok(packet)
}

/// The sum of bytes, modulo 256.
pub(crate) fn sum_of(bytes: &[u8]) -> u8
    ensures sum { result ≡ sum bytes.now % 256 }
{
    let mut total = 0u8;
    for byte in bytes {
        total = total.wrapping_add(*byte);
    }
    total
}

// Bytes as they stand in a packet.
fn escaped(alloc: Global, bytes: &[u8]) -> Result<Vec<u8>, AllocError>
    ensures escaped { IfOk result (λ text. text.items ≡ spec.escaped bytes.now) }
{
    let mut text = Vec::new(alloc);
    for byte in bytes {
        push_escaped(&mut text, *byte)?;
    }
    Ok(text)
}

// Appends a byte as it stands in a packet.
fn push_escaped(text: &mut Vec<u8>, byte: u8) -> Result<(), AllocError>
    ensures appended { OnOk result (text.new.items ≡ text.old.items ++ spec.escaped_byte byte) }
{
    if is_escaped(byte) {
        text.push(b'}')?;
        text.push(byte ^ 0x20)?;
    } else {
        text.push(byte)?;
    }
    Ok(())
}

// Whether a packet can't have a byte as it is.
fn is_escaped(byte: u8) -> bool
    ensures escaped { result ≡ spec.is_escaped byte }
{
    byte == b'#' || byte == b'$' || byte == b'}' || byte == b'*'
}
