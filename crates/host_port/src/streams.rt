//! Loops over one `read` and one `write` of the system.

ghost use Rattle.std.specs.Prelude.{◌≡◌, ◌≤◌, ◌+◌, ℕ, take, IfOk, OnOk, OnErr, IfSome, vec_len};
ghost use Rattle.std.specs.Io.KnownBytes.{Appends, Consumes};

use crate::host::HostFault;
use std::alloc::Global;
use std::io::{Read, Write};

/// Reads the first `max + 1` bytes, or all of them if there are fewer.
///
/// # Errors
/// `Failed` if a read fails; `NoMemory`.
pub(crate) fn read_front<F: Read>(
    file: &mut F,
    alloc: Global,
    max: usize,
) -> Result<Vec<u8>, HostFault>
    ensures bytes { IfOk result (λ v. IfSome (F.remaining file.old) (λ left. v.items ≡ take (max + 1) left)) }
    ensures read { IfOk result (λ v. Consumes (F.remaining file.old) (F.remaining file.new) v.items) }
    ensures bound { IfOk result (λ v. vec_len v ≤ max + 1) }
{
    let mut bytes = Vec::new(alloc);
    let mut buffer = [0; 4096];
    while bytes.len() <= max {
        let room = (max - bytes.len()).min(buffer.len() - 1) + 1;
        match file.read(&mut buffer[..room]) {
            Ok(0) => break,
            Ok(n) => bytes.extend_from_slice(&buffer[..n])?,
            Err(_) => return Err(HostFault::Failed),
        }
    }
    Ok(bytes)
}

/// Writes all bytes.
///
/// # Errors
/// `Failed` if a write fails or takes nothing. A prefix of the bytes was written then.
pub(crate) fn write_whole<W: Write>(file: &mut W, bytes: &[u8]) -> Result<(), HostFault>
    ensures whole { OnOk result (Appends (W.contents file.old) (W.contents file.new) bytes.now) }
    ensures part { OnErr result ((n : ℕ) × Appends (W.contents file.old) (W.contents file.new) (take n bytes.now)) }
{
    let mut rest = bytes;
    while !rest.is_empty() {
        match file.write(rest) {
            Ok(0) => return Err(HostFault::Failed),
            Ok(n) => rest = &rest[n..],
            Err(_) => return Err(HostFault::Failed),
        }
    }
    Ok(())
}
