//! Packets for the debugger's console.

ghost use Rattle.std.specs.Prelude.{◌≡◌, IfOk, OnOk};
ghost use Rattle.gdb_command.specs.Console as console;
ghost use Rattle.gdb_command.specs.Console.{Shows, ShowsDigits};

use gdb_packets::{frame, push_hex};
use std::alloc::{AllocError, Global};

/// The most digits in a packet for the console.
const MOST_DIGITS: usize = 2048;

/// Appends packets that show bytes on the debugger's console.
///
/// # Errors
/// Out of memory.
pub(crate) fn push_print(alloc: Global, bytes: &[u8], out: &mut Vec<u8>) -> Result<(), AllocError>
    ensures shows { OnOk result (Shows bytes.now out.old.items out.new.items) }
{
    let mut digits = Vec::new(alloc);
    push_hex(&mut digits, bytes)?;
    push_console_digits(alloc, digits.as_slice(), out)
}

/// Appends packets that show the bytes of these digits on the debugger's console.
///
/// # Errors
/// Out of memory.
pub(crate) fn push_console_digits(
    alloc: Global,
    digits: &[u8],
    out: &mut Vec<u8>,
) -> Result<(), AllocError>
    ensures shows { OnOk result (ShowsDigits digits.now out.old.items out.new.items) }
{
    let mut rest = digits;
    while !rest.is_empty() {
        let (part, next) = rest.split_at(rest.len().min(MOST_DIGITS));
        let packet = console_packet(alloc, part)?;
        out.extend_from_slice(packet.as_slice())?;
        rest = next;
    }
    Ok(())
}

// The packet that shows the bytes of these digits.
fn console_packet(alloc: Global, digits: &[u8]) -> Result<Vec<u8>, AllocError>
    ensures packet { IfOk result (λ packet. packet.items ≡ console.console_packet digits.now) }
{
    let mut text = Vec::from_slice(alloc, b"O")?;
    text.extend_from_slice(digits)?;
    frame(alloc, text.as_slice())
}
