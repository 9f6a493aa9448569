//! Checksums of RAM, by which gdb's `compare-sections` sees whether it has the program that runs.

ghost use Rattle.std.specs.Prelude.{◌≡◌, IfOk};
ghost use Rattle.gdb_answers.specs.Checksums as spec;

use crate::registers::first_bytes;
use gdb_packets::push_hex;
use rv_hart::Ram;
use std::alloc::{AllocError, Global};

/// The polynomial, without its highest bit.
const POLYNOMIAL: u32 = 0x04c1_1db7;

/// The checksum of so many bytes of RAM from an address on; a fault if there are fewer.
///
/// # Errors
/// Out of memory.
pub(crate) fn checksum_text(
    alloc: Global,
    ram: &Ram,
    address: u32,
    count: u32,
) -> Result<Vec<u8>, AllocError>
    ensures text { IfOk result (λ text. text.items ≡ spec.checksum_text ram.now address count) }
{
    let bytes = first_bytes(ram.bytes_from(address), count as usize);
    if bytes.len() < count as usize {
        return Vec::from_slice(alloc, b"E14");
    }
    let mut text = Vec::from_slice(alloc, b"C")?;
    push_hex(&mut text, &crc_of(bytes).to_be_bytes())?;
    Ok(text)
}

// The checksum of bytes.
fn crc_of(bytes: &[u8]) -> u32
    ensures crc { result ≡ spec.crc_of bytes.now }
{
    let mut crc = u32::MAX;
    for byte in bytes {
        crc = crc_after(crc, *byte);
    }
    crc
}

// A remainder after a byte more.
fn crc_after(crc: u32, byte: u8) -> u32
    ensures after { result ≡ spec.crc_after crc byte }
{
    shifted_by_four(shifted_by_four(crc ^ (byte as u32 * 16_777_216)))
}

// A remainder after four bits more.
fn shifted_by_four(crc: u32) -> u32
    ensures shifted { result ≡ spec.shifted_by_four crc }
{
    shifted(shifted(shifted(shifted(crc))))
}

// A remainder after one bit more.
fn shifted(crc: u32) -> u32
    ensures shifted { result ≡ spec.shifted crc }
{
    let double = crc.wrapping_mul(2);
    if crc < 0x8000_0000 {
        double
    } else {
        double ^ POLYNOMIAL
    }
}
