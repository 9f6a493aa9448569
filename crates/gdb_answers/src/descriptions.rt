//! The description of the registers, and texts that are read in parts.

ghost use Rattle.std.specs.Prelude.{◌≡◌, ◌++◌, IfOk, OnOk, codes, drop};
ghost use Rattle.std.specs.Fmt.{decimal};
ghost use Rattle.gdb_answers.specs.Descriptions as spec;

use itoa::Buffer;
use std::alloc::{AllocError, Global};

/// The registers of the machine, RV32I.
///
/// # Errors
/// Out of memory.
pub(crate) fn features(alloc: Global) -> Result<Vec<u8>, AllocError>
    ensures text { IfOk result (λ text. text.items ≡ spec.features) }
{
    let mut text = Vec::new(alloc);
    text.extend_from_slice(
        b"<?xml version='1.0'?><!DOCTYPE target SYSTEM 'gdb-target.dtd'><target><architecture>riscv:rv32</architecture><feature name='org.gnu.gdb.riscv.cpu'>",
    )?;
    push_registers(&mut text)?;
    text.extend_from_slice(b"<reg name='pc' bitsize='32' type='int'/>")?;
    text.extend_from_slice(b"</feature></target>")?;
    Ok(text)
}

// Appends the entries of x0 to x31.
fn push_registers(text: &mut Vec<u8>) -> Result<(), AllocError>
    ensures appended { OnOk result (text.new.items ≡ text.old.items ++ spec.registers_below 32) }
{
    for number in 0..32 {
        push_numbered(text, number)?;
    }
    Ok(())
}

// Appends the entry of the register of a number.
fn push_numbered(text: &mut Vec<u8>, number: u32) -> Result<(), AllocError>
    ensures appended { OnOk result (text.new.items ≡ text.old.items ++ spec.register_entry (codes "x" ++ decimal number)) }
{
    let mut digits = Buffer::new();
    text.extend_from_slice(b"<reg name='x")?;
    text.extend_from_slice(digits.format(number).as_bytes())?;
    text.extend_from_slice(b"' bitsize='32' type='int'/>")?;
    Ok(())
}

/// So many bytes of a text from a place on, after a letter that says whether they are the last.
///
/// # Errors
/// Out of memory.
pub(crate) fn part(alloc: Global, text: &[u8], at: u32, count: u32) -> Result<Vec<u8>, AllocError>
    ensures part { IfOk result (λ answer. answer.items ≡ spec.part text.now at count) }
{
    let rest = after(text, at as usize);
    let mut answer = Vec::new(alloc);
    if rest.len() <= count as usize {
        answer.push(b'l')?;
        answer.extend_from_slice(rest)?;
    } else {
        answer.push(b'm')?;
        answer.extend_from_slice(&rest[..count as usize])?;
    }
    Ok(answer)
}

// The bytes from a place on.
fn after(bytes: &[u8], at: usize) -> &[u8]
    ensures rest { result.now ≡ drop at bytes.now }
{
    if at < bytes.len() { &bytes[at..] } else { &[] }
}
