//! Registers and RAM as hexadecimal texts.

ghost use Rattle.std.specs.Prelude.{◌≡◌, ◌++◌, IfOk, OnOk, take};
ghost use Rattle.gdb_answers.specs.Registers as spec;
ghost use Rattle.gdb_answers.specs.Registers.{words_text};

use gdb_packets::{push_hex, push_word};
use rv_hart::{Hart, Ram};
use std::alloc::{AllocError, Global};

/// All registers of a process: x0 to x31, and the pc.
///
/// # Errors
/// Out of memory.
pub(crate) fn registers_text(alloc: Global, hart: &Hart) -> Result<Vec<u8>, AllocError>
    ensures text { IfOk result (λ text. text.items ≡ spec.registers_text hart.now) }
{
    let mut text = Vec::new(alloc);
    push_words(&mut text, &hart.regs)?;
    push_word(&mut text, hart.pc)?;
    Ok(text)
}

// Appends the digits of words.
fn push_words(text: &mut Vec<u8>, words: &[u32]) -> Result<(), AllocError>
    ensures appended { OnOk result (text.new.items ≡ text.old.items ++ words_text words.now) }
{
    for word in words {
        push_word(text, *word)?;
    }
    Ok(())
}

/// The register of a number: 32 is the pc.
///
/// # Errors
/// Out of memory.
pub(crate) fn register_text(alloc: Global, hart: &Hart, number: u32) -> Result<Vec<u8>, AllocError>
    ensures text { IfOk result (λ text. text.items ≡ spec.register_text hart.now number) }
{
    if number < 32 {
        return word_text(alloc, hart.regs[number as usize]);
    }
    if number == 32 {
        return word_text(alloc, hart.pc);
    }
    Vec::from_slice(alloc, b"E01")
}

// The digits of a word.
fn word_text(alloc: Global, word: u32) -> Result<Vec<u8>, AllocError>
    ensures text { IfOk result (λ text. text.items ≡ spec.word_text word) }
{
    let mut text = Vec::new(alloc);
    push_word(&mut text, word)?;
    Ok(text)
}

/// So many bytes of RAM from an address on: those that there are.
///
/// # Errors
/// Out of memory.
pub(crate) fn memory_text(
    alloc: Global,
    ram: &Ram,
    address: u32,
    count: u32,
) -> Result<Vec<u8>, AllocError>
    ensures text { IfOk result (λ text. text.items ≡ spec.memory_text ram.now address count) }
{
    let bytes = ram.bytes_from(address);
    bytes_text(alloc, first_bytes(bytes, count as usize))
}

/// So many bytes in front, or all if there are fewer.
pub(crate) fn first_bytes(bytes: &[u8], count: usize) -> &[u8]
    ensures front { result.now ≡ take count bytes.now }
{
    if count < bytes.len() {
        &bytes[..count]
    } else {
        bytes
    }
}

// The digits of bytes; a fault if there are none.
fn bytes_text(alloc: Global, bytes: &[u8]) -> Result<Vec<u8>, AllocError>
    ensures text { IfOk result (λ text. text.items ≡ spec.bytes_text bytes.now) }
{
    if bytes.is_empty() {
        return Vec::from_slice(alloc, b"E14");
    }
    let mut text = Vec::new(alloc);
    push_hex(&mut text, bytes)?;
    Ok(text)
}
