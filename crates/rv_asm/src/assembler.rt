//! Texts assembled to image files.

ghost use Rattle.std.specs.Prelude.{◌≡◌, ◌≤◌, ◌++◌, true, length, is_some, Some, None, MatchResult, IfOk, OnOk};
ghost use Rattle.asm_syntax.specs.Statements.{word_bytes};
ghost use Rattle.image_loader.specs.ImageFiles.{image_in};
ghost use Rattle.rv_asm.specs.Assembly as spec;
ghost use Rattle.rv_asm.specs.CodeLayouts.{seen_layout};

use crate::faults::AsmFault;
use crate::judging::address;
use crate::layouts::{Layout, lay_out};
use crate::passes::{Pass, run_over};
use std::alloc::{AllocError, Global};

/// The version of image files.
const VERSION: u64 = 1;

/// The letters `XIMG`, as a word.
const MAGIC: u64 = 0x474d_4958;

/// Assembles a text of at most 4294967294 bytes to an image file.
///
/// The text is read line by line: labels, and an instruction or a directive, as docs/ASSEMBLER.md says. The file has one part, whose
/// content is the bytes of the lines one after another.
///
/// # Errors
/// A line has the first of these faults: `BadLine` if it hasn't the form of any line, or its directive is repeated or late;
/// `DoubleLabel` if a label has the name of an earlier one; `UnknownName` if a name isn't known, or is written in place of a number;
/// `OutOfRange` if a number doesn't fit, an instruction isn't at a multiple of 4, or the bytes leave RAM. The lowest line with a fault is
/// named. If there is none, the lowest line with a branch or a jump to a label that is too far, or with an entry outside the content, is
/// `OutOfRange`. If there is none either, a text whose content is too little for an image is `BadLine(0)`. `NoMemory` says nothing of the
/// text.
pub fn assemble(alloc: Global, text: &[u8]) -> Result<Vec<u8>, AsmFault>
    requires { length text.now ≤ 4294967294 }
    ensures assembled { MatchResult result (λ file. spec.assembly text.now ≡ spec.Makes file.items) (λ fault. spec.IsFaultOf fault text.now) }
    ensures loads { IfOk result (λ file. is_some (image_in file.items) ≡ true) }
{
    let all = lay_out(alloc, text)?;
    let pass = run_over(alloc, &all, text)?;
    finish(alloc, &all, &pass)
}

// The image file, if no offset or entry is at fault and there is content.
fn finish(alloc: Global, all: &Layout<'_>, pass: &Pass<'_>) -> Result<Vec<u8>, AsmFault>
    ensures ended { MatchResult result (λ file. spec.ended None pass.now.astray (spec.is_void (seen_layout all.now) (length pass.now.content.items)) (spec.image_file (spec.header (seen_layout all.now) (length pass.now.content.items)) pass.now.content.items) ≡ spec.Makes file.items) (λ fault. spec.IsFault fault (spec.ended None pass.now.astray (spec.is_void (seen_layout all.now) (length pass.now.content.items)) (spec.image_file (spec.header (seen_layout all.now) (length pass.now.content.items)) pass.now.content.items))) }
{
    if let Some(fault) = pass.astray {
        return Err(fault);
    }
    if is_void(all, pass.content.len()) {
        return Err(AsmFault::BadLine(0));
    }
    let file = image_file(alloc, all, pass.content.as_slice())?;
    Ok(file)
}

// Whether there is too little content for an image.
fn is_void(all: &Layout<'_>, size: usize) -> bool
    ensures void { result ≡ spec.is_void (seen_layout all.now) size }
{
    size == 0 || all.entry.is_none() && size < 4
}

// The image file with the header that all lines set and this content.
fn image_file(alloc: Global, all: &Layout<'_>, content: &[u8]) -> Result<Vec<u8>, AllocError>
    ensures file { IfOk result (λ file. file.items ≡ spec.image_file (spec.header (seen_layout all.now) (length content.now)) content.now) }
{
    let place = all.place.unwrap_or(0);
    let entry = match all.entry {
        Some(name) => address(&all.labels, name),
        None => place,
    };
    let mut file = Vec::new(alloc);
    push_number(&mut file, MAGIC)?;
    push_number(&mut file, VERSION)?;
    push_number(&mut file, place)?;
    push_number(&mut file, content.len() as u64)?;
    push_number(&mut file, entry)?;
    push_number(&mut file, all.priority.unwrap_or(20))?;
    push_number(&mut file, all.stack.unwrap_or(4096))?;
    file.extend_from_slice(content)?;
    Ok(file)
}

// Appends a number as a word, the lowest byte first.
fn push_number(file: &mut Vec<u8>, number: u64) -> Result<(), AllocError>
    ensures bytes { OnOk result (file.new.items ≡ file.old.items ++ word_bytes number) }
{
    file.extend_from_slice(&[
        (number % 256) as u8,
        (number / 256 % 256) as u8,
        (number / 65536 % 256) as u8,
        (number / 16_777_216 % 256) as u8,
    ])
}
