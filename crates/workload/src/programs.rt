//! The programs, as image files.

ghost use Rattle.std.specs.Prelude.{◌≡◌, ◌+◌, ◌*◌, ◌%◌, ◌≤◌, ◌<◌, ◌++◌, length, Some, IfOk, OnOk};
ghost use Rattle.std.specs.List.{flat_map};
ghost use Rattle.asm_syntax.specs.Statements.{word_bytes};
ghost use Rattle.image_loader.specs.ImageFiles.{image_in};
ghost use Rattle.workload.specs.Groups.{groups, after_groups};
ghost use Rattle.workload.specs.Programs as spec;

use crate::draws::Draws;
use crate::groups::push_group;
use rv_isa::{Form, word_with};
use std::alloc::{AllocError, Global};
use xinu_base::NoMemory;

/// How many groups a program has.
const GROUPS: u32 = 64;
/// How many addresses there are from one program to the next.
const DISTANCE: u32 = 32_768;
/// The letters `XIMG`, the first in the lowest byte.
const MAGIC: u32 = 0x474D_4958;

/// The image file of program `number`, which is 1 to 4. It loads as the program that is drawn; what is drawn next comes after it.
///
/// # Errors
/// `NoMemory`.
pub fn program_file(alloc: Global, number: u8, draws: &mut Draws) -> Result<Vec<u8>, NoMemory>
    requires some { 1 ≤ number }
    requires few { number ≤ 4 }
    ensures loads { IfOk result (λ file. image_in file.items ≡ Some (spec.program number draws.old)) }
    ensures draws { OnOk result (draws.new ≡ spec.after_program number draws.old) }
{
    match make_file(alloc, number, draws) {
        Ok(file) => Ok(file),
        Err(_) => Err(NoMemory),
    }
}

// The image file of a program.
fn make_file(alloc: Global, number: u8, draws: &mut Draws) -> Result<Vec<u8>, AllocError>
    requires some { 1 ≤ number }
    requires few { number ≤ 4 }
    ensures loads { IfOk result (λ file. image_in file.items ≡ Some (spec.program number draws.old)) }
    ensures draws { OnOk result (draws.new ≡ spec.after_program number draws.old) }
{
    let place = DISTANCE * (number as u32 - 1);
    let words = instructions(alloc, place, kinds_of(number), draws)?;
    let content = content_of(alloc, number, words.as_slice())?;
    image_file(alloc, place, content.as_slice())
}

// How many of the shapes the groups of a program are drawn from.
fn kinds_of(number: u8) -> u32
    ensures kinds { result ≡ spec.kinds_of number }
    ensures some { 0 < result }
    ensures few { result ≤ 16 }
{
    if number == 1 { 10 } else { 16 }
}

// The instructions of a program: its groups, and a jump back to the first of them.
fn instructions(
    alloc: Global,
    place: u32,
    kinds: u32,
    draws: &mut Draws,
) -> Result<Vec<u32>, AllocError>
    requires some { 0 < kinds }
    requires few { kinds ≤ 16 }
    requires low { place < 1048576 }
    ensures words { IfOk result (λ words. words.items ≡ spec.repeated (groups place kinds 64 draws.old)) }
    ensures draws { OnOk result (draws.new ≡ after_groups kinds 64 draws.old) }
    ensures size { IfOk result (λ words. length words.items ≤ 513) }
{
    let mut words = Vec::new(alloc);
    for _ in 0..GROUPS {
        push_group(&mut words, place, kinds, draws)?;
    }
    let back = (4_294_967_296 - 4 * words.len() as u64) % 4_294_967_296;
    words.push(word_with(0x6f, Form::J, 0, 0, 0, back as u32))?;
    Ok(words)
}

// The bytes of a program: its texts, and its instructions.
fn content_of(alloc: Global, number: u8, words: &[u32]) -> Result<Vec<u8>, AllocError>
    requires few { number ≤ 4 }
    ensures bytes { IfOk result (λ bytes. bytes.items ≡ spec.texts number ++ flat_map word_bytes words.now) }
    ensures size { IfOk result (λ bytes. length bytes.items ≡ 8 + 4 * length words.now) }
{
    let mut bytes = Vec::new(alloc);
    bytes.extend_from_slice(&[96 + number, 0, 0, 0, b'r', b'w', 0, 0])?;
    for word in words {
        push_word(&mut bytes, *word)?;
    }
    Ok(bytes)
}

// The image file of a program at this place with these bytes.
fn image_file(alloc: Global, place: u32, content: &[u8]) -> Result<Vec<u8>, AllocError>
    requires aligned { place % 4 ≡ 0 }
    requires entry { 12 ≤ length content.now }
    requires in_ram { place + length content.now ≤ 1048576 }
    ensures loads { IfOk result (λ file. image_in file.items ≡ Some (spec.program_at place content.now)) }
{
    let mut file = Vec::new(alloc);
    push_word(&mut file, MAGIC)?;
    push_word(&mut file, 1)?;
    push_word(&mut file, place)?;
    push_word(&mut file, content.len() as u32)?;
    push_word(&mut file, place + 8)?;
    push_word(&mut file, 20)?;
    push_word(&mut file, 4096)?;
    file.extend_from_slice(content)?;
    Ok(file)
}

// Appends the bytes of a word, the lowest first.
fn push_word(bytes: &mut Vec<u8>, word: u32) -> Result<(), AllocError>
    ensures bytes { OnOk result (bytes.new.items ≡ bytes.old.items ++ word_bytes word) }
{
    bytes.extend_from_slice(&[
        (word % 256) as u8,
        (word / 256 % 256) as u8,
        (word / 65_536 % 256) as u8,
        (word / 16_777_216 % 256) as u8,
    ])
}
