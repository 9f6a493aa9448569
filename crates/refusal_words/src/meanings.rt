//! What a refusal or another cause means, in words.

ghost use Rattle.std.specs.Prelude.{◌≡◌, ◌++◌, IfOk, OnOk};
ghost use Rattle.refusal_words.specs.Meanings as spec;

use crate::words_faults::{push_joined, push_words_fault};
use itoa::Buffer;
use run_inputs::{Cause, Refusal};
use std::alloc::{AllocError, Global};

/// What a cause means, in a line or two: what is wrong with the words of a command, which file can't be read or written, or what its
/// refusal means. It is empty for a cause whose own text says it. `usage` has the words of the command, which are shown if its arguments
/// are wrong.
///
/// # Errors
/// Out of memory.
pub fn meaning(alloc: Global, cause: Cause<'_>, usage: &str) -> Result<Vec<u8>, AllocError>
    ensures text { IfOk result (λ text. text.items ≡ spec.cause_meaning usage.now cause.entry) }
{
    let mut text = Vec::new(alloc);
    push_cause(&mut text, cause, usage)?;
    Ok(text)
}

// Appends what a cause means.
#[tactic(auto, unfolding(crate::specs::Meanings::cause_meaning))]
fn push_cause(text: &mut Vec<u8>, cause: Cause<'_>, usage: &str) -> Result<(), AllocError>
    ensures meaning { OnOk result (text.new.items ≡ text.old.items ++ spec.cause_meaning usage.now cause.entry) }
{
    match cause {
        Cause::Words(fault) => {
            push_words_fault(text, fault)?;
            push_meaning(text, Refusal::Usage, usage)
        }
        Cause::Unread(name) => push_joined(
            text,
            "the file ",
            name,
            " can't be read: is its name right?\n",
        ),
        Cause::Unwritten(name) => push_joined(
            text,
            "the file ",
            name,
            " can't be written: is its name right?\n",
        ),
        Cause::Refused(refusal) => push_meaning(text, refusal, usage),
    }
}

// Appends what a refusal means.
#[tactic(auto, unfolding(crate::specs::Meanings::meaning))]
fn push_meaning(text: &mut Vec<u8>, refusal: Refusal, usage: &str) -> Result<(), AllocError>
    ensures meaning { OnOk result (text.new.items ≡ text.old.items ++ spec.meaning usage.now refusal) }
{
    match refusal {
        Refusal::Usage => push_joined(text, "the words are ", usage, "\n"),
        Refusal::HostFault => text.extend_from_slice(b"the input or the output failed\n"),
        Refusal::Image { image, fault } => {
            push_numbered(text, "image ", image as u32, ": ", image_fault(fault))
        }
        Refusal::Schedule(line) => push_schedule_fault(text, line),
        Refusal::Disk { disk, block, rule } => push_disk_fault(text, disk, block, rule),
        Refusal::Overlap(image) => push_numbered(
            text,
            "image ",
            image as u32,
            " lies where an earlier one does",
            ": link it to another place",
        ),
        Refusal::NoRoom(image) => push_numbered(
            text,
            "the heap after the images has no room for the stack of image ",
            image as u32,
            "",
            "",
        ),
        Refusal::NoMemory
        | Refusal::Asm { .. }
        | Refusal::TraceTooLong
        | Refusal::NoSuchFile
        | Refusal::DoesNotFit => Ok(()),
    }
}

// Appends what the schedule is refused for at a line.
fn push_schedule_fault(text: &mut Vec<u8>, line: u32) -> Result<(), AllocError>
    ensures fault { OnOk result (text.new.items ≡ text.old.items ++ spec.schedule_fault line) }
{
    if line == 0 {
        return text.extend_from_slice(b"the schedule has over 4194304 bytes\n");
    }
    push_numbered(
        text,
        "line ",
        line,
        " of the schedule isn't one of its forms, or asks for too many events",
        "; a comment has a line of its own",
    )
}

// Appends what a disk is refused for.
fn push_disk_fault(text: &mut Vec<u8>, disk: u8, block: u32, rule: u8) -> Result<(), AllocError>
    ensures fault { OnOk result (text.new.items ≡ text.old.items ++ spec.disk_fault disk block rule) }
{
    if disk == 0 {
        return text.extend_from_slice(b"disk 0 isn't 8 to 65536 blocks of 512 bytes\n");
    }
    push_numbered(text, "disk 1, block ", block, ": ", disk_rule(rule))
}

// Appends a line with a number in it, and a reason after it.
fn push_numbered(
    text: &mut Vec<u8>,
    before: &str,
    number: u32,
    after: &str,
    reason: &str,
) -> Result<(), AllocError>
    ensures line { OnOk result (text.new.items ≡ text.old.items ++ spec.numbered before.now number after.now reason.now) }
{
    let mut digits = Buffer::new();
    text.extend_from_slice(before.as_bytes())?;
    text.extend_from_slice(digits.format(number).as_bytes())?;
    text.extend_from_slice(after.as_bytes())?;
    text.extend_from_slice(reason.as_bytes())?;
    text.extend_from_slice(b"\n")
}

// What is wrong with an image file, by the number of its fault.
#[tactic(auto, unfolding(crate::specs::Meanings::image_fault))]
fn image_fault(fault: u8) -> &'static str
    ensures fault { result.now ≡ spec.image_fault fault }
{
    match fault {
        0 => "the file has over 1048576 bytes",
        1 => "the file is shorter than a header",
        2 => "the file is neither an image nor an ELF file",
        3 => "the image has another version",
        4 => "header and content aren't the whole file",
        5 => "the image's place isn't a multiple of 4, or its content doesn't end in RAM",
        6 => "the image's entry isn't a word of its content",
        7 => "the image's priority isn't 1 to 32767",
        _ => elf_fault(fault),
    }
}

// What is wrong with an ELF file, by the number of its fault.
#[tactic(auto, unfolding(crate::specs::Meanings::elf_fault))]
fn elf_fault(fault: u8) -> &'static str
    ensures fault { result.now ≡ spec.elf_fault fault }
{
    match fault {
        11 => "the ELF file is shorter than a header",
        12 => "the ELF file isn't one of 32 bits: is it a program for the host?",
        13 => "the ELF file isn't a program, or not one for RISC-V",
        14 => "the headers of segments aren't in the ELF file",
        15 => "the ELF file names a program that loads it: link it statically",
        16 => "a segment of the ELF file isn't in RAM, or isn't in the file",
        17 => "the ELF file has over eight segments",
        18 => "two segments of the ELF file share an address",
        19 => "the entry isn't in a segment of the ELF file",
        20 => "the priority in the ELF file isn't 1 to 32767",
        _ => "the file has a fault",
    }
}

// The rule that a disk with files breaks.
#[tactic(auto, unfolding(crate::specs::Meanings::disk_rule))]
fn disk_rule(rule: u8) -> &'static str
    ensures rule { result.now ≡ spec.disk_rule rule }
{
    match rule {
        0 => "the file isn't whole blocks of 512 bytes, or not as many as its version allows",
        1 => "a name is empty or too long, or two files have one name",
        2 => "the number of files is wrong, or a byte outside the entries isn't zero",
        3 => "a file is longer than all data blocks",
        4 => "a number names no block, or one that its file doesn't need",
        5 => "an index block has the offset of another place",
        6 => "a block belongs to two places",
        7 => "a block belongs to no file and isn't free",
        _ => "a rule is broken",
    }
}
