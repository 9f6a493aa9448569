//! Causes as text.

ghost use Rattle.std.specs.Prelude.{◌≡◌, ◌≤◌, ◌++◌, ◌-ℤ◌, pos, length, map, IfOk, OnOk};
ghost use Rattle.std.specs.Fmt.{decimal, signed_decimal};
ghost use Rattle.fault_words.specs.CodeCauses.{seen_cause, seen_slot};
ghost use Rattle.fault_words.specs.Texts as spec;

use crate::causes::Cause;
use crate::lines::cause_of;
use crate::slots::{Slot, slots_of};
use itoa::Buffer;
use rv_asm::AsmFault;
use std::alloc::{AllocError, Global};

/// The line that says a fault of a text of at most 4294967294 bytes in words.
///
/// # Errors
/// Out of memory.
pub fn tell_fault(alloc: Global, fault: AsmFault, text: &[u8]) -> Result<Vec<u8>, AllocError>
    requires { length text.now ≤ 4294967294 }
    ensures told { IfOk result (λ line. line.items ≡ spec.told fault text.now) }
{
    let cause = cause_of(alloc, fault, text)?;
    let mut line = Vec::new(alloc);
    push_line(&mut line, line_of_fault(fault), cause)?;
    Ok(line)
}

// The number of the line of a fault.
fn line_of_fault(fault: AsmFault) -> u32
    ensures number { result ≡ spec.line_of_fault fault }
{
    match fault {
        AsmFault::BadLine(k)
        | AsmFault::DoubleLabel(k)
        | AsmFault::UnknownName(k)
        | AsmFault::OutOfRange(k) => k,
        AsmFault::NoMemory => 0,
    }
}

// Appends the line that says a cause, after the number of the line that has it.
fn push_line(line: &mut Vec<u8>, number: u32, cause: Cause<'_>) -> Result<(), AllocError>
    ensures told { OnOk result (line.new.items ≡ line.old.items ++ spec.told_line number (spec.cause_text (seen_cause cause.entry))) }
{
    if number != 0 {
        line.extend_from_slice(b"line ")?;
        push_number(line, number as u64)?;
        line.extend_from_slice(b": ")?;
    }
    push_cause(line, cause)?;
    line.extend_from_slice(b"\n")
}

// Appends a cause.
#[tactic(auto, unfolding(crate::specs::Texts::cause_text))]
fn push_cause(line: &mut Vec<u8>, cause: Cause<'_>) -> Result<(), AllocError>
    ensures cause { OnOk result (line.new.items ≡ line.old.items ++ spec.cause_text (seen_cause cause.entry)) }
{
    match cause {
        Cause::NoContent => push_text(
            line,
            "there is too little content: without .entry the process begins at its first word",
        ),
        Cause::NoForm => push_text(
            line,
            "that is no instruction or directive with operands between commas",
        ),
        Cause::Takes(word, meaning) => push_slots(line, word, slots_of(meaning)),
        Cause::Repeated(word) => push_around(line, "", word, " is there twice"),
        Cause::Late => { push_text(line, ".place comes before labels, instructions and content") }
        Cause::LabelTwice(label, first) => push_label_twice(line, label, first),
        Cause::NoWord(word) => push_around(
            line,
            "there is no instruction or directive named ",
            word,
            "",
        ),
        Cause::NoRegister(name) => push_around(line, "there is no register named ", name, ""),
        Cause::NoCall(name) => push_around(line, "there is no call named ", name, ""),
        Cause::NoLabel(name) => push_around(line, "there is no label named ", name, ""),
        Cause::NameForNumber(name) => {
            push_around(line, "", name, " is a name where a number has to be")
        }
        Cause::NameForOffset => push_text(
            line,
            "a name is where the number before the parentheses has to be",
        ),
        Cause::Exceeds(number, low, high) => push_limits(line, number, low, high),
        Cause::NoPlace(number) => push_no_place(line, number),
        Cause::Misaligned(at) => push_misaligned(line, at),
        Cause::BeyondRam(at, size) => push_beyond(line, at, size),
        Cause::Far(label, from, to, reach) => push_far(line, label, from, to, reach),
        Cause::NoEntry(label) => push_around(
            line,
            "the label ",
            label,
            " is no word of the content, at a multiple of 4",
        ),
    }
}

// Appends a word in a sentence.
fn push_around(line: &mut Vec<u8>, before: &str, word: &[u8], after: &str) -> Result<(), AllocError>
    ensures around { OnOk result (line.new.items ≡ line.old.items ++ spec.around before.now word.now after.now) }
{
    line.extend_from_slice(before.as_bytes())?;
    line.extend_from_slice(word)?;
    line.extend_from_slice(after.as_bytes())
}

// Appends a text.
fn push_text(line: &mut Vec<u8>, text: &str) -> Result<(), AllocError>
    ensures text { OnOk result (line.new.items ≡ line.old.items ++ text.now) }
{
    line.extend_from_slice(text.as_bytes())
}

// Appends a number.
fn push_number(line: &mut Vec<u8>, number: u64) -> Result<(), AllocError>
    ensures number { OnOk result (line.new.items ≡ line.old.items ++ decimal number) }
{
    let mut digits = Buffer::new();
    line.extend_from_slice(digits.format(number).as_bytes())
}

// Appends a number that may be negative, after a text.
#[tactic(auto, unfolding(crate::specs::Texts::signed_after))]
fn push_signed(line: &mut Vec<u8>, before: &str, number: i64) -> Result<(), AllocError>
    ensures number { OnOk result (line.new.items ≡ line.old.items ++ spec.signed_after before.now number) }
{
    let mut digits = Buffer::new();
    line.extend_from_slice(before.as_bytes())?;
    line.extend_from_slice(digits.format(number).as_bytes())
}

// Appends a number between two texts.
fn push_numbered(
    line: &mut Vec<u8>,
    before: &str,
    number: u64,
    after: &str,
) -> Result<(), AllocError>
    ensures number { OnOk result (line.new.items ≡ line.old.items ++ spec.around before.now (decimal number) after.now) }
{
    line.extend_from_slice(before.as_bytes())?;
    push_number(line, number)?;
    line.extend_from_slice(after.as_bytes())
}

// Appends how far it is from one address to another.
fn push_way(line: &mut Vec<u8>, from: u64, to: u64) -> Result<(), AllocError>
    ensures way { OnOk result (line.new.items ≡ line.old.items ++ signed_decimal (pos to -ℤ pos from)) }
{
    if from <= to {
        push_number(line, to - from)
    } else {
        line.extend_from_slice(b"-")?;
        push_number(line, from - to)
    }
}

// Appends a number of a source, of which those of a magnitude of 4294967296 or more are read as one.
#[tactic(auto, unfolding(crate::specs::Texts::number_text))]
fn push_read(line: &mut Vec<u8>, number: i64) -> Result<(), AllocError>
    ensures number { OnOk result (line.new.items ≡ line.old.items ++ spec.number_text number) }
{
    if 4_294_967_296 <= number {
        line.extend_from_slice(b"a number over 4294967295")
    } else if number <= -4_294_967_296 {
        push_text(line, "a number under -4294967295")
    } else {
        let mut digits = Buffer::new();
        line.extend_from_slice(digits.format(number).as_bytes())
    }
}

// Appends what a word takes.
fn push_slots(line: &mut Vec<u8>, word: &[u8], slots: &[Slot]) -> Result<(), AllocError>
    ensures slots { OnOk result (line.new.items ≡ line.old.items ++ spec.takes_text word.now (map seen_slot slots.now)) }
{
    line.extend_from_slice(word)?;
    line.extend_from_slice(b" takes ")?;
    push_places(line, slots)
}

// Appends what has to be written in some places.
fn push_places(line: &mut Vec<u8>, slots: &[Slot]) -> Result<(), AllocError>
    ensures slots { OnOk result (line.new.items ≡ line.old.items ++ spec.slots_text (map seen_slot slots.now)) }
{
    match slots {
        [] => line.extend_from_slice(b"nothing"),
        [slot, more @ ..] => {
            line.extend_from_slice(slot_text(*slot).as_bytes())?;
            push_more(line, more)
        }
    }
}

// Appends what a word takes besides.
fn push_more(line: &mut Vec<u8>, slots: &[Slot]) -> Result<(), AllocError>
    ensures slots { OnOk result (line.new.items ≡ line.old.items ++ spec.more_slots (map seen_slot slots.now)) }
{
    let mut rest = slots;
    while let [slot, more @ ..] = rest {
        line.extend_from_slice(b", ")?;
        line.extend_from_slice(slot_text(*slot).as_bytes())?;
        rest = more;
    }
    Ok(())
}

// What has to be written in a place.
fn slot_text(slot: Slot) -> &'static str
    ensures text { result.now ≡ spec.slot_text (seen_slot slot) }
{
    match slot {
        Slot::Register => "a register",
        Slot::Number => "a number",
        Slot::Offset => "a number and a register in parentheses",
        Slot::Label => "a label",
        Slot::Call => "a call",
        Slot::Text => "a text in quotes",
        Slot::Word => "a number or a label",
    }
}

// Appends that a label is there twice.
fn push_label_twice(line: &mut Vec<u8>, label: &[u8], first: u32) -> Result<(), AllocError>
    ensures twice { OnOk result (line.new.items ≡ line.old.items ++ spec.twice_text label.now first) }
{
    line.extend_from_slice(b"the label ")?;
    line.extend_from_slice(label)?;
    push_text(line, " is there twice, first at line ")?;
    push_number(line, first as u64)
}

// Appends that a number isn't between two others.
fn push_limits(line: &mut Vec<u8>, number: i64, low: i64, high: i64) -> Result<(), AllocError>
    ensures limits { OnOk result (line.new.items ≡ line.old.items ++ spec.limits_text number low high) }
{
    push_read(line, number)?;
    push_range(line, low, high)
}

// Appends the numbers between which one isn't.
fn push_range(line: &mut Vec<u8>, low: i64, high: i64) -> Result<(), AllocError>
    ensures range { OnOk result (line.new.items ≡ line.old.items ++ spec.range_text low high) }
{
    push_signed(line, " doesn't fit: ", low)?;
    push_signed(line, " to ", high)
}

// Appends that a number is no place.
fn push_no_place(line: &mut Vec<u8>, number: i64) -> Result<(), AllocError>
    ensures place { OnOk result (line.new.items ≡ line.old.items ++ spec.place_text number) }
{
    push_read(line, number)?;
    push_text(
        line,
        " is no place: it is a multiple of 4 from 0 to 1048576",
    )
}

// Appends where an instruction is that isn't at a multiple of 4.
fn push_misaligned(line: &mut Vec<u8>, at: u64) -> Result<(), AllocError>
    ensures misaligned { OnOk result (line.new.items ≡ line.old.items ++ spec.misaligned_text at) }
{
    push_numbered(
        line,
        "the instruction is at ",
        at,
        ", not at a multiple of 4: write .align before it",
    )
}

// Appends that bytes don't fit RAM.
fn push_beyond(line: &mut Vec<u8>, at: u64, size: u64) -> Result<(), AllocError>
    ensures beyond { OnOk result (line.new.items ≡ line.old.items ++ spec.beyond_text at size) }
{
    push_number(line, size)?;
    line.extend_from_slice(b" bytes at ")?;
    push_number(line, at)?;
    push_text(line, " don't fit RAM, which ends at 1048576")
}

// Appends that a label is too far away.
fn push_far(
    line: &mut Vec<u8>,
    label: &[u8],
    from: u64,
    to: u64,
    reach: u64,
) -> Result<(), AllocError>
    ensures far { OnOk result (line.new.items ≡ line.old.items ++ spec.far_text label.now (pos to -ℤ pos from) reach) }
{
    line.extend_from_slice(b"the label ")?;
    line.extend_from_slice(label)?;
    line.extend_from_slice(b" is ")?;
    push_way(line, from, to)?;
    push_text(line, " bytes away, not an even number from -")?;
    push_number(line, reach)?;
    line.extend_from_slice(b" to ")?;
    push_number(line, reach.saturating_sub(2))
}
