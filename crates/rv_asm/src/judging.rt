//! The faults of a line.

ghost use Rattle.std.specs.Prelude.{◌≡◌, ◌≤◌, ◌+◌, ◌-ℤ◌, ◌&&◌, ◌%◌, ◌==◌, nat_le, nat_lt, pos, Option, Some, None};
ghost use Rattle.asm_syntax.specs.CodeStatements.{seen_statement, IsProper};
ghost use Rattle.asm_syntax.specs.Statements.{word_of};
ghost use Rattle.rv_asm.specs.CodeLabels.{found};
ghost use Rattle.rv_asm.specs.CodeLayouts.{seen_layout};
ghost use Rattle.rv_asm.specs.Faults as spec;

use crate::faults::AsmFault;
use crate::labels::Labels;
use crate::layouts::Layout;
use crate::sizes::{is_code, size_at};
use asm_syntax::{HeaderField, Statement};

/// How many bytes RAM has.
const RAM: u64 = 0x10_0000;

/// The first fault of a line by itself, after its labels, one of which may have been there already.
pub(crate) fn fault_in(
    labels: &Labels<'_>,
    number: u32,
    statement: &Statement<'_>,
    double: bool,
    layout: &Layout<'_>,
) -> Option<AsmFault>
    requires proper { IsProper statement.now }
    ensures fault { result ≡ spec.fault_by (spec.is_bad (seen_statement statement.now) (seen_layout layout.now)) double (spec.is_unknown (found labels.now) (seen_statement statement.now)) (spec.is_excessive (seen_statement statement.now) layout.now.at) number }
{
    if is_bad(statement, layout) {
        Some(AsmFault::BadLine(number))
    } else if double {
        Some(AsmFault::DoubleLabel(number))
    } else if is_unknown(labels, statement) {
        Some(AsmFault::UnknownName(number))
    } else if is_excessive(statement, layout.at) {
        Some(AsmFault::OutOfRange(number))
    } else {
        None
    }
}

// Whether a statement hasn't the form, or is a directive that is repeated or late, whatever its operand is.
fn is_bad(statement: &Statement<'_>, layout: &Layout<'_>) -> bool
    ensures bad { result ≡ spec.is_bad (seen_statement statement.now) (seen_layout layout.now) }
{
    match statement {
        Statement::Malformed => true,
        Statement::NameFor(field) | Statement::NegativeFor(field) => is_settled(*field, layout),
        Statement::Place(_) => is_settled(HeaderField::PlaceField, layout),
        Statement::Entry(_) => layout.entry.is_some(),
        Statement::Priority(_) => is_settled(HeaderField::PriorityField, layout),
        Statement::Stack(_) => is_settled(HeaderField::StackField, layout),
        _ => false,
    }
}

// Whether a directive that sets a field is repeated, or is a `.place` after a label or content.
fn is_settled(field: HeaderField, layout: &Layout<'_>) -> bool
    ensures settled { result ≡ spec.is_settled field (seen_layout layout.now) }
{
    match field {
        HeaderField::PlaceField => layout.place.is_some() || layout.begun,
        HeaderField::PriorityField => layout.priority.is_some(),
        HeaderField::StackField => layout.stack.is_some(),
    }
}

// Whether a statement has a name that isn't known.
fn is_unknown(labels: &Labels<'_>, statement: &Statement<'_>) -> bool
    ensures unknown { result ≡ spec.is_unknown (found labels.now) (seen_statement statement.now) }
{
    match statement {
        Statement::Unresolved | Statement::NameFor(_) => true,
        Statement::Branch { label, .. } => labels.address(label).is_none(),
        Statement::JumpTo { label, .. } => labels.address(label).is_none(),
        Statement::AddressOf { label, .. } => labels.address(label).is_none(),
        Statement::WordAt(label) => labels.address(label).is_none(),
        Statement::Entry(label) => labels.address(label).is_none(),
        _ => false,
    }
}

/// Whether a number doesn't fit, or what a statement puts can't be put at an address. The statement is a proper one, as a line has it.
pub fn is_excessive(statement: &Statement<'_>, at: u64) -> bool
    requires proper { IsProper statement.now }
    ensures excessive { result ≡ spec.is_excessive (seen_statement statement.now) at }
{
    match statement {
        Statement::Excessive | Statement::NegativeFor(_) => true,
        Statement::Place(n) => !(*n % 4 == 0 && *n <= RAM),
        Statement::Priority(n) => !(1 <= *n && *n <= 32767),
        Statement::Stack(n) => *n > 0xffff_ffff,
        _ => {
            let size = size_at(at, statement);
            leaves_ram(at, size) || is_code(statement) && at % 4 != 0
        }
    }
}

// Whether so many bytes at an address, if there are any, leave RAM.
fn leaves_ram(at: u64, size: u64) -> bool
    ensures leaves { result ≡ (nat_lt 0 size && nat_lt 1048576 (at + size)) }
{
    0 < size && RAM < at.saturating_add(size)
}

/// Whether an offset or an entry that a label gives doesn't fit, if the content goes from a place to an end.
pub(crate) fn is_astray(
    labels: &Labels<'_>,
    place: u64,
    end: u64,
    at: u64,
    statement: &Statement<'_>,
) -> bool
    ensures astray { result ≡ spec.is_astray (found labels.now) place end at (seen_statement statement.now) }
{
    match statement {
        Statement::Branch { label, .. } => is_far(at, address(labels, label), 4096),
        Statement::JumpTo { label, .. } => is_far(at, address(labels, label), 1_048_576),
        Statement::Entry(label) => {
            let entry = address(labels, label);
            !is_entry(place, end, entry)
        }
        _ => false,
    }
}

// Whether an address is that of a word of the content.
fn is_entry(place: u64, end: u64, entry: u64) -> bool
    ensures entry { result ≡ ((entry % 4 == 0) && nat_le place entry && nat_le (entry + 4) end) }
{
    entry % 4 == 0 && place <= entry && entry <= end && 4 <= end - entry
}

/// The address of a label that is there.
pub fn address(labels: &Labels<'_>, name: &[u8]) -> u64
    ensures address { result ≡ spec.address (found labels.now) name.now }
{
    labels.address(name).unwrap_or(0)
}

// Whether the way from one address to another is odd, or isn't from -reach to reach - 2.
fn is_far(from: u64, to: u64, reach: u64) -> bool
    requires low { 2 ≤ reach }
    requires high { reach ≤ 1048576 }
    ensures far { result ≡ spec.is_far (pos to -ℤ pos from) reach }
{
    if from <= to {
        let forward = to - from;
        !(forward <= reach - 2 && forward % 2 == 0)
    } else {
        let back = from - to;
        !(back <= reach && back % 2 == 0)
    }
}

/// The way from one address to another, as a word in two's complement.
pub(crate) fn offset_word(from: u64, to: u64) -> u32
    ensures word { result ≡ word_of (pos to -ℤ pos from) }
{
    if from <= to {
        ((to - from) % 0x1_0000_0000) as u32
    } else {
        (0xffff_ffff - (from - to - 1) % 0x1_0000_0000) as u32
    }
}

/// The address of a label as a word.
pub(crate) fn address_word(labels: &Labels<'_>, name: &[u8]) -> u32
    ensures word { result ≡ word_of (pos (spec.address (found labels.now) name.now)) }
{
    (address(labels, name) % 0x1_0000_0000) as u32
}
