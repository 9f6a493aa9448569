//! The line that has a fault, and why.

ghost use Rattle.std.specs.Prelude.{◌≡◌, ◌≤◌, ◌+◌, [], ◌∷◌, length, is_some, IfOk, OnOk};
ghost use Rattle.std.specs.List.{list_any};
ghost use Rattle.std.specs.Str.{bytes_eq};
ghost use Rattle.text_lines.specs.Lines.{lines_of};
ghost use Rattle.asm_syntax.specs.Statements.{line_of};
ghost use Rattle.asm_syntax.specs.Tokens.{tokens_of};
ghost use Rattle.rv_asm.specs.Assembly.{lines_in};
ghost use Rattle.rv_asm.specs.CodeLabels.{found};
ghost use Rattle.rv_asm.specs.CodeLayouts.{seen_layout, seen_name};
ghost use Rattle.rv_asm.specs.Layouts.{start, after};
ghost use Rattle.fault_words.specs.CodeCauses.{seen_cause};
ghost use Rattle.fault_words.specs.Reasons as spec;

use crate::causes::Cause;
use crate::kinds::Kind;
use crate::statements::{bad_cause, excess_cause, unknown_cause};
use asm_syntax::{first_label, statement_in};
use rv_asm::{AsmFault, Layout, lay_out};
use std::alloc::{AllocError, Global};
use text_lines::first_line;

/// Why a text of at most 4294967294 bytes has a fault.
///
/// # Errors
/// Out of memory.
pub fn cause_of<'a>(alloc: Global, fault: AsmFault, text: &'a [u8]) -> Result<Cause<'a>, AllocError>
    requires { length text.now ≤ 4294967294 }
    ensures cause { IfOk result (λ cause. seen_cause cause ≡ spec.cause_of_fault fault text.now) }
{
    match fault {
        AsmFault::BadLine(k) => cause_at(alloc, k, Kind::Bad, text),
        AsmFault::DoubleLabel(k) => cause_at(alloc, k, Kind::Double, text),
        AsmFault::UnknownName(k) => cause_at(alloc, k, Kind::Unknown, text),
        AsmFault::OutOfRange(k) => cause_at(alloc, k, Kind::Excess, text),
        AsmFault::NoMemory => Ok(Cause::NoForm),
    }
}

// Why a line of a text is refused, by its number; line 0 is none.
#[tactic(auto, unfolding(crate::specs::Reasons::cause_at))]
fn cause_at<'a>(
    alloc: Global,
    number: u32,
    kind: Kind,
    text: &'a [u8],
) -> Result<Cause<'a>, AllocError>
    requires { length text.now ≤ 4294967294 }
    ensures cause { IfOk result (λ cause. seen_cause cause ≡ spec.cause_at number kind text.now) }
{
    if number == 0 {
        return Ok(Cause::NoContent);
    }
    let all = lay_out(alloc, text)?;
    cause_after(alloc, &all, number - 1, kind, text)
}

// Why the line after so many others is refused, given what all of them set.
fn cause_after<'a>(
    alloc: Global,
    all: &Layout<'_>,
    count: u32,
    kind: Kind,
    text: &'a [u8],
) -> Result<Cause<'a>, AllocError>
    requires { length text.now ≤ 4294967294 }
    ensures cause { IfOk result (λ cause. seen_cause cause ≡ spec.cause_after count kind (lines_in text.now) (found all.now.labels) (lines_of text.now) start) }
{
    let mut layout = Layout::new(alloc);
    let mut rest = text;
    let mut left = count;
    while !rest.is_empty() {
        let (line, next) = first_line(rest);
        if left == 0 {
            return cause_in(all, kind, text, line, &mut layout);
        }
        pass_line(&mut layout, line)?;
        left -= 1;
        rest = next;
    }
    Ok(Cause::NoContent)
}

// Takes a line.
fn pass_line<'a>(layout: &mut Layout<'a>, line: &'a [u8]) -> Result<(), AllocError>
    ensures layout { OnOk result (seen_layout layout.new ≡ after (line_of line.now) (seen_layout layout.old)) }
{
    let (_, rest) = layout.take_labels(line)?;
    layout.take(&statement_in(rest));
    Ok(())
}

// Why a line is refused, given all lines with what they set, and what the lines before it have set.
fn cause_in<'a>(
    all: &Layout<'_>,
    kind: Kind,
    text: &'a [u8],
    line: &'a [u8],
    layout: &mut Layout<'a>,
) -> Result<Cause<'a>, AllocError>
    requires { length text.now ≤ 4294967294 }
    ensures cause { IfOk result (λ cause. seen_cause cause ≡ spec.cause_of kind (lines_in text.now) (found all.now.labels) line.now (seen_layout layout.old)) }
{
    match kind {
        Kind::Double => double_in(text, line, layout),
        Kind::Bad => {
            let (_, rest) = layout.take_labels(line)?;
            Ok(bad_cause(&statement_in(rest), rest, layout))
        }
        Kind::Unknown => {
            let (_, rest) = layout.take_labels(line)?;
            Ok(unknown_cause(&statement_in(rest), rest))
        }
        Kind::Excess => {
            let (_, rest) = layout.take_labels(line)?;
            Ok(excess_cause(all, &statement_in(rest), rest, layout.at))
        }
    }
}

// Which label of a line is there twice, and on which line of a text first.
fn double_in<'a>(
    text: &'a [u8],
    line: &'a [u8],
    layout: &mut Layout<'a>,
) -> Result<Cause<'a>, AllocError>
    requires { length text.now ≤ 4294967294 }
    ensures cause { IfOk result (λ cause. seen_cause cause ≡ spec.double_cause (lines_in text.now) (spec.first_double (line_of line.now).labels layout.old.at (found layout.old.labels))) }
{
    match double_label(line, layout)? {
        Some(name) => Ok(Cause::LabelTwice(name, line_with(name, text))),
        None => Ok(Cause::NoForm),
    }
}

// The first label of a line that is a label already, or is there twice.
fn double_label<'a>(line: &'a [u8], layout: &mut Layout<'a>) -> Result<Option<&'a [u8]>, AllocError>
    ensures name { IfOk result (λ name. seen_name name ≡ spec.first_double (line_of line.now).labels layout.old.at (found layout.old.labels)) }
{
    let mut rest = line;
    while let Some((name, next)) = first_label(rest) {
        let is_known = layout.label(name)?;
        if is_known {
            return Ok(Some(name));
        }
        rest = next;
    }
    Ok(None)
}

// The number of the first line that begins with a label; 0 if there is none.
fn line_with(name: &[u8], text: &[u8]) -> u32
    requires { length text.now ≤ 4294967294 }
    ensures number { result ≡ spec.line_with name.now 1 (lines_in text.now) }
{
    let mut number = 0;
    let mut rest = text;
    while !rest.is_empty() {
        let (line, next) = first_line(rest);
        number += 1;
        if has_label(line, name) {
            return number;
        }
        rest = next;
    }
    0
}

// Whether a line begins with a label.
fn has_label(line: &[u8], name: &[u8]) -> bool
    ensures has { result ≡ list_any (λ label. bytes_eq name.now label) (line_of line.now).labels }
{
    let mut rest = line;
    while let Some((label, next)) = first_label(rest) {
        if name == label {
            return true;
        }
        rest = next;
    }
    false
}
