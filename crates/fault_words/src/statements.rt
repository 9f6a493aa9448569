//! Why a statement is refused.

ghost use Rattle.std.specs.Prelude.{◌≡◌, codes};
ghost use Rattle.asm_syntax.specs.CodeStatements.{seen_statement, IsProper};
ghost use Rattle.asm_syntax.specs.Statements.{said};
ghost use Rattle.asm_syntax.specs.Tokens.{tokens_of};
ghost use Rattle.rv_asm.specs.CodeLabels.{found};
ghost use Rattle.rv_asm.specs.CodeLayouts.{seen_layout};
ghost use Rattle.fault_words.specs.CodeCauses.{seen_cause};
ghost use Rattle.fault_words.specs.Reasons as spec;

use crate::answers::{form_cause, name_cause, number_cause};
use crate::causes::Cause;
use asm_syntax::{HeaderField, Statement};
use rv_asm::{Layout, address, is_code, is_excessive, size_at};

/// Why the line of a statement hasn't the form of any, given what is before it.
pub(crate) fn bad_cause<'a>(
    statement: &Statement<'a>,
    line: &'a [u8],
    layout: &Layout<'_>,
) -> Cause<'a>
    ensures cause { seen_cause result ≡ spec.bad_cause (seen_statement statement.now) (said (tokens_of line.now)) (seen_layout layout.now) }
{
    match statement {
        Statement::NameFor(field) => settled(*field, layout),
        Statement::NegativeFor(field) => settled(*field, layout),
        Statement::Place(_) => settled(HeaderField::PlaceField, layout),
        Statement::Priority(_) => settled(HeaderField::PriorityField, layout),
        Statement::Stack(_) => settled(HeaderField::StackField, layout),
        Statement::Entry(_) => Cause::Repeated(b".entry".as_slice()),
        _ => form_cause(line),
    }
}

// Why a directive that sets a field may not stand where it is.
fn settled(field: HeaderField, layout: &Layout<'_>) -> Cause<'static>
    ensures cause { seen_cause result ≡ spec.settled field (seen_layout layout.now) }
{
    match field {
        HeaderField::PlaceField => {
            if layout.place.is_some() {
                Cause::Repeated(b".place".as_slice())
            } else {
                Cause::Late
            }
        }
        HeaderField::PriorityField => Cause::Repeated(b".priority".as_slice()),
        HeaderField::StackField => Cause::Repeated(b".stack".as_slice()),
    }
}

/// Which name of a statement isn't known.
pub(crate) fn unknown_cause<'a>(statement: &Statement<'a>, line: &'a [u8]) -> Cause<'a>
    ensures cause { seen_cause result ≡ spec.unknown_cause (seen_statement statement.now) (said (tokens_of line.now)) }
{
    match statement {
        Statement::Branch { label, .. } => Cause::NoLabel(*label),
        Statement::JumpTo { label, .. } => Cause::NoLabel(*label),
        Statement::AddressOf { label, .. } => Cause::NoLabel(*label),
        Statement::WordAt(label) => Cause::NoLabel(*label),
        Statement::Entry(label) => Cause::NoLabel(*label),
        _ => name_cause(line),
    }
}

/// Which number of a statement doesn't fit, given what all lines set.
pub(crate) fn excess_cause<'a>(
    all: &Layout<'_>,
    statement: &Statement<'a>,
    line: &'a [u8],
    at: u64,
) -> Cause<'a>
    requires proper { IsProper statement.now }
    ensures cause { seen_cause result ≡ spec.excess_cause (found all.now.labels) (seen_statement statement.now) (said (tokens_of line.now)) at }
{
    if is_excessive(statement, at) {
        own_excess(statement, line, at)
    } else {
        astray_cause(all, statement, at)
    }
}

// Which number of a line by itself doesn't fit.
fn own_excess<'a>(statement: &Statement<'a>, line: &'a [u8], at: u64) -> Cause<'a>
    requires proper { IsProper statement.now }
    ensures cause { seen_cause result ≡ spec.own_excess (seen_statement statement.now) (said (tokens_of line.now)) at }
{
    match statement {
        Statement::Excessive
        | Statement::NegativeFor(_)
        | Statement::Place(_)
        | Statement::Priority(_)
        | Statement::Stack(_) => number_cause(line),
        _ => unput(statement, at),
    }
}

// Why a statement can't be put at an address.
fn unput(statement: &Statement<'_>, at: u64) -> Cause<'static>
    requires proper { IsProper statement.now }
    ensures cause { seen_cause result ≡ spec.unput (seen_statement statement.now) at }
{
    if is_code(statement) && at % 4 != 0 {
        Cause::Misaligned(at)
    } else {
        Cause::BeyondRam(at, size_at(at, statement))
    }
}

// Which label is too far away, or is no entry.
fn astray_cause<'a>(all: &Layout<'_>, statement: &Statement<'a>, at: u64) -> Cause<'a>
    ensures cause { seen_cause result ≡ spec.astray_cause (found all.now.labels) at (seen_statement statement.now) }
{
    match statement {
        Statement::Branch { label, .. } => Cause::Far(
            *label,
            at,
            address(&all.labels, label),
            4096,
        ),
        Statement::JumpTo { label, .. } => {
            Cause::Far(*label, at, address(&all.labels, label), 1_048_576)
        }
        Statement::Entry(label) => Cause::NoEntry(*label),
        _ => Cause::NoForm,
    }
}
