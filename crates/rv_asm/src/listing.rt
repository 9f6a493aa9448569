//! The listing of a text: what each line puts where.

ghost use Rattle.std.specs.Prelude.{ℕ, ◌≡◌, ◌≤◌, ◌++◌, List, length, IfOk, IfErr, OnOk};
ghost use Rattle.std.specs.List.{flat_map};
ghost use Rattle.asm_syntax.specs.Statements.{line_of};
ghost use Rattle.rv_asm.specs.Assembly.{IsFaultOf, Makes, assembly, lines_in};
ghost use Rattle.rv_asm.specs.CodeLabels.{found};
ghost use Rattle.rv_asm.specs.CodeLayouts.{seen_layout};
ghost use Rattle.rv_asm.specs.Layouts.{start, after};
ghost use Rattle.rv_asm.specs.Listings as spec;

use crate::assembler::assemble;
use crate::bytes::push_statement;
use crate::faults::AsmFault;
use crate::layouts::{Layout, lay_out};
use crate::rows::push_row;
use crate::sizes::is_code;
use asm_syntax::statement_in;
use std::alloc::{AllocError, Global};
use text_lines::first_line;

/// The listing of a text of at most 4294967294 bytes that is assembled: a row for each line that puts bytes, with its number, its
/// address and its bytes, instructions as words.
///
/// # Errors
/// As of `assemble`.
pub fn list(alloc: Global, text: &[u8]) -> Result<Vec<u8>, AsmFault>
    requires { length text.now ≤ 4294967294 }
    ensures assembles { IfOk result (λ _. (file : List ℕ) × (assembly text.now ≡ Makes file)) }
    ensures listed { IfOk result (λ rows. rows.items ≡ spec.listing text.now) }
    ensures fault { IfErr result (λ fault. IsFaultOf fault text.now) }
{
    let _file = assemble(alloc, text)?;
    let rows = list_text(alloc, text)?;
    Ok(rows)
}

// The listing of a text, whether it is assembled or not.
#[tactic(auto, unfolding(crate::specs::Listings::listed))]
fn list_text(alloc: Global, text: &[u8]) -> Result<Vec<u8>, AllocError>
    requires { length text.now ≤ 4294967294 }
    ensures listed { IfOk result (λ rows. rows.items ≡ spec.listing text.now) }
{
    let all = lay_out(alloc, text)?;
    list_lines(alloc, &all, text)
}

// The rows of the lines of a text, given what all of them set.
fn list_lines(alloc: Global, all: &Layout<'_>, text: &[u8]) -> Result<Vec<u8>, AllocError>
    requires { length text.now ≤ 4294967294 }
    ensures listed { IfOk result (λ rows. rows.items ≡ flat_map spec.row_text (spec.rows (found all.now.labels) 1 (lines_in text.now) start)) }
{
    let mut layout = Layout::new(alloc);
    let mut rows = Vec::new(alloc);
    let mut number = 0;
    let mut rest = text;
    while !rest.is_empty() {
        let (line, next) = first_line(rest);
        number += 1;
        list_line(alloc, &mut rows, all, number, line, &mut layout)?;
        rest = next;
    }
    Ok(rows)
}

// Appends the row of a line, and takes the line.
fn list_line<'a>(
    alloc: Global,
    rows: &mut Vec<u8>,
    all: &Layout<'_>,
    number: u32,
    line: &'a [u8],
    layout: &mut Layout<'a>,
) -> Result<(), AllocError>
    ensures layout { OnOk result (seen_layout layout.new ≡ after (line_of line.now) (seen_layout layout.old)) }
    ensures row { OnOk result (rows.new.items ≡ rows.old.items ++ spec.row_text (spec.row (found all.now.labels) number (line_of line.now) (seen_layout layout.old))) }
{
    let (_, rest) = layout.take_labels(line)?;
    let statement = statement_in(rest);
    let mut bytes = Vec::new(alloc);
    push_statement(&mut bytes, &all.labels, layout.at, &statement)?;
    push_row(
        rows,
        number,
        layout.at,
        is_code(&statement),
        bytes.as_slice(),
    )?;
    layout.take(&statement);
    Ok(())
}
