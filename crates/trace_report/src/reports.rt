//! What is told of a text, by what was found of it.

ghost use Rattle.std.specs.Prelude.{◌≡◌, ◌≤◌, ◌++◌, OnOk, IfOk, length};
ghost use Rattle.trace_report.specs.Reports as spec;

use crate::events::push_when;
use crate::quotes::{push_found, push_numbered, push_quoted};
use std::alloc::{AllocError, Global};
use trace_places::{Mistake, When};
use transcript::render;
use xinu_base::TranscriptLine;

/// The text that tells what was found of a text of at most 64 MiB: `yes`, or the line where it goes wrong.
///
/// # Errors
/// Out of memory.
pub fn report(
    alloc: Global,
    text: &[u8],
    found: &Option<Mistake<'_>>,
) -> Result<Vec<u8>, AllocError>
    requires few { length text.now ≤ 67108864 }
    ensures text { IfOk result (λ told. told.items ≡ spec.report text.now found.now) }
{
    let mut told = Vec::new(alloc);
    match found {
        None => told.extend_from_slice(b"yes\n")?,
        Some(mistake) => push_mistake(&mut told, text, mistake)?,
    }
    Ok(told)
}

// Appends the line that tells where a text goes wrong.
fn push_mistake(told: &mut Vec<u8>, text: &[u8], mistake: &Mistake<'_>) -> Result<(), AllocError>
    requires few { length text.now ≤ 67108864 }
    ensures mistake { OnOk result (told.new.items ≡ told.old.items ++ spec.mistake_line text.now mistake.now) }
{
    push_numbered(told, "line ", line_number(text, mistake.left))?;
    told.extend_from_slice(b": the text ")?;
    push_found(told, mistake.left)?;
    push_due(told, &mistake.due, &mistake.when)?;
    told.extend_from_slice(b"\n")
}

// The number of the line with which the rest of a text begins, counted from 1.
fn line_number(text: &[u8], rest: &[u8]) -> u64
    requires few { length text.now ≤ 67108864 }
    ensures number { result ≡ spec.line_number text.now rest.now }
{
    let read = text.len().saturating_sub(rest.len());
    1 + line_feeds(&text[..read]) as u64
}

// How many line feeds there are.
fn line_feeds(bytes: &[u8]) -> usize
    ensures feeds { result ≡ spec.line_feeds bytes.now }
    ensures few { result ≤ length bytes.now }
{
    bytes.iter().filter(|b| **b == b'\n').count()
}

// Appends what a run has there, and when.
#[tactic(auto, unfolding(crate::specs::Reports::due_text))]
fn push_due(told: &mut Vec<u8>, due: &Option<TranscriptLine>, when: &When) -> Result<(), AllocError>
    ensures due { OnOk result (told.new.items ≡ told.old.items ++ spec.due_text due.now when.now) }
{
    match due {
        None => told.extend_from_slice(b"; the run has ended"),
        Some(line) => push_due_line(told, render(line).bytes(), when),
    }
}

// Appends a line that is due, and when a run prints it.
#[tactic(auto, unfolding(crate::specs::Reports::due_line))]
fn push_due_line(told: &mut Vec<u8>, line: &[u8], when: &When) -> Result<(), AllocError>
    ensures line { OnOk result (told.new.items ≡ told.old.items ++ spec.due_line line.now when.now) }
{
    told.extend_from_slice(b"; a run has ")?;
    push_quoted(told, line)?;
    push_when(told, when)
}
