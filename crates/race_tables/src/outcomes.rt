//! The outcome of a run, which is taken from what the run printed.

ghost use Rattle.std.specs.Prelude.{◌≡◌, ◌↔◌, ◌++◌, ◌&&◌, not, true, bytes_eq, IfOk, OnOk};
ghost use Rattle.race_tables.specs.Outcomes as spec;
ghost use Rattle.text_lines.specs.Lines.{tokens_of};

use std::alloc::{AllocError, Global};
use std::marker::Model;
use text_lines::{first_line, first_token};
use xinu_base::{End, NoMemory};

/// What one sees of a run. A clause sees the bytes.
#[derive(Drop)]
pub struct Outcome {
    console: Vec<u8>,
    traps: Vec<u8>,
    left: Vec<u8>,
    end: End,
}

impl Model for Outcome {
    ghost use Rattle.race_tables.specs.Outcomes as seen;

    ghost Value = { seen.Outcome };

    ghost view = { λ o. record { console = o.console.items; traps = o.traps.items; left = o.left.items; end = o.end } };
}

impl Outcome {
    /// The outcome of a run that printed this text, left these tables and ended so.
    ///
    /// # Errors
    /// `NoMemory`.
    pub fn new(alloc: Global, printed: &[u8], tables: &[u8], end: End) -> Result<Outcome, NoMemory>
        ensures outcome { IfOk result (λ o. o ≡ spec.outcome_in printed.now tables.now end) }
    {
        match outcome_of(alloc, printed, tables, end) {
            Ok(outcome) => Ok(outcome),
            Err(_) => Err(NoMemory),
        }
    }

    /// The lines of the bytes that the console sent.
    pub fn console(&self) -> &[u8]
        ensures console { result.now ≡ self.now.console }
    {
        &self.console
    }

    /// The lines of the traps.
    pub fn traps(&self) -> &[u8]
        ensures traps { result.now ≡ self.now.traps }
    {
        &self.traps
    }

    /// The lines of the processes that are left, the null process apart, and of those that wait for a semaphore.
    pub fn left(&self) -> &[u8]
        ensures left { result.now ≡ self.now.left }
    {
        &self.left
    }

    /// How the run ended.
    pub fn end(&self) -> End
        ensures end { result ≡ self.now.end }
    {
        self.end
    }

    /// Whether this outcome and another one are equal.
    pub fn equals(&self, other: &Outcome) -> bool
        ensures test { result ≡ spec.are_equal self.now other.now }
        ensures equal { (result ≡ true) ↔ (self.now ≡ other.now) }
    {
        are_equal(self, other)
    }
}

// Whether two outcomes are equal.
#[tactic(auto, unfolding(crate::specs::Outcomes::are_equal))]
fn are_equal(one: &Outcome, other: &Outcome) -> bool
    ensures test { result ≡ spec.are_equal one.now other.now }
{
    are_same(one.console(), other.console())
        && (are_same(one.traps(), other.traps())
            && (are_same(one.left(), other.left()) && ended_alike(one.end(), other.end())))
}

// Whether bytes are equal.
fn are_same(one: &[u8], other: &[u8]) -> bool
    ensures same { result ≡ bytes_eq one.now other.now }
{
    one == other
}

// Whether two runs ended alike.
fn ended_alike(one: End, other: End) -> bool
    ensures alike { result ≡ spec.ended_alike one other }
{
    match one {
        End::Schedule => matches!(other, End::Schedule),
        End::Done => matches!(other, End::Done),
        End::Panic => matches!(other, End::Panic),
    }
}

// The outcome of a run that printed this text, left these tables and ended so.
fn outcome_of(alloc: Global, printed: &[u8], tables: &[u8], end: End) -> Result<Outcome, AllocError>
    ensures outcome { IfOk result (λ o. o ≡ spec.outcome_in printed.now tables.now end) }
{
    let console = kept(alloc, printed, b"con")?;
    let traps = kept(alloc, printed, b"trap")?;
    let mut left = kept(alloc, tables, b"proc")?;
    push_kept(&mut left, tables, b"wait")?;
    Ok(Outcome {
        console,
        traps,
        left,
        end,
    })
}

// The lines of a text that begin with this word, but that of the null process.
fn kept(alloc: Global, text: &[u8], word: &[u8]) -> Result<Vec<u8>, AllocError>
    ensures kept { IfOk result (λ lines. lines.items ≡ spec.kept word.now text.now) }
{
    let mut lines = Vec::new(alloc);
    push_kept(&mut lines, text, word)?;
    Ok(lines)
}

// Appends the lines of a text that begin with this word, but that of the null process.
fn push_kept(lines: &mut Vec<u8>, text: &[u8], word: &[u8]) -> Result<(), AllocError>
    ensures kept { OnOk result (lines.new.items ≡ lines.old.items ++ spec.kept word.now text.now) }
{
    let mut rest = text;
    while !rest.is_empty() {
        let (line, next) = first_line(rest);
        if is_kept(line, word) {
            push_line(lines, line)?;
        }
        rest = next;
    }
    Ok(())
}

// Appends a line.
fn push_line(lines: &mut Vec<u8>, line: &[u8]) -> Result<(), AllocError>
    ensures line { OnOk result (lines.new.items ≡ lines.old.items ++ spec.fed line.now) }
{
    lines.extend_from_slice(line)?;
    lines.push(b'\n')?;
    Ok(())
}

// Whether a line begins with this word, and isn't that of the null process.
fn is_kept(line: &[u8], word: &[u8]) -> bool
    ensures kept { result ≡ spec.begin_with word.now (tokens_of line.now) && not (spec.is_null_line (tokens_of line.now)) }
{
    begins_with(line, word) && !is_null_line(line)
}

// Whether the first word of a line is this one.
fn begins_with(line: &[u8], word: &[u8]) -> bool
    ensures begins { result ≡ spec.begin_with word.now (tokens_of line.now) }
{
    match first_token(line) {
        Some((token, _)) => token == word,
        None => false,
    }
}

// Whether a line is that of the null process.
fn is_null_line(line: &[u8]) -> bool
    ensures null { result ≡ spec.is_null_line (tokens_of line.now) }
{
    let Some((word, rest)) = first_token(line) else {
        return false;
    };
    let Some((number, _)) = first_token(rest) else {
        return false;
    };
    is_word(word, "proc") && is_word(number, "0")
}

// Whether a token is this word.
fn is_word(token: &[u8], word: &str) -> bool
    ensures word { result ≡ bytes_eq token.now word.now }
{
    token == word.as_bytes()
}
