//! What the lines of a transcript say of calls and replies, as far as it is told.

ghost use Rattle.std.specs.Prelude.{◌≡◌, ◌<◌, ◌≤◌, drop, length, true};
ghost use Rattle.std.specs.Char.{is_ascii_digit};
ghost use Rattle.std.specs.List.{list_all};
ghost use Rattle.std.specs.Str.Parse.{digits_value};
ghost use Rattle.printed_runs.specs.Notes as specs;
ghost use Rattle.text_lines.specs.Lines.{tokens_of};

use std::str;
use text_lines::first_token;
use xinu_base::{Pid, Sem};

/// What a process asks for by a call, as far as it is told.
#[derive(Clone, Copy)]
pub enum Asked {
    /// Something that isn't told, or nothing yet.
    Other,
    /// A token of a semaphore.
    Wait(Sem),
    /// A token more for a semaphore.
    Signal(Sem),
    /// Some tokens more for a semaphore.
    SignalMany(Sem),
    /// Another count for a semaphore.
    Reset(Sem),
    /// A new semaphore with this count.
    Semaphore(u32),
    /// A new process.
    Process,
    /// A buffer of a pool.
    Buffer(u32),
    /// A message of a port, or room for one.
    Message(u32),
}

/// What a line says.
#[derive(Clone, Copy)]
pub enum Note {
    /// Nothing that is told.
    Other,
    /// A process made a call, and asked for this.
    Called(Pid, Asked),
    /// A process got this reply to its last call.
    Answered(Pid, u32),
}

/// What a line of a transcript says: a `call` or a `ret` line. A reply isn't told that is negative or has over nine digits.
pub(crate) fn note_of(line: &[u8]) -> Note
    ensures { result ≡ specs.note_of line.now }
{
    let (kind, line) = cut_word(line);
    let (process, line) = cut_word(line);
    let (word, line) = cut_word(line);
    let (argument, _) = cut_word(line);
    said_of(kind, process_in(process), word, argument)
}

// The first word of a line, and what comes after it; no byte of both if there is none.
pub(crate) fn cut_word(line: &[u8]) -> (&[u8], &[u8])
    ensures word { result.0.now ≡ specs.first_word (tokens_of line.now) }
    ensures rest { tokens_of result.1.now ≡ drop 1 (tokens_of line.now) }
{
    match first_token(line) {
        Some(cut) => cut,
        None => (&line[..0], line),
    }
}

// The process that a word numbers.
fn process_in(word: &[u8]) -> Option<Pid>
    ensures { result ≡ specs.below 64 (specs.number word.now) }
{
    Pid::from_word(number_in(word)?)
}

// The number of a word of one to nine decimal digits.
fn number_in(word: &[u8]) -> Option<u32>
    ensures number { result ≡ specs.number word.now }
{
    if word.is_empty() || word.len() > 9 || !are_digits(word) {
        return None;
    }
    Some(value_of(word))
}

// Whether all bytes are decimal digits.
fn are_digits(bytes: &[u8]) -> bool
    ensures digits { result ≡ list_all is_ascii_digit bytes.now }
{
    bytes.iter().all(|b| b.is_ascii_digit())
}

// The number that one to nine decimal digits give.
fn value_of(digits: &[u8]) -> u32
    requires digits { list_all is_ascii_digit digits.now ≡ true }
    requires some { 0 < length digits.now }
    requires few { length digits.now ≤ 9 }
    ensures value { result ≡ digits_value 10 digits.now }
{
    match str::from_utf8(digits) {
        Ok(text) => text.parse::<u32>().unwrap_or(0),
        Err(_) => 0,
    }
}

// What a line of this kind says of a process.
fn said_of(kind: &[u8], process: Option<Pid>, word: &[u8], argument: &[u8]) -> Note
    ensures { result ≡ specs.said_of kind.now process word.now argument.now }
{
    let Some(process) = process else {
        return Note::Other;
    };
    if kind == b"call".as_slice() {
        Note::Called(process, asked_by(word, argument))
    } else if kind == b"ret".as_slice() {
        answered(process, number_in(word))
    } else {
        Note::Other
    }
}

// The reply of a process, if it is told.
fn answered(process: Pid, reply: Option<u32>) -> Note
    ensures { result ≡ specs.answered process reply }
{
    match reply {
        Some(value) => Note::Answered(process, value),
        None => Note::Other,
    }
}

// What a call of this name asks for with this first argument.
fn asked_by(name: &[u8], argument: &[u8]) -> Asked
    ensures { result ≡ specs.asked_by name.now argument.now }
{
    if name == b"create".as_slice() {
        Asked::Process
    } else {
        asked_with(name, number_in(argument))
    }
}

// What a call of this name asks for with a number as its first argument.
fn asked_with(name: &[u8], argument: Option<u32>) -> Asked
    ensures { result ≡ specs.asked_with name.now argument }
{
    let Some(number) = argument else {
        return Asked::Other;
    };
    if name == b"semcreate".as_slice() {
        Asked::Semaphore(number)
    } else if name == b"getbuf".as_slice() {
        Asked::Buffer(number)
    } else if name == b"ptsend".as_slice() || name == b"ptrecv".as_slice() {
        Asked::Message(number)
    } else {
        asked_of(name, Sem::from_word(number))
    }
}

// What a call of this name asks of a semaphore.
fn asked_of(name: &[u8], semaphore: Option<Sem>) -> Asked
    ensures { result ≡ specs.asked_of name.now semaphore }
{
    let Some(semaphore) = semaphore else {
        return Asked::Other;
    };
    if name == b"wait".as_slice() {
        Asked::Wait(semaphore)
    } else if name == b"signal".as_slice() {
        Asked::Signal(semaphore)
    } else if name == b"signaln".as_slice() {
        Asked::SignalMany(semaphore)
    } else if name == b"semreset".as_slice() {
        Asked::Reset(semaphore)
    } else {
        Asked::Other
    }
}
