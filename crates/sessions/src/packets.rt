//! What a debugger sends in a session, and what is answered.

use crate::output::add_bytes;
use gdb_packets::{InputUnit, first_unit, frame};
use std::alloc::{AllocError, Global};

/// With what a line begins that sends something.
const SENDS: &str = "> ";

/// The bytes that lines send.
pub(crate) fn sent_by(alloc: Global, lines: &str) -> Result<Vec<u8>, AllocError> {
    let mut bytes = Vec::new(alloc);
    for line in lines.lines() {
        if let Some(words) = line.strip_prefix(SENDS) {
            send(alloc, &mut bytes, words)?;
        }
    }
    Ok(bytes)
}

// Appends what a line sends: a packet without an end, what stands after a mark, or else the packet that says it.
fn send(alloc: Global, bytes: &mut Vec<u8>, words: &str) -> Result<(), AllocError> {
    if let Some(count) = words.strip_prefix("*") {
        return send_endless(bytes, count.parse::<u32>().unwrap_or(0));
    }
    match words.as_bytes() {
        [b'!' | b'~', raw @ ..] => bytes.extend_from_slice(raw),
        payload => bytes.extend_from_slice(frame(alloc, payload)?.as_slice()),
    }
}

// Appends a packet without an end, of so many bytes.
fn send_endless(bytes: &mut Vec<u8>, count: u32) -> Result<(), AllocError> {
    bytes.push(b'$')?;
    for _ in 0..count {
        bytes.push(b'0')?;
    }
    Ok(())
}

/// The lines that send something, each with what is answered.
pub(crate) fn dialogue(alloc: Global, lines: &str, answers: &[u8]) -> Result<String, AllocError> {
    let mut text = String::new(alloc);
    let mut rest = answers;
    for line in lines.lines() {
        if let Some(words) = line.strip_prefix(SENDS) {
            text.push_str(line)?;
            text.push_str("\n")?;
            if !words.starts_with("~") {
                rest = add_answers(alloc, &mut text, rest, is_raw(words))?;
            }
        }
    }
    if !rest.is_empty() {
        text.push_str("and more\n")?;
    }
    Ok(text)
}

// Whether one unit answers what a line sends.
fn is_raw(words: &str) -> bool {
    words.starts_with("!") || words.starts_with("*")
}

// Adds what is answered to a line: one unit; or packets for the console, and the one after them. Answers what comes after that.
fn add_answers<'a>(
    alloc: Global,
    text: &mut String,
    answers: &'a [u8],
    is_one: bool,
) -> Result<&'a [u8], AllocError> {
    let mut rest = answers;
    for _ in 0..u32::MAX {
        let (unit, next) = first_unit(rest);
        rest = next;
        if add_unit(alloc, text, unit)? || is_one {
            break;
        }
    }
    Ok(rest)
}

// Adds a unit. Whether it ends what is answered to a packet.
fn add_unit(alloc: Global, text: &mut String, unit: InputUnit<'_>) -> Result<bool, AllocError> {
    let (shown, is_last) = match unit {
        InputUnit::Packet(bytes) => return add_packet(alloc, text, bytes),
        InputUnit::Accepted => ("+\n", false),
        InputUnit::Refused => ("-\n", true),
        _ => ("nothing\n", true),
    };
    text.push_str(shown)?;
    Ok(is_last)
}

// Adds a packet. Whether it isn't one for the console.
fn add_packet(alloc: Global, text: &mut String, bytes: &[u8]) -> Result<bool, AllocError> {
    let mut is_last = true;
    if let [b'O', digits @ ..] = bytes
        && let Ok(shown) = hex::decode(alloc, digits)
    {
        text.push_str("shows ")?;
        add_bytes(alloc, text, shown.as_slice(), '|')?;
        is_last = false;
    } else if bytes.is_empty() {
        text.push_str("empty")?;
    } else {
        add_bytes(alloc, text, bytes, '|')?;
    }
    text.push_str("\n")?;
    Ok(is_last)
}
