//! The top call over hosts of which calls fail.

use crate::output::add_bytes;
use crate::programs::run_xinu;
use crate::session::Session;
use host_port::{Channel, MemoryHost};
use std::alloc::{AllocError, Global};
use std::io::{self, ErrorKind};

/// What the top call does with these arguments if a call of the host fails, each in its turn, and if the next one fails too: a line for
/// each. The last line is that of the first call that isn't made.
///
/// # Errors
/// Out of memory.
pub(crate) fn run_failing(alloc: Global, session: &Session, args: &[String]) -> io::Result<String> {
    let mut whole = session.host()?;
    run_xinu(alloc, args, &mut whole);
    lines_of(alloc, session, args, &whole)
}

// The lines, where a host was sent this if no call fails.
fn lines_of(
    alloc: Global,
    session: &Session,
    args: &[String],
    whole: &MemoryHost,
) -> io::Result<String> {
    let mut text = String::new(alloc);
    for call in 1..u64::MAX {
        if run_once(alloc, session, args, [call, 0], whole, &mut text)? == 0 {
            break;
        }
        let both = [call, call.saturating_add(1)];
        run_once(alloc, session, args, both, whole, &mut text)?;
    }
    Ok(text)
}

// Runs the top call over a host with the files of the session of which these two calls fail, and adds a line on that to a text. There is
// no call 0.
fn run_once(
    alloc: Global,
    session: &Session,
    args: &[String],
    failing: [u64; 2],
    whole: &MemoryHost,
    text: &mut String,
) -> io::Result<u8> {
    let mut host = session.host()?;
    run_over(alloc, args, failing, &mut host, whole, text)
}

// Runs the top call over a host of which these two calls are to fail, adds the line, and answers the status.
fn run_over(
    alloc: Global,
    args: &[String],
    failing: [u64; 2],
    host: &mut MemoryHost,
    whole: &MemoryHost,
    text: &mut String,
) -> io::Result<u8> {
    for call in failing {
        if host.fail_call(call).is_err() {
            return Err(ErrorKind::OutOfMemory)?;
        }
    }
    let status = run_xinu(alloc, args, host);
    add_line(alloc, failing, status, host, text)?;
    if !begins(host, whole) {
        text.push_str("other bytes are sent\n")?;
    }
    Ok(status)
}

// Adds a line: the calls that failed, the status, how many lines were sent on Out, and what was sent on Fault.
fn add_line(
    alloc: Global,
    failing: [u64; 2],
    status: u8,
    host: &MemoryHost,
    text: &mut String,
) -> Result<(), AllocError> {
    let [call, next] = failing;
    let next = if next == 0 { "" } else { " and the next" };
    let lines = lines_in(host.sent(Channel::Out));
    let line = format!(in alloc; "call {call}{next}: status {status}, lines {lines}")?;
    text.push_str(line.as_str())?;
    let fault = host.sent(Channel::Fault);
    if !fault.is_empty() {
        text.push_str(", told ")?;
        add_bytes(alloc, text, fault, '|')?;
    }
    text.push_str("\n")
}

// How many lines end in bytes.
fn lines_in(bytes: &[u8]) -> u64 {
    let mut lines: u64 = 0;
    for byte in bytes {
        if *byte == b'\n' {
            lines = lines.saturating_add(1);
        }
    }
    lines
}

// Whether what one host was sent begins what another was sent, on each channel but Fault.
fn begins(host: &MemoryHost, whole: &MemoryHost) -> bool {
    for channel in [Channel::Out, Channel::Disk0, Channel::Disk1, Channel::Image] {
        if !whole.sent(channel).starts_with(host.sent(channel)) {
            return false;
        }
    }
    true
}
