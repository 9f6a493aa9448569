//! The commands that a session runs.

use crate::output::shown;
use crate::packets::{dialogue, sent_by};
use crate::pictures::events_of;
use explain_command::explain;
use gdb_command::debug;
use host_port::{Channel, Host, MemoryHost};
use judge_command::judge;
use listing_command::listing;
use prove_command::prove;
use races_command::{Silent, races};
use std::alloc::{AllocError, Global};
use std::str;
use timeline_command::timeline;
use xinu_commands::xinu;

/// Runs a command over a host, with these arguments, and answers its status; none if there is no such command. What `gdb` answers to the
/// packets of the lines is sent on Out.
///
/// # Errors
/// Out of memory.
pub(crate) fn run(
    alloc: Global,
    command: &str,
    args: &[String],
    lines: &str,
    host: &mut MemoryHost,
) -> Result<Option<u8>, AllocError> {
    let status = match command {
        "xinu" => run_xinu(alloc, args, host),
        "explain" => explain(alloc, args, host),
        "judge" => judge(alloc, args, host),
        "listing" => listing(alloc, args, host),
        "prove" => prove(alloc, args, host),
        "races" => races(alloc, args, host, &mut Silent),
        "timeline" | "picture" => timeline(alloc, args, host),
        "gdb" => run_gdb(alloc, args, lines, host)?,
        _ => return Ok(None),
    };
    Ok(Some(status))
}

/// The status of the top call; or 255, which none has, if it doesn't leave a machine exactly if it did a run or a soak test.
pub(crate) fn run_xinu(alloc: Global, args: &[String], host: &mut impl Host) -> u8 {
    let runs = match args {
        [word, ..] => word.as_str() == "run" || word.as_str() == "soak",
        [] => false,
    };
    let (status, leaves_machine) = called(alloc, args, host);
    if leaves_machine == (status == 0 && runs) {
        status
    } else {
        255
    }
}

// What the top call answers, and whether it leaves a machine. A machine is a large value, so no other function has one.
fn called(alloc: Global, args: &[String], host: &mut impl Host) -> (u8, bool) {
    let mut last = None;
    let status = xinu(alloc, args, host, &mut last);
    (status, last.is_some())
}

// Lets a debugger send what the lines send.
fn run_gdb(
    alloc: Global,
    args: &[String],
    lines: &str,
    host: &mut MemoryHost,
) -> Result<u8, AllocError> {
    let bytes = sent_by(alloc, lines)?;
    let mut input = bytes.as_slice();
    let mut answers = Vec::new(alloc);
    let status = debug(alloc, args, host, &mut input, &mut answers);
    let _ = host.emit(Channel::Out, answers.as_slice());
    Ok(status)
}

/// What a command printed: of a picture its events, of `gdb` the lines with what is answered, and else what was sent on Out; what was sent
/// on Fault; and the status if it isn't 0.
///
/// # Errors
/// Out of memory.
pub(crate) fn printed(
    alloc: Global,
    command: &str,
    lines: &str,
    out: &[u8],
    fault: &[u8],
    status: u8,
) -> Result<String, AllocError> {
    let mut text = match command {
        "picture" => events_of(alloc, str::from_utf8(out).unwrap_or(""))?,
        "gdb" => dialogue(alloc, lines, out)?,
        _ => shown(alloc, out)?,
    };
    text.push_str(shown(alloc, fault)?.as_str())?;
    if status != 0 {
        text.push_str(format!(in alloc; "status {status}\n")?.as_str())?;
    }
    Ok(text)
}
