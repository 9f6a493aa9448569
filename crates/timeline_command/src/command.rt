//! The command: its arguments and files are read as `run` reads them, and the picture is drawn.

use crate::drawing::picture_of;
use crate::words::Part;
use command_words::Tool;
use host_port::{Channel, Host};
use refusal_words::tell_cause;
use run_inputs::{Cause, Refusal, fetch_words, read_words};
use std::alloc::Global;

/// The words of the command.
const USAGE: &str =
    "[--from EVENT] [--events 1 to 2000] [--title 1 to 90 BYTES] --schedule FILE [--disk0 FILE] [--disk1 FILE] IMAGE ..";

/// Draws the picture of the run that the arguments after the program's name ask for: sends it on Out, and answers the exit status.
///
/// The status is 0 if it was sent. Else it is the status with which `run` refuses such arguments and files, and its text is sent on
/// Fault, with a line after it that says it in words: 2 if the arguments aren't those of the command, 3 if the host failed, 7 if memory ran out.
pub fn timeline<H: Host>(alloc: Global, args: &[String], host: &mut H) -> u8 {
    match carry_out(alloc, args, host) {
        Ok(()) => 0,
        Err(cause) => tell_cause(alloc, cause, USAGE, host),
    }
}

// Carries the command out.
fn carry_out<'a, H: Host>(
    alloc: Global,
    args: &'a [String],
    host: &mut H,
) -> Result<(), Cause<'a>> {
    let words = read_words(alloc, Tool::Timeline, args)?;
    let inputs = fetch_words(alloc, &words, host)?;
    let picture = picture_of(alloc, inputs, Part::of(&words), words.value("title"))?;
    match host.emit(Channel::Out, picture.as_bytes()) {
        Ok(()) => Ok(()),
        Err(fault) => Err(Cause::Refused(Refusal::from(fault))),
    }
}
