//! The command: its arguments and files are read as `run` reads them, and packets are served.

ghost use Rattle.std.specs.Prelude.{◌≡◌, ◌≤◌, IfErr, IfOk, Ok, OnErr, OnOk, false, is_ok, length, map, string_bytes};
ghost use Rattle.command_words.specs.ToolNames.{taken_words};
ghost use Rattle.command_words.specs.Tools.{rows_of};
ghost use Rattle.command_words.specs.Words.{words_of};
ghost use Rattle.gdb_command.specs.Debugging.{Answers, Carries, Continues, Goes, IsRefusedTo, IsRunServed, Obeys, ended_by, usage};
ghost use Rattle.gdb_command.specs.Debugging as debugging;
ghost use Rattle.gdb_command.specs.Refusing.{HasRefused, HasRefusedSome, error_packet};
ghost use Rattle.refusal_words.specs.Meanings.{cause_meaning};
ghost use Rattle.run_inputs.specs.Conversions.{host_refusal};
ghost use Rattle.run_inputs.specs.InputFaults.{have_fault};

use crate::refusing::refuse_packets;
use crate::serving::serve;
use crate::session::Session;
use command_words::{Taken, Tool};
use host_port::{Host, HostFault};
use refusal_words::{meaning, tell_cause};
use replayed_run::Replay;
use run_inputs::{Cause, Inputs, Refusal, fetch_words, read_words};
use std::alloc::Global;
use std::io::{Read, Write};

/// The words of the command.
const USAGE: &str = "--schedule FILE [--disk0 FILE] [--disk1 FILE] IMAGE ..";

/// Serves packets for the run that the arguments after the program's name ask for, and answers the exit status. The run is of the inputs
/// that `run` would fetch, and what is written answers what is read, packet by packet, up to the end of the session or of the input, or to
/// a fault.
///
/// The status is 0 once the debugger has gone away, ended the session, or closed the input. Else it is the status with which `run` refuses
/// such arguments and files, and its text is sent on Fault, with a line after it that says it in words: 2 if the arguments aren't those of the
/// command; 3 also if the input or the output failed; 7 if memory ran out. If the arguments or the files were refused, each packet is then
/// acknowledged and answered with an error, `E.` and the first line of those words, until the debugger ends the session or closes the input.
pub fn debug<H: Host, R: Read, W: Write>(
    alloc: Global,
    args: &[String],
    host: &mut H,
    input: &mut R,
    output: &mut W,
) -> u8
    ensures debugs { Answers result (map string_bytes args.now) (H.view host.old) (H.view host.new) (record { left = R.remaining input.old; written = W.contents output.old }) (record { left = R.remaining input.new; written = W.contents output.new }) }
{
    match carry_out(alloc, args, host, input, output) {
        Ok(()) => 0,
        Err(cause) => {
            let status = tell_cause(alloc, cause, USAGE, host);
            tell_debugger(alloc, cause, input, output);
            status
        }
    }
}

// Carries the command out.
fn carry_out<'a, H: Host, R: Read, W: Write>(
    alloc: Global,
    args: &'a [String],
    host: &mut H,
    input: &mut R,
    output: &mut W,
) -> Result<(), Cause<'a>>
    ensures carries { Carries (words_of (rows_of Tool.Gdb) (map string_bytes args.entry.now)) (ended_by result) (H.view host.old) (H.view host.new) (record { left = R.remaining input.old; written = W.contents output.old }) (record { left = R.remaining input.new; written = W.contents output.new }) }
{
    match read_words(alloc, Tool::Gdb, args) {
        Ok(words) => obey(alloc, &words, host, input, output),
        Err(cause) => Err(cause),
    }
}

// Debugs the run that words name.
fn obey<'a, H: Host, R: Read, W: Write>(
    alloc: Global,
    words: &Taken<'a>,
    host: &mut H,
    input: &mut R,
    output: &mut W,
) -> Result<(), Cause<'a>>
    requires some { 1 ≤ length words.now.images.items }
    requires few { length words.now.images.items ≤ 8 }
    ensures obeys { Obeys (taken_words words.now) (ended_by result) (H.view host.old) (H.view host.new) (record { left = R.remaining input.old; written = W.contents output.old }) (record { left = R.remaining input.new; written = W.contents output.new }) }
{
    match fetch_words(alloc, words, host) {
        Ok(inputs) => go_on(alloc, inputs, input, output),
        Err(cause) => Err(cause),
    }
}

// Goes on with inputs.
fn go_on<'a, R: Read, W: Write>(
    alloc: Global,
    inputs: Inputs,
    input: &mut R,
    output: &mut W,
) -> Result<(), Cause<'a>>
    requires some { 1 ≤ length inputs.images.items }
    requires few { length inputs.images.items ≤ 8 }
    requires good { have_fault (map (λ v. v.items) inputs.images.items) ≡ false }
    requires events { length inputs.schedule ≤ 1000000000 }
    ensures continues { Continues (Ok inputs) (ended_by result) (record { left = R.remaining input.old; written = W.contents output.old }) (record { left = R.remaining input.new; written = W.contents output.new }) }
{
    match debug_run(alloc, inputs, input, output) {
        Ok(()) => Ok(()),
        Err(refusal) => Err(Cause::Refused(refusal)),
    }
}

// Serves packets for the run of these inputs.
fn debug_run<R: Read, W: Write>(
    alloc: Global,
    inputs: Inputs,
    input: &mut R,
    output: &mut W,
) -> Result<(), Refusal>
    requires some { 1 ≤ length inputs.images.items }
    requires few { length inputs.images.items ≤ 8 }
    requires good { have_fault (map (λ v. v.items) inputs.images.items) ≡ false }
    requires events { length inputs.schedule ≤ 1000000000 }
    ensures goes { Goes inputs (ended_by result) (record { left = R.remaining input.old; written = W.contents output.old }) (record { left = R.remaining input.new; written = W.contents output.new }) }
{
    match Replay::new(alloc, inputs) {
        Ok(replay) => served(alloc, replay, input, output),
        Err(fault) => Err(Refusal::from(fault)),
    }
}

// Serves packets for a run.
fn served<R: Read, W: Write>(
    alloc: Global,
    replay: Replay,
    input: &mut R,
    output: &mut W,
) -> Result<(), Refusal>
    ensures serves { IsRunServed replay (ended_by result) (record { left = R.remaining input.old; written = W.contents output.old }) (record { left = R.remaining input.new; written = W.contents output.new }) }
{
    let mut session = Session::new(alloc, replay);
    match serve(alloc, &mut session, input, output) {
        Ok(()) => Ok(()),
        Err(fault) => Err(Refusal::from(fault)),
    }
}

// Answers packets with what a cause means, unless it is that of a fault of the host or a lack of memory. What it answers ends if a stream fails or
// memory runs out.
fn tell_debugger<R: Read, W: Write>(alloc: Global, cause: Cause<'_>, input: &mut R, output: &mut W)
    ensures refuses { IsRefusedTo (Some cause.entry) (record { left = R.remaining input.old; written = W.contents output.old }) (record { left = R.remaining input.new; written = W.contents output.new }) }
{
    if !is_refused(cause) {
        return;
    }
    let _ = say_why(alloc, cause, input, output);
}

// Whether a cause is that of inputs or arguments that were refused.
fn is_refused(cause: Cause<'_>) -> bool
    ensures refused { result ≡ debugging.is_refused cause.entry }
{
    !matches!(
        cause,
        Cause::Refused(Refusal::HostFault | Refusal::NoMemory)
    )
}

// Answers packets with what a cause means.
fn say_why<R: Read, W: Write>(
    alloc: Global,
    cause: Cause<'_>,
    input: &mut R,
    output: &mut W,
) -> Result<(), HostFault>
    ensures refuses { OnOk result (HasRefused (error_packet (cause_meaning usage cause.entry)) (record { left = R.remaining input.old; written = W.contents output.old }) (record { left = R.remaining input.new; written = W.contents output.new })) }
    ensures cut { OnErr result (HasRefusedSome (error_packet (cause_meaning usage cause.entry)) (record { left = R.remaining input.old; written = W.contents output.old }) (record { left = R.remaining input.new; written = W.contents output.new })) }
{
    let text = meaning(alloc, cause, USAGE)?;
    refuse_packets(alloc, text.as_slice(), input, output)
}
