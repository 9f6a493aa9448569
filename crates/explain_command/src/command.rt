//! The command: its arguments and files are read as `run` reads them, and the run is told.

ghost use Rattle.std.specs.Prelude.{◌≡◌, ◌≤◌, IfErr, IfOk, Some, codes, false, length, map};
ghost use Rattle.std.specs.String.{string_bytes};
ghost use Rattle.command_line.specs.Reading.{option_value};
ghost use Rattle.command_words.specs.ToolNames.{taken_words};
ghost use Rattle.command_words.specs.Tools.{rows_of};
ghost use Rattle.command_words.specs.Words.{words_of};
ghost use Rattle.explain_command.specs.Stories.{IsTold, IsUntold, Sends, TellsOf, TellsRun};
ghost use Rattle.explain_command.specs.Theorem.{Answers, Carries, Goes, Obeys, Tells};
ghost use Rattle.explain_command.specs.Words.{asked_in};
ghost use Rattle.run_inputs.specs.InputFaults.{have_fault};

use crate::running::{tell, tell_at};
use crate::traces::tell_mistake;
use crate::words::{steps_in, tells_each, told_at};
use command_words::{Taken, Tool};
use host_port::{Channel, Host, HostFault};
use refusal_words::tell_cause;
use replayed_run::Replay;
use run_inputs::{Cause, Inputs, Refusal, fetch_words, read_words};
use std::alloc::Global;

/// The words of the command.
const USAGE: &str =
    "[--steps A..B | --trace FILE | --at N] [--refused] --schedule FILE [--disk0 FILE] [--disk1 FILE] IMAGE ..";

/// Tells the run that the arguments after the program's name ask for: sends the text on Out, and answers the exit status.
///
/// The status is 0 if it was sent, and 10 if a text is compared that isn't a transcript. Else it is the status with which `run` refuses
/// such arguments and files, and its text is sent on Fault, with a line after it that says it in words: 2 if the arguments aren't those of the
/// command, 3 if the host failed, 7 if memory ran out.
pub fn explain<H: Host>(alloc: Global, args: &[String], host: &mut H) -> u8
    ensures answers { Answers result (map string_bytes args.now) (H.view host.old) (H.view host.new) }
{
    match carry_out(alloc, args, host) {
        Ok(status) => status,
        Err(cause) => told_cause(alloc, cause, host),
    }
}

// Carries the command out.
fn carry_out<'a, H: Host>(alloc: Global, args: &'a [String], host: &mut H) -> Result<u8, Cause<'a>>
    ensures carries { Carries (words_of (rows_of Tool.Explain) (map string_bytes args.entry.now)) result (H.view host.old) (H.view host.new) }
{
    match read_words(alloc, Tool::Explain, args) {
        Ok(words) => obey(alloc, &words, host),
        Err(cause) => Err(cause),
    }
}

// Does what words ask.
fn obey<'a, H: Host>(alloc: Global, words: &Taken<'a>, host: &mut H) -> Result<u8, Cause<'a>>
    requires some { 1 ≤ length words.now.images.items }
    requires few { length words.now.images.items ≤ 8 }
    ensures obeys { Obeys (taken_words words.now) result (H.view host.old) (H.view host.new) }
{
    match fetch_words(alloc, words, host) {
        Ok(inputs) => go_on(alloc, inputs, words, host),
        Err(cause) => Err(cause),
    }
}

// Goes on with inputs: compares a trace, if one is named, or else tells the run.
fn go_on<'a, H: Host>(
    alloc: Global,
    inputs: Inputs,
    words: &Taken<'a>,
    host: &mut H,
) -> Result<u8, Cause<'a>>
    requires some { 1 ≤ length inputs.images.items }
    requires few { length inputs.images.items ≤ 8 }
    requires good { have_fault (map (λ v. v.items) inputs.images.items) ≡ false }
    requires events { length inputs.schedule ≤ 1000000000 }
    ensures goes { Goes (option_value (codes "trace") (taken_words words.now)) (asked_in (taken_words words.now)) inputs result (H.view host.old) (H.view host.new) }
{
    match words.value("trace") {
        Some(name) => tell_mistake(alloc, inputs, name, host),
        None => tell_run(alloc, inputs, words, host),
    }
}

// Tells the run of these inputs, as the words ask.
fn tell_run<'a, H: Host>(
    alloc: Global,
    inputs: Inputs,
    words: &Taken<'a>,
    host: &mut H,
) -> Result<u8, Cause<'a>>
    requires some { 1 ≤ length inputs.images.items }
    requires few { length inputs.images.items ≤ 8 }
    requires good { have_fault (map (λ v. v.items) inputs.images.items) ≡ false }
    requires events { length inputs.schedule ≤ 1000000000 }
    ensures tells { TellsRun (asked_in (taken_words words.now)) inputs result (H.view host.old) (H.view host.new) }
{
    match told(alloc, inputs, words) {
        Ok(text) => send(text.as_slice(), host),
        Err(refusal) => Err(Cause::Refused(refusal)),
    }
}

// Sends a text on Out.
fn send<'a, H: Host>(text: &[u8], host: &mut H) -> Result<u8, Cause<'a>>
    ensures sends { Sends text.now result (H.view host.old) (H.view host.new) }
{
    match host.emit(Channel::Out, text) {
        Ok(()) => Ok(0),
        Err(HostFault::Failed) => Err(Cause::Refused(Refusal::HostFault)),
        Err(HostFault::NoMemory) => Err(Cause::Refused(Refusal::NoMemory)),
    }
}

// The text that tells the run of these inputs, as the words ask.
fn told(alloc: Global, inputs: Inputs, words: &Taken<'_>) -> Result<Vec<u8>, Refusal>
    requires some { 1 ≤ length inputs.images.items }
    requires few { length inputs.images.items ≤ 8 }
    requires good { have_fault (map (λ v. v.items) inputs.images.items) ≡ false }
    requires events { length inputs.schedule ≤ 1000000000 }
    ensures told { IfOk result (λ text. IsTold (asked_in (taken_words words.now)) inputs text.items) }
    ensures untold { IfErr result (IsUntold inputs) }
{
    match Replay::new(alloc, inputs) {
        Ok(mut replay) => match text_of(
            alloc,
            &mut replay,
            told_at(words),
            steps_in(words),
            tells_each(words),
        ) {
            Ok(text) => Ok(text),
            Err(HostFault::Failed) => Err(Refusal::HostFault),
            Err(HostFault::NoMemory) => Err(Refusal::NoMemory),
        },
        Err(fault) => Err(Refusal::from(fault)),
    }
}

// The text that tells a run before its first event: the state after so many events, if that is asked for, or else the story.
fn text_of(
    alloc: Global,
    replay: &mut Replay,
    at: Option<u32>,
    steps: Option<(u64, u64)>,
    tells_each: bool,
) -> Result<Vec<u8>, HostFault>
    requires begins { replay.old.taken ≡ 0 }
    requires goes_on { replay.old.over ≡ false }
    ensures tells { IfOk result (λ text. TellsOf at steps tells_each replay.old text.items) }
{
    match at {
        Some(events) => tell_at(alloc, replay, events),
        None => tell(alloc, replay, steps, tells_each),
    }
}

// Sends the text of a cause's refusal and what the cause means, and answers the status.
fn told_cause<H: Host>(alloc: Global, cause: Cause<'_>, host: &mut H) -> u8
    ensures tells { Tells (Err cause.entry) result (H.view host.old) (H.view host.new) }
{
    tell_cause(alloc, cause, USAGE, host)
}
