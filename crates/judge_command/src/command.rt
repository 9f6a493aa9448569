//! The command: its arguments and files are read as `run` reads them, and the run is judged.

ghost use Rattle.std.specs.Prelude.{◌≡◌, ◌≤◌, Err, IfErr, IfOk, false, length, map};
ghost use Rattle.std.specs.String.{string_bytes};
ghost use Rattle.command_words.specs.ToolNames.{taken_words};
ghost use Rattle.command_words.specs.Tools.{rows_of};
ghost use Rattle.command_words.specs.Words.{words_of};
ghost use Rattle.judge_command.specs.Judging as specs;
ghost use Rattle.judge_command.specs.Judging.{IsTold, IsUntold, JudgesRun, Sends};
ghost use Rattle.judge_command.specs.Theorem.{Answers, Carries, Obeys, Tells};
ghost use Rattle.run_inputs.specs.InputFaults.{have_fault};

use crate::judging::judgement_of;
use crate::reports::Judgement;
use crate::words::Asked;
use command_words::{Taken, Tool};
use host_port::{Channel, Host, HostFault};
use refusal_words::tell_cause;
use replayed_run::Replay;
use run_inputs::{Cause, Inputs, Refusal, fetch_words, read_words};
use std::alloc::Global;

/// The words of the command.
const USAGE: &str =
    "[--atomic NAME,..] [--pairs] --schedule FILE [--disk0 FILE] [--disk1 FILE] IMAGE ..";

/// Tells the data races of the run that the arguments after the program's name ask for: sends the text on Out, and answers the exit status.
///
/// The status is 0 if it was sent and there is none, and 15 if there are some. Else it is the status with which `run` refuses such arguments and
/// files, and its text is sent on Fault, with a line after it that says it in words: 2 if the arguments aren't those of the command, 3 if the host
/// failed, 7 if memory ran out.
pub fn judge<H: Host>(alloc: Global, args: &[String], host: &mut H) -> u8
    ensures answers { Answers result (map string_bytes args.now) (H.view host.old) (H.view host.new) }
{
    match carry_out(alloc, args, host) {
        Ok(status) => status,
        Err(cause) => told_cause(alloc, cause, host),
    }
}

// Carries the command out.
fn carry_out<'a, H: Host>(alloc: Global, args: &'a [String], host: &mut H) -> Result<u8, Cause<'a>>
    ensures carries { Carries (words_of (rows_of Tool.Judge) (map string_bytes args.entry.now)) result (H.view host.old) (H.view host.new) }
{
    match read_words(alloc, Tool::Judge, args) {
        Ok(words) => obey(alloc, &words, host),
        Err(cause) => Err(cause),
    }
}

// Does what words ask.
fn obey<'a, H: Host>(alloc: Global, words: &Taken<'a>, host: &mut H) -> Result<u8, Cause<'a>>
    requires some { 1 ≤ length words.now.images.items }
    requires few { length words.now.images.items ≤ 8 }
    ensures obeys { Obeys (taken_words words.now) result (H.view host.old) (H.view host.new) }
{
    match fetch_words(alloc, words, host) {
        Ok(inputs) => judge_run(alloc, inputs, Asked::of(words), host),
        Err(cause) => Err(cause),
    }
}

// Judges the run of these inputs.
fn judge_run<'a, H: Host>(
    alloc: Global,
    inputs: Inputs,
    asked: Asked<'a>,
    host: &mut H,
) -> Result<u8, Cause<'a>>
    requires some { 1 ≤ length inputs.images.items }
    requires few { length inputs.images.items ≤ 8 }
    requires good { have_fault (map (λ v. v.items) inputs.images.items) ≡ false }
    requires events { length inputs.schedule ≤ 1000000000 }
    ensures judges { JudgesRun inputs result (H.view host.old) (H.view host.new) }
{
    match judged(alloc, inputs, asked) {
        Ok(judgement) => send(judgement.races, judgement.text.as_slice(), host),
        Err(refusal) => Err(Cause::Refused(refusal)),
    }
}

// Sends a text on Out that tells so many data races.
fn send<'a, H: Host>(races: usize, text: &[u8], host: &mut H) -> Result<u8, Cause<'a>>
    ensures sends { Sends races text.now result (H.view host.old) (H.view host.new) }
{
    match host.emit(Channel::Out, text) {
        Ok(()) => Ok(status_of(races)),
        Err(HostFault::Failed) => Err(Cause::Refused(Refusal::HostFault)),
        Err(HostFault::NoMemory) => Err(Cause::Refused(Refusal::NoMemory)),
    }
}

// The status by the number of data races.
fn status_of(races: usize) -> u8
    ensures status { result ≡ specs.status_of races }
{
    if races == 0 { 0 } else { 15 }
}

// The judgement of the run of these inputs.
fn judged(alloc: Global, inputs: Inputs, asked: Asked<'_>) -> Result<Judgement, Refusal>
    requires some { 1 ≤ length inputs.images.items }
    requires few { length inputs.images.items ≤ 8 }
    requires good { have_fault (map (λ v. v.items) inputs.images.items) ≡ false }
    requires events { length inputs.schedule ≤ 1000000000 }
    ensures told { IfOk result (λ j. IsTold inputs j.races j.text.items) }
    ensures untold { IfErr result (IsUntold inputs) }
{
    match Replay::new(alloc, inputs) {
        Ok(mut replay) => match judgement_of(alloc, &mut replay, asked) {
            Ok(judgement) => Ok(judgement),
            Err(HostFault::Failed) => Err(Refusal::HostFault),
            Err(HostFault::NoMemory) => Err(Refusal::NoMemory),
        },
        Err(fault) => Err(Refusal::from(fault)),
    }
}

// Sends the text of a cause's refusal and what the cause means, and answers the status.
fn told_cause<H: Host>(alloc: Global, cause: Cause<'_>, host: &mut H) -> u8
    ensures tells { Tells (Err cause.entry) result (H.view host.old) (H.view host.new) }
{
    tell_cause(alloc, cause, USAGE, host)
}
