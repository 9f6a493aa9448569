//! The words of a command that takes the inputs of a run, and the inputs that they name.

ghost use Rattle.std.specs.Prelude.{◌≡◌, ◌≤◌, [], false, IfOk, IfErr, codes, length, map};
ghost use Rattle.std.specs.String.{string_bytes};
ghost use Rattle.std.specs.Option.{unwrap_or};
ghost use Rattle.command_line.specs.Reading.{option_value};
ghost use Rattle.command_words.specs.ToolNames.{taken_words};
ghost use Rattle.command_words.specs.Tools.{rows_of};
ghost use Rattle.command_words.specs.Words as words;
ghost use Rattle.run_inputs.specs.Causes.{NamesLast, refused};
ghost use Rattle.run_inputs.specs.InputFaults.{have_fault};
ghost use Rattle.run_inputs.specs.Reading.{ReadsInputs};
ghost use Rattle.run_inputs.specs.Words.{IsWordsCause, inputs_in};

use crate::causes::Cause;
use crate::inputs::{InputFiles, Inputs, fetch_named};
use crate::refusals::Refusal;
use command_words::{Taken, Tool, words_of};
use host_port::Host;
use std::alloc::Global;

/// What the arguments after the program's name say, by the table of a command. They name one to eight images.
///
/// # Errors
/// What is wrong with them; out of memory.
pub fn read_words<'a>(alloc: Global, tool: Tool, args: &'a [String]) -> Result<Taken<'a>, Cause<'a>>
    ensures words { IfOk result (λ t. words.words_of (rows_of tool) (map string_bytes args.entry.now) ≡ Ok (taken_words t)) }
    ensures cause { IfErr result (IsWordsCause (words.words_of (rows_of tool) (map string_bytes args.entry.now))) }
    ensures some { IfOk result (λ t. 1 ≤ length t.images.items) }
    ensures few { IfOk result (λ t. length t.images.items ≤ 8) }
{
    match words_of(alloc, tool, args) {
        Ok(Ok(taken)) => Ok(taken),
        Ok(Err(fault)) => Err(Cause::Words(fault)),
        Err(_) => Err(Cause::Refused(Refusal::NoMemory)),
    }
}

/// Fetches and judges the inputs that the words of a command name, as [`fetch_named`] does. They name at most eight images.
///
/// # Errors
/// The refusal of the first file that isn't accepted, or the name of the first that can't be read, which is the one that was fetched last;
/// out of memory.
pub fn fetch_words<'a, H: Host>(
    alloc: Global,
    words: &Taken<'a>,
    host: &mut H,
) -> Result<Inputs, Cause<'a>>
    requires few { length words.now.images.items ≤ 8 }
    ensures reads { ReadsInputs (inputs_in (taken_words words.now)) (refused result) (H.view host.old) (H.view host.new) }
    ensures last { IfErr result (λ c. NamesLast c (H.view host.new)) }
    ensures good { IfOk result (λ x. have_fault (map (λ v. v.items) x.images.items) ≡ false) }
    ensures count { IfOk result (λ x. length x.images.items ≡ length words.now.images.items) }
    ensures events { IfOk result (λ x. length x.schedule ≤ 1000000000) }
{
    let files = InputFiles {
        schedule: schedule_in(words),
        disk0: words.value("disk0"),
        disk1: words.value("disk1"),
        images: words.images.as_slice(),
    };
    fetch_named(alloc, files, host)
}

// The name of the schedule's file: each command needs one.
fn schedule_in<'a>(words: &Taken<'a>) -> &'a str
    ensures schedule { result.now ≡ unwrap_or (option_value (codes "schedule") (taken_words words.now)) [] }
{
    match words.value("schedule") {
        Some(name) => name,
        None => "",
    }
}
