//! The command: its source is fetched, and what its bytes deserve is answered.

ghost use Rattle.std.specs.Prelude.{◌≡◌, ◌≤◌, codes, length, map};
ghost use Rattle.std.specs.String.{string_bytes};
ghost use Rattle.fault_words.specs.Texts.{told};
ghost use Rattle.listing_command.specs.Answers.{AnswersFile, AnswersWords, Ends, Lists, Refuses};
ghost use Rattle.listing_command.specs.Answers as spec;
ghost use Rattle.refusal_words.specs.Meanings.{meaning};
ghost use Rattle.refusal_words.specs.Tellings.{TellsInWords};

use fault_words::tell_fault;
use host_port::{Channel, Host, HostFault};
use refusal_words::{tell, tell_cause};
use run_inputs::{Cause, Refusal};
use rv_asm::{AsmFault, list};
use std::alloc::Global;

/// The words of the command.
const USAGE: &str = "SOURCE";

/// What is said of a longer source.
const TOO_LONG: &str = "the text has over 1048576 bytes\n";

/// The most bytes of a source: 1 MiB.
const LONGEST_SOURCE: usize = 1_048_576;

/// Lists the source that the argument after the program's name names: sends a line for each line of it that puts bytes on Out, and answers the exit
/// status.
///
/// The status is 0 if they were sent. Else the refusal's text is sent on Fault, with a line after it that says it in words: 2 if there isn't one
/// argument, 3 if the host failed, 7 if memory ran out, 9 if `asm` refuses the source.
pub fn listing<H: Host>(alloc: Global, args: &[String], host: &mut H) -> u8
    ensures answers { AnswersWords (map string_bytes args.now) result (H.view host.old) (H.view host.new) }
{
    match args {
        [name] => answer_file(alloc, name.as_str(), host),
        [] => tell_refusal(alloc, Refusal::Usage, host),
        [_first, _second, _rest @ ..] => tell_refusal(alloc, Refusal::Usage, host),
    }
}

// Fetches a source, and answers what its bytes deserve.
fn answer_file<H: Host>(alloc: Global, name: &str, host: &mut H) -> u8
    ensures answers { AnswersFile name.now result (H.view host.old) (H.view host.new) }
{
    match host.fetch(alloc, name, LONGEST_SOURCE) {
        Ok(source) => answer(alloc, source.as_slice(), host),
        Err(HostFault::Failed) => tell_cause(alloc, Cause::Unread(name), USAGE, host),
        Err(HostFault::NoMemory) => tell_refusal(alloc, Refusal::NoMemory, host),
    }
}

/// Sends the listing of a source on Out, or its refusal on Fault with a line after it that says it in words, and answers the exit status.
pub fn answer<H: Host>(alloc: Global, source: &[u8], host: &mut H) -> u8
    ensures answers { Ends (spec.answer source.now) result (H.view host.old) (H.view host.new) }
{
    if source.len() > LONGEST_SOURCE {
        return tell(
            Refusal::Asm { line: 0, fault: 3 },
            TOO_LONG.as_bytes(),
            host,
        );
    }
    match list(alloc, source) {
        Ok(text) => send(alloc, text.as_slice(), host),
        Err(fault) => refuse_source(alloc, fault, source, host),
    }
}

// Sends a text on Out.
fn send<H: Host>(alloc: Global, text: &[u8], host: &mut H) -> u8
    ensures sends { Ends (Lists text.now) result (H.view host.old) (H.view host.new) }
{
    match host.emit(Channel::Out, text) {
        Ok(()) => 0,
        Err(HostFault::Failed) => tell_refusal(alloc, Refusal::HostFault, host),
        Err(HostFault::NoMemory) => tell_refusal(alloc, Refusal::NoMemory, host),
    }
}

// Tells the fault of a source in words.
fn refuse_source<H: Host>(alloc: Global, fault: AsmFault, source: &[u8], host: &mut H) -> u8
    requires { length source.now ≤ 4294967294 }
    ensures tells { Ends (Refuses (spec.asm_refusal fault) (told fault source.now)) result (H.view host.old) (H.view host.new) }
{
    match tell_fault(alloc, fault, source) {
        Ok(line) => tell(asm_refusal(fault), line.as_slice(), host),
        Err(_) => tell_refusal(alloc, Refusal::NoMemory, host),
    }
}

// The refusal of a text with a fault.
fn asm_refusal(fault: AsmFault) -> Refusal
    ensures refusal { result ≡ spec.asm_refusal fault }
{
    match fault {
        AsmFault::BadLine(line) => Refusal::Asm { line, fault: 1 },
        AsmFault::UnknownName(line) => Refusal::Asm { line, fault: 2 },
        AsmFault::OutOfRange(line) => Refusal::Asm { line, fault: 3 },
        AsmFault::DoubleLabel(line) => Refusal::Asm { line, fault: 4 },
        AsmFault::NoMemory => Refusal::NoMemory,
    }
}

// Tells a refusal with the line that it means.
#[tactic(auto, unfolding(refusal_words::specs::Meanings::cause_meaning))]
fn tell_refusal<H: Host>(alloc: Global, refusal: Refusal, host: &mut H) -> u8
    ensures tells { TellsInWords refusal (meaning (codes "SOURCE") refusal) result (H.view host.old) (H.view host.new) }
{
    tell_cause(alloc, Cause::Refused(refusal), USAGE, host)
}
