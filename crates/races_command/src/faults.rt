//! Why the command wasn't carried out, and how it is told.

ghost use Rattle.std.specs.Prelude.{◌≡◌};
ghost use Rattle.refusal_words.specs.Tellings.{TellsInWords};
ghost use Rattle.run_inputs.specs.Conversions.{host_refusal};
ghost use Rattle.run_inputs.specs.declared.causes.Cause.TheVariants as cause;
ghost use Rattle.races_command.specs.Searching as search;
ghost use Rattle.races_command.specs.Theorem as spec;
ghost use Rattle.races_command.specs.declared.faults.Fault.TheVariants as variant;

use host_port::{Host, HostFault};
use refusal_words::tell_cause;
use run_inputs::{Cause, Refusal};
use std::alloc::Global;

/// Why the command wasn't carried out.
#[derive(Clone, Copy)]
pub enum Fault<'a> {
    /// Its arguments are wrong, a file can't be read or written, or it is refused as `run` refuses it.
    Refused(Cause<'a>),
    /// More than three quantum ends are to be put in.
    TooMany,
    /// The schedule has more than 1000000 events.
    TooLong,
    /// The schedule has fewer steps than those within which the quantum ends are to be.
    TooFar,
}

/// The words of the command.
const USAGE: &str =
    "--preemptions P --within N [--from M] [--found FILE [--outcome K]] --schedule FILE [--disk0 FILE] [--disk1 FILE] IMAGE ..";

/// Sends the text of a refusal on Fault and a line after it, which says what the refusal means, or which number doesn't fit, and answers the exit
/// status.
pub(crate) fn tell<H: Host>(alloc: Global, fault: Fault<'_>, host: &mut H) -> u8
    ensures tells { TellsInWords (spec.refusal_of fault.entry) (spec.line_of fault.entry) result (H.view host.old) (H.view host.new) }
{
    match fault {
        Fault::Refused(cause) => tell_cause(alloc, cause, USAGE, host),
        Fault::TooMany => refusal_words::tell(
            Refusal::Usage,
            b"there are at most 3 preemptions\n",
            host,
        ),
        Fault::TooLong => refusal_words::tell(
            Refusal::Usage,
            b"the schedule has over 1000000 events\n",
            host,
        ),
        Fault::TooFar => refusal_words::tell(
            Refusal::Usage,
            b"the schedule has fewer steps than that\n",
            host,
        ),
    }
}

/// The fault of a host that failed.
pub(crate) fn host_failed(fault: HostFault) -> Fault<'static>
    ensures { result ≡ variant.Refused (cause.Refused (host_refusal fault)) }
{
    Fault::Refused(Cause::Refused(Refusal::from(fault)))
}

/// How writing a file ended: if the host failed, the file is named.
pub(crate) fn or_unwritten<'a>(
    written: Result<(), Fault<'a>>,
    found: Option<&'a str>,
) -> Result<(), Fault<'a>>
    ensures named { search.ended_by result ≡ search.unwritten found.entry (search.ended_by written.entry) }
{
    match (written, found) {
        (Err(Fault::Refused(Cause::Refused(Refusal::HostFault))), Some(name)) => {
            Err(Fault::Refused(Cause::Unwritten(name)))
        }
        (written, _) => written,
    }
}

/// Out of memory.
pub(crate) const NO_MEMORY: Fault<'static> = Fault::Refused(Cause::Refused(Refusal::NoMemory));
