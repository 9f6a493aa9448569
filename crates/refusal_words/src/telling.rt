//! A refusal is told: its own text, and a line after it.

ghost use Rattle.std.specs.Prelude.{◌≡◌};
ghost use Rattle.refusal_words.specs.Meanings as meanings;
ghost use Rattle.refusal_words.specs.Tellings.{TellsInWords};
ghost use Rattle.run_inputs.specs.Causes.{refusal_in};

use crate::meanings::meaning;
use host_port::{Channel, Host, HostFault};
use run_inputs::{Cause, Refusal, refuse};
use std::alloc::Global;

/// Sends the text of a refusal on Fault and a line after it, and answers the refusal's exit status, or 7 if memory runs out meanwhile. A
/// host that fails is ignored here. Both are sent whole unless memory runs out or the host fails.
pub fn tell<H: Host>(refusal: Refusal, line: &[u8], host: &mut H) -> u8
    ensures tells { TellsInWords refusal line.now result (H.view host.old) (H.view host.new) }
{
    let status = refuse(refusal, host);
    match host.emit(Channel::Fault, line) {
        Ok(()) => status,
        Err(HostFault::Failed) => status,
        Err(HostFault::NoMemory) => 7,
    }
}

/// Sends the text of a cause's refusal on Fault and what the cause means after it, and answers the refusal's exit status, or 7 if memory
/// runs out meanwhile. A host that fails is ignored here. Both are sent whole unless memory runs out or the host fails. `usage` has the
/// words of the command.
pub fn tell_cause<H: Host>(alloc: Global, cause: Cause<'_>, usage: &str, host: &mut H) -> u8
    ensures tells { TellsInWords (refusal_in cause.entry) (meanings.cause_meaning usage.now cause.entry) result (H.view host.old) (H.view host.new) }
{
    let refusal = cause.refusal();
    match meaning(alloc, cause, usage) {
        Ok(line) => tell(refusal, line.as_slice(), host),
        Err(_) => {
            let _ = refuse(refusal, host);
            7
        }
    }
}
