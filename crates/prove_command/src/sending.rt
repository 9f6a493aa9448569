//! The text of an answer, which begins as its status says.

ghost use Rattle.std.specs.Prelude.{◌≡◌, ◌++◌, IfErr, IfOk, map};
ghost use Rattle.std.specs.String.{string_bytes};
ghost use Rattle.prove_command.specs.FirstLine.{head_of};
ghost use Rattle.prove_command.specs.Theorem as spec;

use crate::first_line::push_head;
use host_port::{Channel, Host};
use printed_runs::Text;
use program_logic::Lock;
use run_inputs::Refusal;
use std::alloc::{AllocError, Global};

/// Sends the beginning of a status, for this lock and images of these names, and a text after it, and answers the status.
///
/// # Errors
/// `HostFault` if the host failed; `NoMemory`.
pub(crate) fn send<H: Host>(
    alloc: Global,
    status: u8,
    lock: &Lock,
    names: &[String],
    text: Text,
    host: &mut H,
) -> Result<u8, Refusal>
    ensures same { IfOk result (λ s. s ≡ status) }
    ensures sent { IfOk result (λ _. spec.Sends (record { lock = lock.now; images = map string_bytes names.now }) status (H.view host.old) (H.view host.new)) }
    ensures unsent { IfErr result (λ cause. spec.IsUnsent cause (H.view host.old) (H.view host.new)) }
{
    let rest = match text.whole() {
        Ok(rest) => rest,
        Err(_) => return Err(Refusal::NoMemory),
    };
    let line = match headed(alloc, status, lock, names, rest.as_str()) {
        Ok(line) => line,
        Err(_) => return Err(Refusal::NoMemory),
    };
    match host.emit(Channel::Out, line.as_slice()) {
        Ok(()) => Ok(status),
        Err(fault) => Err(Refusal::from(fault)),
    }
}

// The beginning of a status, and a text after it.
fn headed(
    alloc: Global,
    status: u8,
    lock: &Lock,
    names: &[String],
    rest: &str,
) -> Result<Vec<u8>, AllocError>
    ensures headed { IfOk result (λ v. v.items ≡ head_of (record { lock = lock.now; images = map string_bytes names.now }) status ++ rest.now) }
{
    let mut line = Vec::new(alloc);
    push_head(&mut line, status, lock, names)?;
    line.extend_from_slice(rest.as_bytes())?;
    Ok(line)
}
