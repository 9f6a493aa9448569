//! The files that commands fetch.

ghost use Rattle.std.specs.Prelude.{◌<◌, IfOk};
ghost use Rattle.run_inputs.specs.Fetching.{IsFetched, refusal_of};
ghost use Rattle.xinu_commands.specs.Stages.{Fetches};

use host_port::Host;
use run_inputs::Refusal;
use std::alloc::Global;

/// The bytes of a file, at most one more than `most`.
///
/// # Errors
/// `HostFault` if the host failed; `NoMemory`.
pub(crate) fn fetch_file<H: Host>(
    alloc: Global,
    name: &str,
    most: usize,
    host: &mut H,
) -> Result<Vec<u8>, Refusal>
    ensures bytes { IfOk result (λ v. IsFetched most ((H.view host.old).file name.now) v.items) }
    ensures fetches { Fetches name.now (refusal_of result) (H.view host.old) (H.view host.new) }
{
    match host.fetch(alloc, name, most) {
        Ok(bytes) => Ok(bytes),
        Err(fault) => Err(Refusal::from(fault)),
    }
}
