//! A file that is fetched.

ghost use Rattle.std.specs.Prelude.{◌<◌, ◌∷◌, [], IfOk, IfErr, IsErrOf};
ghost use Rattle.run_inputs.specs.Causes.{WasFetchedLast};
ghost use Rattle.run_inputs.specs.Fetching.{FetchesFiles, IsFetched, IsOfHost, refusal_of};
ghost use Rattle.run_inputs.specs.declared.refusals.Refusal.TheVariants as refusal;

use crate::refusals::Refusal;
use host_port::Host;
use std::alloc::Global;

/// The bytes of a file, at most one more than `most`.
///
/// # Errors
/// `HostFault` if the host failed; `NoMemory`.
pub(crate) fn fetch_file<H: Host>(
    alloc: Global,
    name: &str,
    most: usize,
    host: &mut H,
) -> Result<Vec<u8>, Refusal>
    ensures bytes { IfOk result (λ v. IsFetched most ((H.view host.old).file name.now) v.items) }
    ensures cause { IfErr result IsOfHost }
    ensures last { IsErrOf result refusal.HostFault → WasFetchedLast name.now (H.view host.new) }
    ensures fetches { FetchesFiles (name.now ∷ []) (refusal_of result) (H.view host.old) (H.view host.new) }
{
    match host.fetch(alloc, name, most) {
        Ok(bytes) => Ok(bytes),
        Err(fault) => Err(Refusal::from(fault)),
    }
}
