//! Reasons that aren't told: the call isn't refused, or was told before.

ghost use Rattle.std.specs.Prelude.{◌≡◌};
ghost use Rattle.refused_calls.specs.Refusals as specs;
ghost use Rattle.xinu_model.specs.Devices.Table as table;

use device_switch::{device, kind_of};
use refusal_reasons::Reason;
use xinu_base::{Call, Kind};

/// Whether a call isn't refused for this reason, but answers a value that is -1.
pub(crate) fn is_answer(reason: Reason) -> bool
    ensures answer { result ≡ specs.is_answer reason }
{
    matches!(
        reason,
        Reason::PriorityIsMinusOne | Reason::CountIsMinusOne | Reason::MessageIsMinusOne
    )
}

/// Whether a call that goes on isn't told for this reason.
pub(crate) fn is_hidden(reason: Reason, call: &Call) -> bool
    ensures hidden { result ≡ specs.is_hidden reason call.now }
{
    is_answer(reason) || was_refused(reason, call)
}

// Whether a call was refused before its caller goes on.
fn was_refused(reason: Reason, call: &Call) -> bool
    ensures was { result ≡ specs.was_refused reason call.now }
{
    match reason {
        Reason::DiskRefused => is_raw_disk(call.args[0]),
        _ => false,
    }
}

// Whether a word names the raw disk.
fn is_raw_disk(word: u32) -> bool
    ensures is { result ≡ specs.is_raw_disk (table.kind_of word) }
{
    match device(word) {
        Ok(dev) => matches!(kind_of(dev), Kind::RawDisk),
        Err(_) => false,
    }
}
