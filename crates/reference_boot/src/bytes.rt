//! Bytes that are copied out of an image.

ghost use Rattle.std.specs.Prelude.{◌≡◌, IfOk};

use std::alloc::Global;
use xinu_base::NoMemory;

/// The same bytes as a list of their own.
pub(crate) fn copied(alloc: Global, bytes: &[u8]) -> Result<Vec<u8>, NoMemory>
    ensures copied { IfOk result (λ l. l.items ≡ bytes.now) }
{
    Vec::from_slice(alloc, bytes).map_err(|_| NoMemory)
}
