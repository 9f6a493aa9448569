//! The front of a file.

ghost use Rattle.std.specs.Prelude.{◌≡◌, ◌+◌, ◌≤◌, take, IfOk, vec_len};

use std::alloc::{AllocError, Global};

/// The first `max + 1` bytes, or all of them if there are fewer.
pub(crate) fn first_bytes(alloc: Global, bytes: &[u8], max: usize) -> Result<Vec<u8>, AllocError>
    ensures bytes { IfOk result (λ v. v.items ≡ take (max + 1) bytes.now) }
    ensures bound { IfOk result (λ v. vec_len v ≤ max + 1) }
{
    if bytes.len() > max {
        Vec::from_slice(alloc, &bytes[..max + 1])
    } else {
        Vec::from_slice(alloc, bytes)
    }
}
