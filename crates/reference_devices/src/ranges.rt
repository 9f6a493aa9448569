//! Ranges of RAM.

ghost use Rattle.std.specs.Prelude.{◌≡◌};
ghost use Rattle.xinu_model.specs.Memory as model;

use xinu_base::RAM_SIZE;

/// Whether a range of so many bytes lies in RAM.
pub(crate) fn in_ram(a: u32, n: u32) -> bool
    ensures within { result ≡ model.in_ram a n }
{
    a <= RAM_SIZE && n <= RAM_SIZE - a
}
