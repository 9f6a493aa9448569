//! Signs that a call answers, and that it is asked for.

ghost use Rattle.std.specs.Prelude.{◌≡◌, ◌+◌, ℤ};
ghost use Rattle.refusal_reasons.specs.Causes as specs;
ghost use Rattle.xinu_model.specs.Memory.{in_ram};

use xinu_base::RAM_SIZE;

/// Whether a number is -1.
#[tactic(auto, using(crate::proofs::Signs::is_one, crate::proofs::Signs::is_other))]
pub(crate) fn is_minus_one(n: i32) -> bool
    ensures minus_one { result ≡ specs.is_minus_one n }
{
    if n == -1 { true } else { false }
}

/// Whether a number is negative.
#[tactic(auto, using(crate::proofs::Signs::is_below, crate::proofs::Signs::is_above))]
pub(crate) fn is_negative(n: i32) -> bool
    ensures negative { result ≡ specs.is_negative n }
{
    if n < 0 { true } else { false }
}

/// Whether there is a message that is -1 as it is answered.
pub(crate) fn is_minus_one_message(message: Option<u32>) -> bool
    ensures minus_one { result ≡ specs.is_minus_one_message message }
{
    match message {
        Some(message) => is_minus_one(message.cast_signed()),
        None => false,
    }
}

/// Whether a range of this many bytes lies in RAM.
pub(crate) fn in_ram(address: u32, width: u32) -> bool
    ensures in_ram { result ≡ in_ram address width }
{
    address as u64 + width as u64 <= RAM_SIZE as u64
}
