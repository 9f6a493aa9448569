//! Operations on two numbers, of which only the result of numbers is known.

ghost use Rattle.std.specs.Prelude.{◌≡◌};
ghost use Rattle.program_logic.specs.Operations as operations;

use crate::values::{Slot, constant, number_in};

/// An operation on two words.
#[derive(Clone, Copy)]
pub(crate) enum Operation {
    /// Whether one is less, as signed numbers.
    Less,
    /// Whether one is less, as unsigned numbers.
    Below,
    /// The bits that differ.
    Xor,
    /// The bits of either.
    Or,
    /// The bits of both.
    And,
}

// The result.
fn result_of(operation: Operation, a: u32, b: u32) -> u32
    ensures { result ≡ operations.result_of operation a b }
{
    match operation {
        Operation::Less => (a.cast_signed() < b.cast_signed()) as u32,
        Operation::Below => (a < b) as u32,
        Operation::Xor => a ^ b,
        Operation::Or => a | b,
        Operation::And => a & b,
    }
}

// What is known of the result.
pub(crate) fn folded(operation: Operation, a: Slot, b: Slot) -> Slot
    ensures { result ≡ operations.folded operation a b }
{
    match (number_in(a), number_in(b)) {
        (Some(a), Some(b)) => constant(result_of(operation, a, b)),
        _ => Slot::Unknown,
    }
}
