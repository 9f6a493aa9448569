//! The words of instructions.

ghost use Rattle.std.specs.Prelude.{◌≡◌, ◌<◌, ◌≤ℤ◌, pos, negsuc, ◌∷◌, []};
ghost use Rattle.asm_syntax.specs.Statements as spec;

use rv_isa::{Form, word_with};

/// The two words that load a number into register `rd`, which is below 32: `lui` of its upper 20 bits, rounded, and `addi` of the lower 12
/// as a signed number.
pub fn load(rd: u8, number: u32) -> (u32, u32)
    requires register { rd < 32 }
    ensures words { result.0 ∷ (result.1 ∷ []) ≡ spec.load rd number }
{
    let upper = (number as u64 + 0x800) / 0x1000 % 0x10_0000 * 0x1000;
    (
        word_with(0x37, Form::U, rd, 0, 0, upper as u32),
        word_with(0x13, Form::I, rd, rd, 0, number),
    )
}

/// A number from -2147483648 to 4294967295 as a word, in two's complement.
pub fn word_of(number: i64) -> u32
    requires low { negsuc 2147483647 ≤ℤ number }
    requires high { number ≤ℤ pos 4294967295 }
    ensures word { result ≡ spec.word_of number }
{
    if number < 0 {
        (number + 0x1_0000_0000) as u32
    } else {
        number as u32
    }
}
