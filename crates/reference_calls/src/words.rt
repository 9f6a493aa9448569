//! Words of calls as numbers.

ghost use Rattle.std.specs.Prelude.{◌≡◌};
ghost use Rattle.xinu_model.specs.Words as model;

/// The low 16 bits of a word, with their sign.
pub fn half(word: u32) -> i16
    ensures half { result ≡ model.half word }
{
    ((word % 65536) as u16).cast_signed()
}

/// A word as a signed number.
pub fn signed(word: u32) -> i32
    ensures signed { result ≡ model.signed word }
{
    word.cast_signed()
}
