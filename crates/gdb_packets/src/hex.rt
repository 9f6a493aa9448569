//! Hexadecimal texts of bytes and words.

ghost use Rattle.std.specs.Prelude.{◌≡◌, ◌<◌, ◌++◌, OnOk};
ghost use Rattle.std.specs.Int.{to_le_bytes, w32};
ghost use Rattle.xinu_base.specs.Hexadecimal.{hex_digit, hex_of};

use std::alloc::AllocError;

/// The character of a digit, in lower case.
pub(crate) fn digit_of(value: u8) -> u8
    requires { value < 16 }
    ensures { result ≡ hex_digit value }
{
    if value < 10 {
        b'0' + value
    } else {
        b'a' + (value - 10)
    }
}

/// Appends two digits for each byte.
///
/// # Errors
/// Out of memory; some digits may have been appended.
pub fn push_hex(text: &mut Vec<u8>, bytes: &[u8]) -> Result<(), AllocError>
    ensures appended { OnOk result (text.new.items ≡ text.old.items ++ hex_of bytes.now) }
{
    for byte in bytes {
        text.push(digit_of(*byte / 16))?;
        text.push(digit_of(*byte % 16))?;
    }
    Ok(())
}

/// Appends the eight digits of a word, its lowest byte first.
///
/// # Errors
/// Out of memory; some digits may have been appended.
pub fn push_word(text: &mut Vec<u8>, word: u32) -> Result<(), AllocError>
    ensures appended { OnOk result (text.new.items ≡ text.old.items ++ hex_of (to_le_bytes w32 word)) }
{
    push_hex(text, &word.to_le_bytes())
}
