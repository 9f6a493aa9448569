//! Texts in RAM, as calls on devices name them: a text ends before its first zero byte, which is one of 128.

ghost use Rattle.std.specs.Prelude.{◌≡◌, MatchOption, None, Some};
ghost use Rattle.xinu_model.specs.Devices.Texts as model;

use rv_hart::Ram;

/// The text at an address. `None` if and only if no zero byte is among the 128 bytes there that are in RAM.
pub(crate) fn text_at(ram: &Ram, a: u32) -> Option<&[u8]>
    ensures text { MatchOption result (model.text_at a ram.now ≡ None) (λ t. model.text_at a ram.now ≡ Some t.now) }
{
    let bytes = ram.bytes_from(a);
    if bytes.len() > 128 {
        text_in(&bytes[..128])
    } else {
        text_in(bytes)
    }
}

// The bytes before the first zero byte, if there is one.
fn text_in(bytes: &[u8]) -> Option<&[u8]>
    ensures text { MatchOption result (model.text_in bytes.now ≡ None) (λ t. model.text_in bytes.now ≡ Some t.now) }
{
    for i in 0..bytes.len() {
        if bytes[i] == 0 {
            return Some(&bytes[..i]);
        }
    }
    None
}
