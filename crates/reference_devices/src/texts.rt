//! Texts in RAM, as calls on devices name them: a text ends before its first zero byte, which is one of 128.

ghost use Rattle.std.specs.Prelude.{◌≡◌, [], IfOk};
ghost use Rattle.xinu_model.specs.Devices.Texts as model;

use reference_state::{Bytes, Machine};
use reference_tables::push;
use xinu_base::NoMemory;

/// The text at an address. `None` if and only if no zero byte is among the 128 bytes there that are in RAM.
pub fn text_at(m: &Machine, a: u32) -> Result<Option<Bytes>, NoMemory>
    ensures text { IfOk result (λ t. t ≡ model.text_at a m.now.state.memory) }
{
    let text = Vec::new(*m.names.allocator());
    let bytes = m.memory.bytes_from(a);
    if bytes.len() > 128 {
        text_in(text, &bytes[..128])
    } else {
        text_in(text, bytes)
    }
}

// The bytes before the first zero byte, if there is one, after those of a text so far, which is empty.
fn text_in(before: Vec<u8>, bytes: &[u8]) -> Result<Option<Bytes>, NoMemory>
    requires empty { before.items ≡ [] }
    ensures text { IfOk result (λ t. t ≡ model.text_in bytes.now) }
{
    let mut text = before;
    for b in bytes {
        if *b == 0 {
            return Ok(Some(Bytes { bytes: text }));
        }
        push(&mut text, *b)?;
    }
    Ok(None)
}
