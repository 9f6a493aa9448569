//! Numbers in the bytes of a file.

ghost use Rattle.std.specs.Prelude.{◌≡◌, ◌≤◌, ◌+◌, length};
ghost use Rattle.xinu_model.specs.Memory.{number_at};

use byteorder::{ByteOrder, LittleEndian};

/// The half word at a place, the lowest byte first.
pub fn half_at(bytes: &[u8], place: usize) -> u16
    requires { place + 2 ≤ length bytes.now }
    ensures { result ≡ number_at bytes.now place 2 }
{
    LittleEndian::read_u16(&bytes[place..])
}

/// The word at a place, the lowest byte first.
pub fn word_at(bytes: &[u8], place: usize) -> u32
    requires { place + 4 ≤ length bytes.now }
    ensures { result ≡ number_at bytes.now place 4 }
{
    LittleEndian::read_u32(&bytes[place..])
}
