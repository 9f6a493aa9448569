//! The directory block of version 1, which is read and never written.

ghost use Rattle.std.specs.Prelude.{◌≡◌, length};
ghost use Rattle.lfs_format.specs.Directory.{entry_1_of, dir_1_of};

use crate::{Dir1, Entry1};
use byteorder::{ByteOrder, LittleEndian};

/// The directory of version 1 in its block.
pub fn read_dir_1(block: &[u8; 512]) -> Dir1
    ensures { result ≡ dir_1_of block.now }
{
    let mut words = [0u32; 3];
    LittleEndian::read_u32_into(&block[..12], &mut words);
    let blank = Entry1 {
        size: 0,
        first: 0,
        name: [0; 16],
    };
    let mut entries = [blank; 20];
    for e in 0..20 {
        entries[e] = entry_1_from(&block[12 + 24 * e..36 + 24 * e]);
    }
    Dir1 {
        free_data: words[0],
        free_index: words[1],
        files: words[2],
        entries,
    }
}

// The entry in 24 bytes.
fn entry_1_from(part: &[u8]) -> Entry1
    requires { length part.now ≡ 24 }
    ensures { result ≡ entry_1_of part.now }
{
    let mut words = [0u32; 2];
    LittleEndian::read_u32_into(&part[..8], &mut words);
    let mut name = [0u8; 16];
    name.copy_from_slice(&part[8..]);
    Entry1 {
        size: words[0],
        first: words[1],
        name,
    }
}
