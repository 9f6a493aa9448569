//! The next instruction of a process: the bytes that it loads or stores, and whether that is all that it does.

ghost use Rattle.std.specs.Prelude.{◌<◌, IfSome};

use crate::acts::is_in_ram;
use rv_hart::{Hart, Ram};
use rv_isa::{decode, immediate_b, immediate_i, immediate_j, immediate_s, rs1};
use xinu_base::INITRET;

/// The bytes that an instruction loads or stores.
#[derive(Clone, Copy)]
pub(crate) struct Transfer {
    pub(crate) stores: bool,
    pub(crate) address: u32,
    pub(crate) count: u32,
}

/// The word that is executed next; `None` if the process returns from its first function, or RAM has no word there.
pub(crate) fn next_word(hart: &Hart, ram: &Ram) -> Option<u32> {
    if hart.pc == INITRET {
        None
    } else {
        ram.read32(hart.pc)
    }
}

/// What an instruction loads or stores; `None` if it does neither, or is trapped.
pub(crate) fn transfer_of(word: u32, hart: &Hart) -> Option<Transfer> {
    let (stores, offset) = match word % 0x80 {
        0x03 => (false, immediate_i(word)),
        0x23 => (true, immediate_s(word)),
        _ => return None,
    };
    let count = width_of(stores, word / 0x1000 % 8)?;
    let address = register(hart, word).wrapping_add(offset);
    if address % count == 0 && is_in_ram(address, count) {
        Some(Transfer {
            stores,
            address,
            count,
        })
    } else {
        None
    }
}

/// Whether all that an instruction does is to its process's registers and to what it loads or stores: it is no call, and isn't trapped.
pub(crate) fn is_plain(word: u32, hart: &Hart) -> bool {
    match word % 0x80 {
        0x03 | 0x23 => transfer_of(word, hart).is_some(),
        0x0f | 0x13 | 0x17 | 0x33 | 0x37 => decode(word).is_some(),
        0x63 => decode(word).is_some() && immediate_b(word) % 4 == 0,
        0x67 => {
            decode(word).is_some() && register(hart, word).wrapping_add(immediate_i(word)) % 4 < 2
        }
        0x6f => immediate_j(word) % 4 == 0,
        _ => false,
    }
}

// How many bytes a load or a store takes, by its kind.
fn width_of(stores: bool, kind: u32) -> Option<u32>
    ensures some { IfSome result (λ w. 0 < w) }
{
    match (stores, kind) {
        (_, 0) => Some(1),
        (_, 1) => Some(2),
        (_, 2) => Some(4),
        (false, 4) => Some(1),
        (false, 5) => Some(2),
        _ => None,
    }
}

// The first register that an instruction reads.
fn register(hart: &Hart, word: u32) -> u32 {
    hart.regs[rs1(word) as usize]
}
