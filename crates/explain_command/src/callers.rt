//! The last functions on the stack of a process that was trapped, as far as its words tell them.

use crate::places::add_function;
use crate::sights::Sight;
use machine::KernelState;
use printed_runs::Text;
use rv_isa::rd;

/// The most functions that are named.
const MOST_NAMED: u32 = 8;
/// The most words that are looked at: a stack of 64 KiB.
const MOST_WORDS: u32 = 16_384;

/// Adds a line for each word of a stack, from the stack pointer on, that may be where a call returns to: an address in a function of the
/// files, after an instruction that calls. There are at most eight. What the stack kept from earlier calls looks the same.
pub(crate) fn add_callers(text: &mut Text, k: &KernelState, seen: &Sight, files: &[Vec<u8>]) {
    let (low, end) = seen.stack;
    let mut address = seen.hart.regs[2];
    if address < low {
        return;
    }
    let mut named = 0u32;
    for _ in 0..MOST_WORDS {
        if address >= end || named >= MOST_NAMED {
            return;
        }
        let word = k.ram.read32(address).unwrap_or(0);
        if comes_after_call(k, word) {
            let before = text.len();
            add_function(text, "on its stack: ", files, word);
            if text.len() > before {
                text.put("\n");
                named = named.saturating_add(1);
            }
        }
        address = address.saturating_add(4);
    }
}

// Whether the instruction before an address is a call: `jal` or `jalr` that keeps the place after it in ra.
fn comes_after_call(k: &KernelState, address: u32) -> bool {
    if address < 4 {
        return false;
    }
    match k.ram.read32(address - 4) {
        Some(word) => matches!(word % 128, 0x6f | 0x67) && rd(word) == 1,
        None => false,
    }
}
