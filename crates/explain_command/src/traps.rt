//! Where a process was trapped: the instruction, its function, the registers and the stack.

use crate::places::{add_function, shown};
use crate::sights::{Sight, place_line, register_line};
use printed_runs::Text;
use rv_disasm::disassembled;

/// Adds the line that tells where a process was that is trapped in its next step. The images were read from these files.
pub(crate) fn add_trap_place(text: &mut Text, seen: &Sight, files: &[Vec<u8>]) {
    add_place(text, seen, files);
    text.put("\n");
}

/// Adds the lines that tell where its function returns to, and its registers.
pub(crate) fn add_trap(text: &mut Text, seen: &Sight, files: &[Vec<u8>]) {
    let words = "its function returns to ";
    add_function(text, words, files, seen.hart.regs[1]);
    if !text.as_str().ends_with("\n") {
        text.put("\n");
    }
    for first in [0, 4, 8, 12, 16, 20, 24, 28] {
        text.put(shown(register_line(&seen.hart, first).bytes()));
        text.put("\n");
    }
    add_stack(text, seen);
}

/// Adds the place of a process, and the instruction there.
pub(crate) fn add_place(text: &mut Text, seen: &Sight, files: &[Vec<u8>]) {
    let pc = seen.hart.pc;
    text.put(shown(place_line(pc).bytes()));
    add_function(text, ", ", files, pc);
    if let Some(word) = seen.word {
        text.put(": ");
        text.put(shown(disassembled(word, pc).bytes()));
    }
}

// Says so if the stack pointer is outside the process's stack.
fn add_stack(text: &mut Text, seen: &Sight) {
    let sp = seen.hart.regs[2];
    let (low, end) = seen.stack;
    if sp < low || end < sp {
        let size = end.saturating_sub(low);
        text.numbered("sp is outside the stack, which has ", size as u64);
        text.put(" bytes\n");
    }
}
