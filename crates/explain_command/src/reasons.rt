//! Why a process was trapped: the address for which it reached, and what lies there.

ghost use Rattle.std.specs.Prelude.{◌≡◌};
ghost use Rattle.explain_command.specs.Reasons as specs;

use crate::sights::Sight;
use machine::KernelState;
use printed_runs::Text;
use run_story::Story;
use rv_disasm::register_name;
use rv_hart::Hart;
use rv_isa::{decode, immediate_i, immediate_s, rs1};
use xinu_base::{Pid, RAM_SIZE, State};

/// An address that an instruction makes: a register and an offset, which wrap at 32 bits.
#[derive(Clone, Copy)]
pub(crate) struct Reach {
    pub(crate) address: u32,
    pub(crate) register: u32,
    pub(crate) offset: u32,
}

/// Adds a line that says why a process is trapped in its next step, after which this is the state: the word that isn't an instruction, or
/// the address for which it reaches, and what lies there. Nothing if its place says it all.
pub(crate) fn add_reason(text: &mut Text, seen: &Sight, k: &KernelState, story: &Story) {
    let pc = seen.hart.pc;
    let Some(word) = seen.word else {
        text.put("pc is ");
        add_place_of(text, pc, 4, seen, k, story);
        return text.put("\n");
    };
    if decode(word).is_none() {
        text.put("0x");
        text.hex_word(word);
        text.put(" isn't an instruction, and pc is ");
        add_place_of(text, pc, 4, seen, k, story);
        return text.put("\n");
    }
    if let Some(reach) = reach_of(word, &seen.hart) {
        add_reach(text, &reach, &seen.hart);
        add_place_of(text, reach.address, width_of(word), seen, k, story);
        text.put("\n");
    }
}

// The address that a load, a store or a jump by a register makes.
fn reach_of(word: u32, hart: &Hart) -> Option<Reach>
    ensures reach { result ≡ specs.reach_of word hart.now }
{
    let offset = offset_of(word)?;
    let register = rs1(word);
    let address = hart.regs[register as usize].wrapping_add(offset);
    Some(Reach {
        address,
        register,
        offset,
    })
}

// The offset of a load, a store or a jump by a register.
fn offset_of(word: u32) -> Option<u32>
    ensures offset { result ≡ specs.offset_of word }
{
    let kind = word % 128;
    if kind == 0x23 {
        Some(immediate_s(word))
    } else if kind == 0x03 || kind == 0x67 {
        Some(immediate_i(word))
    } else {
        None
    }
}

// The width that an instruction's address has to be a multiple of.
fn width_of(word: u32) -> u32 {
    match (word % 128, word / 0x1000 % 4) {
        (0x67, _) => 4,
        (_, 0) => 1,
        (_, 1) => 2,
        _ => 4,
    }
}

// Adds how an address was made.
fn add_reach(text: &mut Text, reach: &Reach, hart: &Hart) {
    let name = if reach.register < 32 {
        register_name(reach.register)
    } else {
        ""
    };
    text.put("the address 0x");
    text.hex_word(reach.address);
    text.put(" is ");
    text.put(name);
    let offset = reach.offset.cast_signed();
    text.put(if offset < 0 { " - " } else { " + " });
    text.number(offset.unsigned_abs() as u64);
    let is_null = hart.regs.get(reach.register as usize).copied() == Some(0);
    if is_null && reach.register > 0 {
        text.put(", and ");
        text.put(name);
        text.put(" is 0");
    }
    text.put(": ");
}

// Adds what lies at an address, which should be a multiple of a width.
fn add_place_of(
    text: &mut Text,
    address: u32,
    width: u32,
    seen: &Sight,
    k: &KernelState,
    story: &Story,
) {
    if width > 0 && address % width != 0 {
        text.numbered("not a multiple of ", width as u64);
        text.put(", and ");
    }
    let (low, end) = seen.stack;
    if address >= RAM_SIZE {
        text.put("beyond RAM, which ends at 0x");
        text.hex_word(RAM_SIZE);
    } else if low <= address && address < end {
        text.put("in its own stack");
    } else {
        add_owner(text, address, k, story);
    }
}

// Adds in whose stack an address is.
fn add_owner(text: &mut Text, address: u32, k: &KernelState, story: &Story) {
    for number in 1..64u32 {
        if let Some(process) = Pid::from_word(number) {
            if has_in_stack(k, process, address) {
                text.put("in the stack of ");
                return story.add_who(text, number as usize);
            }
        }
    }
    text.put("in RAM, outside every stack");
}

// Whether an address is in the stack of a process that lives.
fn has_in_stack(k: &KernelState, process: Pid, address: u32) -> bool {
    let entry = k.tables.process(process);
    if matches!(entry.state, State::Free) {
        return false;
    }
    let end = entry.stack.saturating_add(4);
    end.saturating_sub(entry.stack_size) <= address && address < end
}
