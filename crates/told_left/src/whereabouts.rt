//! Where a process is at the end of a run: in which call, if it waits in one, and at which instruction.

ghost use Rattle.std.specs.Prelude.{◌≡◌, ◌++◌, [], OnOk, if◌then◌else◌, map, slice_index_or};
ghost use Rattle.told_left.specs.Whereabouts as spec;
ghost use Rattle.xinu_model.specs.Events.{call_of};
ghost use Rattle.xinu_model.specs.Machine.{no_hart};
ghost use Rattle.xinu_model.specs.Sound.State.{IsSound};

use crate::calls::push_call;
use kernel_state::KernelState;
use rv_disasm::{AsmLine, disassembled};
use rv_hart::{Hart, Ram};
use std::alloc::AllocError;
use told_places::push_function;
use xinu_base::{Call, Pid, State};

/// Appends a line that tells where a process is: in the call that it waits in and at the instruction that made it, or at the next instruction.
pub(crate) fn push_whereabouts(
    told: &mut Vec<u8>,
    files: &[Vec<u8>],
    k: &KernelState,
    process: Pid,
) -> Result<(), AllocError>
    requires sound { IsSound k.now.call.state }
    ensures whereabouts { OnOk result (told.new.items ≡ told.old.items ++ spec.whereabouts_text (map (λ v. v.items) files.now) k.now.call.state process) }
{
    let hart = hart_of(k, process);
    let is_waiting = is_in_call(k.tables.process(process).state);
    push_line(told, files, &k.ram, &hart, is_waiting)
}

// Appends the line of a process with these registers.
#[tactic(auto, unfolding(crate::specs::Whereabouts::line_text))]
fn push_line(
    told: &mut Vec<u8>,
    files: &[Vec<u8>],
    ram: &Ram,
    hart: &Hart,
    is_waiting: bool,
) -> Result<(), AllocError>
    ensures line { OnOk result (told.new.items ≡ told.old.items ++ spec.line_text (map (λ v. v.items) files.now) ram.now hart.now is_waiting) }
{
    told.extend_from_slice(b"      ")?;
    push_in_call(told, hart, is_waiting)?;
    push_place(told, files, ram, place_of(hart, is_waiting), is_waiting)
}

// Appends the call that a process is in, if it is in one.
#[tactic(auto, unfolding(crate::specs::Whereabouts::in_call_text))]
fn push_in_call(told: &mut Vec<u8>, hart: &Hart, is_waiting: bool) -> Result<(), AllocError>
    ensures call { OnOk result (told.new.items ≡ told.old.items ++ spec.in_call_text hart.now is_waiting) }
{
    if is_waiting {
        told.extend_from_slice(b"in ")?;
        push_call(told, &call_asked(hart))?;
        told.extend_from_slice(b", ")?;
    }
    Ok(())
}

// Appends an address, the function that it is in, and the instruction there unless a process waits.
#[tactic(auto, unfolding(crate::specs::Whereabouts::place_text))]
fn push_place(
    told: &mut Vec<u8>,
    files: &[Vec<u8>],
    ram: &Ram,
    pc: u32,
    is_waiting: bool,
) -> Result<(), AllocError>
    ensures place { OnOk result (told.new.items ≡ told.old.items ++ spec.place_text (map (λ v. v.items) files.now) ram.now pc is_waiting) }
{
    push_pc(told, pc)?;
    push_function(told, ", ", files, pc)?;
    push_unless(told, ram, pc, is_waiting)?;
    told.extend_from_slice(b"\n")
}

// Appends the address of an instruction.
#[tactic(auto, unfolding(crate::specs::Whereabouts::pc_text))]
fn push_pc(told: &mut Vec<u8>, pc: u32) -> Result<(), AllocError>
    ensures pc { OnOk result (told.new.items ≡ told.old.items ++ spec.pc_text pc) }
{
    let mut line = AsmLine::new();
    line.append(b"pc 0x");
    line.hex_word(pc);
    told.extend_from_slice(line.bytes())
}

// Appends the instruction at an address, unless a process waits.
fn push_unless(told: &mut Vec<u8>, ram: &Ram, pc: u32, is_waiting: bool) -> Result<(), AllocError>
    ensures instruction { OnOk result (told.new.items ≡ told.old.items ++ (if is_waiting then [] else spec.instruction_text ram.now pc)) }
{
    if is_waiting {
        Ok(())
    } else {
        push_instruction(told, ram, pc)
    }
}

// Appends the instruction at an address, if RAM has one there.
#[tactic(auto, unfolding(crate::specs::Whereabouts::instruction_text))]
fn push_instruction(told: &mut Vec<u8>, ram: &Ram, pc: u32) -> Result<(), AllocError>
    ensures instruction { OnOk result (told.new.items ≡ told.old.items ++ spec.instruction_text ram.now pc) }
{
    match ram.read32(pc) {
        Some(word) => {
            told.extend_from_slice(b": ")?;
            told.extend_from_slice(disassembled(word, pc).bytes())
        }
        None => Ok(()),
    }
}

// The registers of a process.
fn hart_of(k: &KernelState, process: Pid) -> Hart
    requires sound { IsSound k.now.call.state }
    ensures hart { result ≡ slice_index_or k.now.call.state.harts process no_hart }
{
    k.harts[process.index()]
}

// Whether a process in this state is in a call that it made itself.
fn is_in_call(state: State) -> bool
    ensures is { result ≡ spec.is_in_call state }
{
    matches!(
        state,
        State::Waiting | State::Receiving | State::Timed | State::Sleeping
    )
}

// The call that registers ask for.
fn call_asked(hart: &Hart) -> Call
    ensures call { result ≡ call_of hart.now }
{
    let regs = &hart.regs;
    Call {
        number: regs[17],
        args: [regs[10], regs[11], regs[12], regs[13], regs[14], regs[15]],
    }
}

/// The address of the instruction that made the call in which a process waits, or of its next instruction if it doesn't wait.
pub fn place_of(hart: &Hart, is_waiting: bool) -> u32
    ensures place { result ≡ spec.place_of hart.now is_waiting }
{
    if is_waiting {
        hart.pc.wrapping_sub(4)
    } else {
        hart.pc
    }
}
