//! What is seen of a run ahead of a step: what the current process does in it, its registers, the word at its pc, and the call that it makes or
//! goes on in.

ghost use Rattle.std.specs.Prelude.{◌≡◌, ◌+◌, ◌++◌, ◌<◌, ◌≤◌, length};
ghost use Rattle.explain_command.specs.Sights as specs;
ghost use Rattle.explain_command.specs.Sights.{IsSeen, IsSeenIn, deed_in};
ghost use Rattle.xinu_model.specs.Sound.State.{IsSound};

use machine::KernelState;
use replayed_run::Replay;
use rv_disasm::{AsmLine, register_name};
use rv_hart::Hart;
use xinu_base::{Call, Pid};

/// What the current process does in a step.
#[derive(Clone, Copy)]
pub(crate) enum Deed {
    /// Nothing: it is the null process.
    Nothing,
    /// It goes on in the call that it waited in, and executes nothing.
    GoesOn,
    /// It executes the word at its pc.
    Executes,
}

/// The current process, what it does next, its registers, the word at its pc, if RAM has one there, and the call that its registers ask for.
#[derive(Clone, Copy)]
pub(crate) struct Sight {
    /// How many events were taken before.
    pub(crate) taken: u32,
    pub(crate) process: Pid,
    pub(crate) deed: Deed,
    pub(crate) hart: Hart,
    pub(crate) word: Option<u32>,
    pub(crate) call: Call,
    /// The lowest address of its stack, and the first one after it.
    pub(crate) stack: (u32, u32),
}

/// What is seen of a run after the events that were taken.
pub(crate) fn look(replay: &Replay) -> Sight
    ensures seen { IsSeenIn replay.now result }
{
    replay.runs();
    seen(replay.state(), replay.taken())
}

// What is seen in a state after so many events.
fn seen(k: &KernelState, taken: u32) -> Sight
    requires sound { IsSound k.now.call.state }
    ensures state { IsSeen k.now.call.state result }
    ensures taken { result.taken ≡ taken }
{
    let process = k.tables.current();
    let hart = k.harts[process.index()];
    let word = k.ram.read32(hart.pc);
    let entry = k.tables.process(process);
    let end = entry.stack.saturating_add(4);
    Sight {
        taken,
        process,
        deed: deed_in(k),
        hart,
        word,
        call: k.call_of(),
        stack: (end.saturating_sub(entry.stack_size), end),
    }
}

// What the current process does in the next step.
fn deed_in(k: &KernelState) -> Deed
    ensures deed { result ≡ deed_in k.now.call.state }
{
    if k.tables.current().index() == 0 {
        Deed::Nothing
    } else if k.tables.is_done() {
        Deed::Executes
    } else {
        Deed::GoesOn
    }
}

/// A line with four registers, from this one on.
pub(crate) fn register_line(hart: &Hart, first: usize) -> AsmLine
    requires four { first + 4 ≤ 32 }
    ensures line { result ≡ specs.register_line hart.now first }
{
    let mut line = AsmLine::new();
    add_register(&mut line, hart, first);
    add_register(&mut line, hart, first + 1);
    add_register(&mut line, hart, first + 2);
    add_register(&mut line, hart, first + 3);
    line
}

// Adds the name of a register, and the word that it holds.
fn add_register(line: &mut AsmLine, hart: &Hart, number: usize)
    requires number { number < 32 }
    requires fits { length line.old ≤ 60 }
    ensures register { line.new ≡ line.old ++ specs.register_text hart.now number }
    ensures size { length line.new ≤ length line.old + 14 }
{
    line.append(b" ");
    line.append(register_name(number as u32).as_bytes());
    line.append(b" ");
    line.hex_word(hart.regs[number]);
}

/// A line with the address of an instruction.
pub(crate) fn place_line(pc: u32) -> AsmLine
    ensures line { result ≡ specs.place_line pc }
{
    let mut line = AsmLine::new();
    line.append(b"pc 0x");
    line.hex_word(pc);
    line
}
