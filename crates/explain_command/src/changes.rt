//! What a step changed: a register, and a word of RAM.

ghost use Rattle.std.specs.Prelude.{◌≡◌};
ghost use Rattle.explain_command.specs.Changes as specs;
ghost use Rattle.explain_command.specs.Changes.{AreChanged, IsFirstChange};
ghost use Rattle.xinu_model.specs.Sound.State.{IsSound};

use crate::sights::{Deed, Sight};
use machine::KernelState;
use replayed_run::Replay;
use rv_hart::Hart;
use rv_isa::{immediate_s, rs1};
use xinu_base::State;

/// The first register that a step changed, with what it holds then; and if it was a store the address of its word, with that word then.
#[derive(Clone, Copy)]
pub(crate) struct Changes {
    pub(crate) register: Option<(u32, u32)>,
    pub(crate) stored: Option<(u32, u32)>,
}

/// What the step of a process changed, by what was seen ahead of it.
pub(crate) fn changes_of(replay: &Replay, seen: &Sight) -> Changes
    ensures changed { AreChanged replay.now.state seen.now result }
{
    changes_in(replay.state(), seen)
}

// What a step changed that led to a state. A step that ended its process changed none of its registers, and stored nothing.
fn changes_in(k: &KernelState, seen: &Sight) -> Changes
    requires sound { IsSound k.now.call.state }
    ensures changed { AreChanged k.now.call.state seen.now result }
{
    if matches!(k.tables.process(seen.process).state, State::Free) {
        return Changes {
            register: None,
            stored: None,
        };
    }
    let after = k.harts[seen.process.index()];
    Changes {
        register: changed(&seen.hart, &after),
        stored: stored_in(k, seen),
    }
}

// The first register that differs.
fn changed(before: &Hart, after: &Hart) -> Option<(u32, u32)>
    ensures first { IsFirstChange before.now.regs after.now.regs result }
{
    for number in 1..32u32 {
        let is = after.regs[number as usize];
        if before.regs[number as usize] != is {
            return Some((number, is));
        }
    }
    None
}

// The word in which a step stored, as a state has it, if it executed a store.
fn stored_in(k: &KernelState, seen: &Sight) -> Option<(u32, u32)>
    ensures stored { result ≡ specs.stored_in seen.now.deed seen.now.word seen.now.hart k.now.call.state.memory }
{
    if !matches!(seen.deed, Deed::Executes) {
        return None;
    }
    let word = seen.word?;
    if word % 128 != 0x23 {
        return None;
    }
    let address = stored_at(word, &seen.hart);
    let now = k.ram.read32(address)?;
    Some((address, now))
}

// The address of the word in which a store stores.
fn stored_at(word: u32, hart: &Hart) -> u32
    ensures address { result ≡ specs.stored_at word hart.now }
{
    let base = hart.regs[rs1(word) as usize];
    let address = base.wrapping_add(immediate_s(word));
    address - address % 4
}
