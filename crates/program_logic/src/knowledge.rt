//! What is known of the registers and of the guarded word at a place.

ghost use Rattle.std.specs.Prelude.{◌≡◌, slice_set};
ghost use Rattle.program_logic.specs.Terms as terms;

use crate::values::{Slot, constant, fixed, slot_entails};

/// What is known at a place.
#[derive(Clone, Copy)]
pub struct Facts {
    /// Of each register.
    pub registers: [Slot; 32],
    /// Of the guarded word.
    pub word: Slot,
}

/// What is known of a register: x0 is 0.
pub fn slot_of(facts: &Facts, i: u8) -> Slot
    ensures { result ≡ terms.slot_of facts.now i }
{
    if i == 0 {
        constant(0)
    } else if i < 32 {
        facts.registers[i as usize]
    } else {
        Slot::Unknown
    }
}

/// What is known once a register was given a value.
pub fn given(facts: &Facts, i: u8, slot: Slot) -> Facts
    ensures { result ≡ terms.given facts.now i slot }
{
    let mut after = *facts;
    if i != 0 && i < 32 {
        after.registers[i as usize] = slot;
    }
    after
}

#[tactic(auto, using(crate::proofs::EachRegister::entail_goes, crate::proofs::EachRegister::entail_stops, crate::proofs::EachRegister::entail_done))]
fn slots_entail(have: &[Slot; 32], want: &[Slot; 32]) -> bool
    ensures { result ≡ terms.slots_entail have.now want.now }
{
    for i in 0..32usize {
        if !slot_entails(have[i], want[i]) {
            return false;
        }
    }
    true
}

// Whether what is known at a place has all that is to be known.
pub(crate) fn facts_entail(have: &Facts, want: &Facts) -> bool
    ensures { result ≡ terms.facts_entail have.now want.now }
{
    slot_entails(have.word, want.word) && slots_entail(&have.registers, &want.registers)
}

// What stays known of the registers when the count does not.
#[tactic(auto, using(crate::proofs::EachRegister::fixed_step, crate::proofs::EachRegister::fixed_all))]
fn all_fixed(registers: &[Slot; 32]) -> [Slot; 32]
    ensures { result ≡ terms.all_fixed registers.now }
{
    let mut kept = *registers;
    for i in 0..32usize {
        kept[i] = fixed(registers[i]);
    }
    kept
}

/// What is known once a call was answered with 0, and others ran.
pub fn after_call(facts: &Facts, word: Slot) -> Facts
    ensures { result ≡ record { registers = slice_set (terms.all_fixed facts.now.registers) 10 (Slot.Known (terms.constant 0)); word = word } }
{
    let mut registers = all_fixed(&facts.registers);
    registers[10] = constant(0);
    Facts { registers, word }
}
