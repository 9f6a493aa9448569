//! One step of a process: its instruction is fetched and carried out.

ghost use Rattle.std.specs.Prelude.{◌≡◌, slice_index};
ghost use Rattle.xinu_model.specs.Isa.Exec.{exec};

use crate::execute::execute;
use crate::ram::Ram;
use xinu_base::{Cause, Hart, INITRET, Outcome};

/// Carries out one step of a process with these registers and this pc (RISC-V unprivileged manual, chapter on the RV32I base).
///
/// `Exit` comes if the pc is 0xfffffffc, `Trap(Fetch)` if it is no multiple of 4 or RAM has no word there; both change nothing. Otherwise
/// the word is carried out: `Trap(Illegal)` if it is no instruction, `Call` for `ECALL`, after which the pc is that of the next
/// instruction. Register x0 stays 0.
#[inline(always)]
pub fn step(hart: &mut Hart, ram: &mut Ram) -> Outcome
    ensures outcome { result ≡ (exec hart.old ram.old).outcome }
    ensures hart { hart.new ≡ (exec hart.old ram.old).hart }
    ensures memory { ram.new ≡ (exec hart.old ram.old).memory }
    ensures zero { slice_index hart.old.regs 0 ≡ 0 → slice_index hart.new.regs 0 ≡ 0 }
{
    match ram.read32(hart.pc) {
        Some(word) => execute(hart, ram, word),
        None if hart.pc == INITRET => Outcome::Exit,
        None => Outcome::Trap(Cause::Fetch),
    }
}
