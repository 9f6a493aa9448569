//! Plain instructions of a process, one after another.

ghost use Rattle.std.specs.Prelude.{◌≡◌, ◌≤◌};
ghost use Rattle.xinu_model.specs.Isa.Ran.{ran};

use crate::ram::Ram;
use crate::stepping::step;
use xinu_base::{Hart, Outcome};

/// Carries out plain instructions of a process, at most so many, and answers how many there were.
///
/// It stops before the first instruction that calls, traps or returns from the process's first function: that one isn't carried out.
pub fn plain_steps(hart: &mut Hart, ram: &mut Ram, most: u32) -> u32
    ensures count { result ≡ (ran most hart.old ram.old).count }
    ensures hart { hart.new ≡ (ran most hart.old ram.old).hart }
    ensures memory { ram.new ≡ (ran most hart.old ram.old).memory }
    ensures most { result ≤ most }
{
    for count in 0..most {
        let pc = hart.pc;
        match step(hart, ram) {
            Outcome::Went => {}
            _ => {
                // What is no plain instruction changes nothing but the pc.
                hart.pc = pc;
                return count;
            }
        }
    }
    most
}
