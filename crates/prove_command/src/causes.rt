//! Why a walk through a program stops.

use program_logic::Slot;

/// Why a place isn't followed any further.
#[derive(Clone, Copy)]
pub enum Cause {
    /// It reads the guarded word without the lock.
    Reads,
    /// It writes the guarded word without the lock.
    Writes,
    /// It waits for the lock, which it holds.
    Waits,
    /// It gives back the lock, which it doesn't hold.
    Gives,
    /// It gives back the lock while the word is this.
    Leaves(Slot),
    /// It reads at this address, which isn't known, or where a load traps.
    ReadsAt(Slot),
    /// It writes at this address, which isn't known, or doesn't lie behind the guarded word.
    WritesAt(Slot),
    /// It waits on or signals this semaphore, which isn't the lock.
    OtherSemaphore(Slot),
    /// It makes a semaphore with this count.
    Count(Slot),
    /// It makes a semaphore while it holds the lock.
    Makes,
    /// It sleeps for this many ticks.
    Sleeps(Slot),
    /// It makes the call of this number.
    Call(Slot),
    /// Its instruction isn't one of those that are followed.
    Instruction,
    /// It goes to an address that isn't known.
    Goes,
    /// It goes to an address that is no place of the program.
    Target(u32),
    /// There is no word of a program.
    NoWord,
    /// The program has too many places.
    TooLong,
}

impl Cause {
    /// Whether the rule of the lock is broken on the way to it; else what comes there isn't covered.
    pub fn breaks_the_rule(self) -> bool {
        match self {
            Cause::Reads | Cause::Writes | Cause::Waits | Cause::Gives => true,
            Cause::Leaves(Slot::Known(_)) => true,
            _ => false,
        }
    }
}

/// A place at which a walk stopped.
#[derive(Clone, Copy)]
pub struct Fault {
    /// The number of the image, counted from 1.
    pub image: u8,
    /// The address of the place.
    pub address: u32,
    /// Whether a process comes there with the lock.
    pub held: bool,
    /// Why.
    pub cause: Cause,
}
