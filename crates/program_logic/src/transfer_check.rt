//! Loads and stores: the guarded word is loaded and stored with the token alone; else a load takes what isn't known, and a store puts what lies
//! behind the guarded word, where no program is.

ghost use Rattle.std.specs.Prelude.{◌≡◌, ◌<◌, ◌&&◌, length};
ghost use Rattle.program_logic.specs.Acts.{bytes_in};
ghost use Rattle.program_logic.specs.PlaceCheck as places;
ghost use Rattle.program_logic.specs.Terms as terms;
ghost use Rattle.xinu_model.specs.Memory as memory;

use crate::acts::Width;
use crate::knowledge::{Facts, given};
use crate::outline::{Lock, Place, follows};
use crate::values::{Slot, is_constant, number_in};

fn is_word(width: Width) -> bool
    ensures { result ≡ places.is_word width }
{
    match width {
        Width::Byte | Width::Half => false,
        Width::Word => true,
    }
}

// Whether the bytes that are moved lie in RAM, at a multiple of their number.
fn may_access(address: u32, width: Width) -> bool
    ensures { result ≡ memory.may_access address (bytes_in width) }
{
    match width {
        Width::Byte => address <= 1048575,
        Width::Half => address % 2 == 0 && address <= 1048574,
        Width::Word => address % 4 == 0 && address <= 1048572,
    }
}

// Whether they lie apart from the guarded word.
fn lie_apart(lock: &Lock, address: u32, width: Width) -> bool
    ensures { result ≡ places.lie_apart lock.now address (bytes_in width) }
{
    let bytes = match width {
        Width::Byte => 1u64,
        Width::Half => 2,
        Width::Word => 4,
    };
    address as u64 + bytes <= lock.word as u64 || lock.word as u64 + 4 <= address as u64
}

/// Whether this address may be loaded from: apart from the guarded word without the token.
pub fn may_load(lock: &Lock, held: bool, address: Option<u32>, width: Width) -> bool
    ensures { result ≡ places.may_load lock.now held address width }
{
    match address {
        Some(address) => may_access(address, width) && (held || lie_apart(lock, address, width)),
        None => false,
    }
}

/// Whether this address may be stored to: behind the guarded word.
pub fn may_store(lock: &Lock, address: Option<u32>, width: Width) -> bool
    ensures { result ≡ places.may_store lock.now address width }
{
    match address {
        Some(address) => { may_access(address, width) && lock.word as u64 + 4 <= address as u64 }
        None => false,
    }
}

/// Whether it is the guarded word that is moved.
pub fn is_guarded(lock: &Lock, width: Width, address: Slot) -> bool
    ensures { result ≡ (places.is_word width && terms.is_constant address lock.now.word) }
{
    is_word(width) && is_constant(address, lock.word)
}

// A load.
pub(crate) fn load_checks(
    lock: &Lock,
    table: &[Place],
    k: usize,
    held: bool,
    rd: u8,
    width: Width,
    address: Slot,
    facts: &Facts,
) -> bool
    requires { k < length table.now }
    ensures { result ≡ places.load_checks lock.now table.now k held rd width address facts.now }
{
    (is_guarded(lock, width, address)
        && held
        && follows(table, held, k + 1, &given(facts, rd, facts.word)))
        || (may_load(lock, held, number_in(address), width)
            && follows(table, held, k + 1, &given(facts, rd, Slot::Unknown)))
}

// A store.
pub(crate) fn store_checks(
    lock: &Lock,
    table: &[Place],
    k: usize,
    held: bool,
    width: Width,
    value: Slot,
    address: Slot,
    facts: &Facts,
) -> bool
    requires { k < length table.now }
    ensures { result ≡ places.store_checks lock.now table.now k held width value address facts.now }
{
    (is_guarded(lock, width, address)
        && held
        && follows(
            table,
            held,
            k + 1,
            &Facts {
                registers: facts.registers,
                word: value,
            },
        ))
        || (may_store(lock, number_in(address), width) && follows(table, held, k + 1, facts))
}
