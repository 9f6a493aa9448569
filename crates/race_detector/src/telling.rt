//! The entries that are told.

ghost use Rattle.std.specs.Prelude.{◌≡◌, ◌<◌, ◌++◌, ℕ, OnOk, Some, length, slice_get};
ghost use Rattle.race_clocks.specs.Rows.{knows};
ghost use Rattle.race_entries.specs.Entries.{entries_of, last};
ghost use Rattle.race_entries.specs.declared.entry.Entry.{Entry};
ghost use Rattle.race_detector.specs.Told as specs;

use crate::pair::Pair;
use race_clocks::Clocks;
use race_entries::{Entries, Entry};
use std::alloc::AllocError;

/// Tells the entries of a byte with which an access to it races, each with the access, after what was told before. Each entry of a byte is
/// the last access of its kind and process. The byte's address is below 1048576, and the process below 64.
///
/// # Errors
///
/// Out of memory: some may be told.
pub fn tell(
    clocks: &Clocks,
    entries: &Entries,
    byte: usize,
    access: Entry,
    told: &mut Vec<Pair>,
) -> Result<(), AllocError>
    requires byte_in { byte < 1048576 }
    requires process_in { access.process < 64 }
    ensures told { OnOk result (told.new.items ≡
        told.old.items ++ specs.pairs_of (knows clocks.now access.process) byte access (entries_of entries.now byte)) }
    ensures only { OnOk result ((i : ℕ) (e : Entry) → slice_get (entries_of entries.now byte) i ≡ Some e →
        last entries.now e.stores byte e.process ≡ Some e) }
{
    for i in 0..entries.count(byte) {
        tell_one(clocks, byte, &access, entries.entry(byte, i), told)?;
    }
    Ok(())
}

// Tells an entry, if there is one, and if it is to be told.
fn tell_one(
    clocks: &Clocks,
    byte: usize,
    access: &Entry,
    entry: Option<Entry>,
    told: &mut Vec<Pair>,
) -> Result<(), AllocError>
    requires process_in { access.now.process < 64 }
    ensures told { OnOk result (told.new.items ≡
        told.old.items ++ specs.pairs_of (knows clocks.now access.now.process) byte access.now (specs.listed entry)) }
{
    if let Some(entry) = entry {
        if is_told(clocks, access, &entry) {
            told.push(Pair {
                byte,
                first: entry,
                second: *access,
            })?;
        }
    }
    Ok(())
}

// Whether an entry is told as an access is made.
fn is_told(clocks: &Clocks, access: &Entry, entry: &Entry) -> bool
    requires process_in { access.now.process < 64 }
    ensures told { result ≡ specs.is_told (knows clocks.now access.now.process) access.now entry.now }
{
    if entry.process == access.process {
        return false;
    }
    if !(entry.stores || access.stores) {
        return false;
    }
    clocks.knows(access.process as usize, entry.process as usize) < entry.event
}
