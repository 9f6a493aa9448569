//! Entries of a directory block.

ghost use Rattle.std.specs.Prelude.{◌≡◌, ◌<◌, ℕ, true, false, MatchOption, slice_index_or};
ghost use Rattle.lfs_format.specs.Directory.{void_entry};
ghost use Rattle.lfs_check.specs.Rules.{entry_is_used};
ghost use Rattle.lfs_check.specs.Disks.{is_this};

use lfs_check::entry_is_used;
use lfs_format::Entry;

/// The place of the used entry of a name, if a directory block has it.
pub(crate) fn find(entries: &[Entry; 13], name: &[u8; 28]) -> Option<u32>
    ensures { MatchOption result ((k : ℕ) → k < 13 → is_this name.now (slice_index_or entries.now k void_entry) ≡ false) (λ e. (e < 13) × (is_this name.now (slice_index_or entries.now e void_entry) ≡ true)) }
{
    for e in 0..13 {
        if is_this(entries, e, name) {
            return Some(e as u32);
        }
    }
    None
}

// Whether an entry is used and has the name.
fn is_this(entries: &[Entry; 13], e: usize, name: &[u8; 28]) -> bool
    requires { e < 13 }
    ensures { result ≡ is_this name.now (slice_index_or entries.now e void_entry) }
{
    entry_is_used(&entries[e]) && entries[e].name == *name
}

/// The place of the first entry that isn't used, if a directory block has one.
pub(crate) fn first_unused(entries: &[Entry; 13]) -> Option<u32>
    ensures { MatchOption result ((k : ℕ) → k < 13 → entry_is_used (slice_index_or entries.now k void_entry) ≡ true) (λ e. (e < 13) × (entry_is_used (slice_index_or entries.now e void_entry) ≡ false)) }
{
    for e in 0..13 {
        if !is_used(entries, e) {
            return Some(e as u32);
        }
    }
    None
}

// Whether an entry is used.
fn is_used(entries: &[Entry; 13], e: usize) -> bool
    requires { e < 13 }
    ensures { result ≡ entry_is_used (slice_index_or entries.now e void_entry) }
{
    entry_is_used(&entries[e])
}
