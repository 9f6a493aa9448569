//! The entries of one byte.

ghost use Rattle.std.specs.Prelude.{◌≡◌, ℕ, Bool, [], OnOk, OnErr, Some, IfSome, if◌then◌else◌, length, slice_get};
ghost use Rattle.race_entries.specs.Entries.{found, is_by};

use crate::entry::Entry;
use std::alloc::{AllocError, Global};
use std::marker::Model;

/// The entries of a byte, no two of one kind and process.
#[derive(Drop)]
pub(crate) struct ByteEntries {
    entries: Vec<Entry>,
}

impl Model for ByteEntries {
    ghost use Rattle.std.specs.Prelude.{List};
    ghost use Rattle.race_entries.specs.Entries.{Apart};
    ghost use Rattle.race_entries.specs.declared.entry.Entry.{Entry};

    ghost Value = { List Entry };

    ghost view = { λ x. x.entries.items };

    ghost invariant = { λ x. Apart x.entries.items };
}

impl ByteEntries {
    /// There is none.
    pub(crate) fn new(alloc: Global) -> Self
        ensures none { result ≡ [] }
    {
        ByteEntries {
            entries: Vec::new(alloc),
        }
    }

    /// How many there are.
    pub(crate) fn count(&self) -> usize
        ensures count { result ≡ length self.now }
    {
        self.entries.len()
    }

    /// Entry `i`, which is the only one of its kind and process. `None` if there are no more.
    pub(crate) fn entry(&self, i: usize) -> Option<Entry>
        ensures entry { result ≡ slice_get self.now i }
        ensures only { IfSome result (λ e. found e.stores e.process self.now ≡ Some e) }
    {
        let entry = self.entries.get(i)?;
        Some(*entry)
    }

    /// The entry of a kind and a process, if there is one.
    pub(crate) fn find(&self, stores: bool, process: u8) -> Option<Entry>
        ensures found { result ≡ found stores process self.now }
    {
        for entry in &self.entries {
            if entry.is_by(stores, process) {
                return Some(*entry);
            }
        }
        None
    }

    /// Enters an access in place of the one of its kind and process, or after all if there is none.
    ///
    /// # Errors
    ///
    /// Out of memory: all is as it was.
    pub(crate) fn enter(&mut self, entry: Entry) -> Result<(), AllocError>
        ensures entered { OnOk result ((stores : Bool) (u : ℕ) →
            found stores u self.new ≡ (if is_by stores u entry then Some entry else found stores u self.old)) }
        ensures refused { OnErr result (self.new ≡ self.old) }
    {
        for i in 0..self.entries.len() {
            if self.entries[i].is_by(entry.stores, entry.process) {
                self.entries[i] = entry;
                return Ok(());
            }
        }
        self.entries.push(entry)?;
        Ok(())
    }

    /// There is none any more.
    pub(crate) fn clear(&mut self)
        ensures none { self.new ≡ [] }
    {
        self.entries.clear();
    }
}
