//! The entries, byte by byte.

ghost use Rattle.std.specs.Prelude.{◌≡◌, ◌<◌, ◌≤◌, ◌+◌, ◌&&◌, ◌==◌, ℕ, Bool, IfOk, IfSome, OnOk, OnErr, None, Some, if◌then◌else◌, length, slice_get};
ghost use Rattle.race_entries.specs.Entries.{entries_of, is_among, is_by, last};

use crate::byte::ByteEntries;
use crate::entry::Entry;
use std::alloc::{AllocError, Global};
use std::marker::Model;

/// How many bytes RAM has.
const BYTES: usize = 1_048_576;

/// The entries of each byte of RAM. A call names a byte by its address, which is below 1048576.
#[derive(Drop)]
pub struct Entries {
    bytes: Vec<ByteEntries>,
}

impl Model for Entries {
    ghost use Rattle.std.specs.Prelude.{◌≡◌, List, length};
    ghost use Rattle.race_entries.specs.declared.entry.Entry.{Entry};

    ghost Value = { List (List Entry) };

    ghost view = { λ x. x.bytes.items };

    ghost invariant = { λ x. length x.bytes.items ≡ 1048576 };
}

impl Entries {
    /// No byte has an entry.
    ///
    /// # Errors
    ///
    /// Out of memory.
    pub fn new(alloc: Global) -> Result<Entries, AllocError>
        ensures none { IfOk result (λ x. (stores : Bool) (b u : ℕ) → last x stores b u ≡ None) }
    {
        let mut bytes = Vec::new(alloc);
        for _ in 0..BYTES {
            bytes.push(ByteEntries::new(alloc))?;
        }
        Ok(Entries { bytes })
    }

    /// How many entries a byte has.
    pub fn count(&self, byte: usize) -> usize
        requires byte_in { byte < 1048576 }
        ensures count { result ≡ length (entries_of self.now byte) }
    {
        self.bytes[byte].count()
    }

    /// Entry `i` of a byte, which is the last access of its kind and process. `None` if the byte has no more.
    pub fn entry(&self, byte: usize, i: usize) -> Option<Entry>
        requires byte_in { byte < 1048576 }
        ensures entry { result ≡ slice_get (entries_of self.now byte) i }
        ensures only { IfSome result (λ e. last self.now e.stores byte e.process ≡ Some e) }
    {
        self.bytes[byte].entry(i)
    }

    /// The last store of a byte by a process, or the last load if not `stores`, since the byte was given. `None` if there is none.
    pub fn last(&self, stores: bool, byte: usize, process: u8) -> Option<Entry>
        requires byte_in { byte < 1048576 }
        ensures last { result ≡ last self.now stores byte process }
    {
        self.bytes[byte].find(stores, process)
    }

    /// Enters an access to a byte, in place of the last one of its kind by its process.
    ///
    /// # Errors
    ///
    /// Out of memory: all is as it was.
    pub fn enter(&mut self, byte: usize, entry: Entry) -> Result<(), AllocError>
        requires byte_in { byte < 1048576 }
        ensures entered { OnOk result ((stores : Bool) (b u : ℕ) →
            last self.new stores b u ≡ (if (b == byte) && is_by stores u entry then Some entry else last self.old stores b u)) }
        ensures refused { OnErr result (self.new ≡ self.old) }
    {
        self.bytes[byte].enter(entry)
    }

    /// So many bytes from the first on, all of them in RAM, get a new owner: they have no entry. It takes no memory.
    pub fn give(&mut self, first: usize, count: usize)
        requires bytes_in { first + count ≤ 1048576 }
        ensures given { (stores : Bool) (b u : ℕ) →
            last self.new stores b u ≡ (if is_among first count b then None else last self.old stores b u) }
    {
        for byte in first..first + count {
            self.bytes[byte].clear();
        }
    }
}
