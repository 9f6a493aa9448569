//! An entry: the last access of its kind to a byte by a process.

ghost use Rattle.std.specs.Prelude.{◌≡◌};
ghost use Rattle.happens_before.specs.Told as told;
ghost use Rattle.race_entries.specs.Entries as specs;

/// The last load, or the last store, of a byte by a process.
#[derive(Clone, Copy)]
pub struct Entry {
    /// In which event it is.
    pub event: u32,
    /// Where its instruction is.
    pub place: u32,
    /// Whose it is.
    pub process: u8,
    /// Whether it is a store.
    pub stores: bool,
}

impl Entry {
    /// Whether it is of this kind, by this process.
    pub(crate) fn is_by(&self, stores: bool, process: u8) -> bool
        ensures is_by { result ≡ specs.is_by stores process self.now }
    {
        is_kind(stores, self.stores) && self.process == process
    }
}

// Whether both are stores, or both loads.
fn is_kind(a: bool, b: bool) -> bool
    ensures is_kind { result ≡ told.is_kind a b }
{
    if a { b } else { !b }
}
