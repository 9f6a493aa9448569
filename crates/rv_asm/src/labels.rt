//! The labels of a text, with their addresses.

ghost use Rattle.std.specs.Prelude.{ℕ, ◌≡◌, List, Option, None, OnOk};
ghost use Rattle.rv_asm.specs.CodeLabels.{found};
ghost use Rattle.rv_asm.specs.Layouts.{or_address};
ghost use Rattle.std.specs.Str.{bytes_eq};

use std::alloc::{AllocError, Global};
use std::collections::HashMap;

/// The labels so far, each with the address of its first place.
#[derive(Drop)]
pub struct Labels<'a> {
    addresses: HashMap<&'a [u8], u64>,
}

impl<'a> Labels<'a> {
    /// No labels.
    pub fn new(alloc: Global) -> Labels<'a>
        ensures none { (q : List ℕ) → found result q ≡ None }
    {
        Labels {
            addresses: HashMap::new(alloc),
        }
    }

    /// The address of a label, if it is one.
    pub fn address(&self, name: &[u8]) -> Option<u64>
        ensures address { result ≡ found self.now name.now }
    {
        self.addresses.get(name).copied()
    }

    /// Adds a label; a name keeps the address of its first place.
    pub fn push(&mut self, name: &'a [u8], address: u64) -> Result<(), AllocError>
        ensures pushed { OnOk result ((q : List ℕ) → found self.new q ≡ or_address (found self.old q) (bytes_eq q name.now) address) }
    {
        if self.addresses.get(name).is_none() {
            self.addresses.insert(name, address)?;
        }
        Ok(())
    }
}
