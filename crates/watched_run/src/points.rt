//! Where the run is to stop: ahead of instructions, and after changes of RAM.

ghost use Rattle.std.specs.Prelude.{◌≡◌, ◌&&◌, ◌==◌, ◌++◌, ◌∷◌, [], if◌then◌else◌, IfOk, OnOk, length, map, nat_lt, not, take, true};
ghost use Rattle.watched_run.specs.Watching as watching;

use rv_hart::Ram;
use std::alloc::{AllocError, Global};
use xinu_base::Below;

/// Bytes of RAM that are watched: at most eight.
#[derive(Clone, Copy)]
struct Watch {
    at: u32,
    count: Below<9>,
    // What they were when they were last looked at, and zeros after them.
    bytes: [u8; 8],
}

impl Watch {
    // Whether it is of other bytes than these.
    fn is_other(&self, at: u32, count: u32) -> bool
        ensures other { result ≡ watching.is_other (record { at = at; count = count }) (watching.area_of self.now) }
    {
        !(self.at == at && self.count.index() as u32 == count)
    }

    // Looks at the bytes, and answers where they are if they changed since they were last looked at.
    fn look(&mut self, ram: &Ram) -> Option<u32>
        ensures other { result ≡ watching.other_in ram.now self.old }
        ensures seen { self.new ≡ watching.seen ram.now self.old }
    {
        let bytes = bytes_at(ram, self.at, self.count);
        let is_same = self.bytes == bytes;
        self.bytes = bytes;
        if is_same { None } else { Some(self.at) }
    }
}

/// Addresses of instructions, ahead of which the run stops, and bytes of RAM, after a change of which it stops.
#[derive(Drop)]
pub(crate) struct Points {
    addresses: Vec<u32>,
    watches: Vec<Watch>,
}

impl Points {
    /// None.
    pub(crate) fn new(alloc: Global) -> Points
        ensures addresses { result.addresses.items ≡ [] }
        ensures watches { result.watches.items ≡ [] }
    {
        Points {
            addresses: Vec::new(alloc),
            watches: Vec::new(alloc),
        }
    }

    /// Whether there is none.
    pub(crate) fn is_empty(&self) -> bool
        ensures addresses { result ≡ true → self.now.addresses.items ≡ [] }
        ensures watches { result ≡ true → self.now.watches.items ≡ [] }
    {
        self.addresses.is_empty() && self.watches.is_empty()
    }

    /// Whether the run stops ahead of an instruction at this address.
    pub(crate) fn has(&self, address: u32) -> bool
        ensures has { result ≡ watching.has self.now.addresses.items address }
    {
        for point in self.addresses.as_slice() {
            if *point == address {
                return true;
            }
        }
        false
    }

    /// The run is to stop ahead of an instruction at this address.
    ///
    /// # Errors
    /// Out of memory.
    pub(crate) fn set(&mut self, address: u32) -> Result<(), AllocError>
        ensures set { OnOk result (self.new.addresses.items ≡ watching.with_point address self.old.addresses.items) }
        ensures watches { self.new.watches ≡ self.old.watches }
    {
        if !self.has(address) {
            self.addresses.push(address)?;
        }
        Ok(())
    }

    /// The run is no longer to stop there.
    pub(crate) fn clear(&mut self, address: u32)
        ensures clear { self.new.addresses.items ≡ watching.without_point address self.old.addresses.items }
        ensures watches { self.new.watches ≡ self.old.watches }
    {
        self.addresses.retain(|point| *point != address);
    }

    /// The run is to stop after a change of these bytes. `false` if they are too many.
    ///
    /// # Errors
    /// Out of memory.
    pub(crate) fn watch(&mut self, ram: &Ram, at: u32, count: u32) -> Result<bool, AllocError>
        ensures few { IfOk result (λ done. done ≡ nat_lt count 9) }
        ensures watch { IfOk result (λ done. watching.areas_of self.new.watches.items ≡ watching.with_area done (record { at = at; count = count }) (watching.areas_of self.old.watches.items)) }
        ensures addresses { self.new.addresses ≡ self.old.addresses }
    {
        let Some(few) = Below::from_word(count) else {
            return Ok(false);
        };
        self.forget(at, count);
        let bytes = bytes_at(ram, at, few);
        self.watches.push(Watch {
            at,
            count: few,
            bytes,
        })?;
        Ok(true)
    }

    /// The run is no longer to stop after a change of these bytes.
    pub(crate) fn forget(&mut self, at: u32, count: u32)
        ensures forget { watching.areas_of self.new.watches.items ≡ watching.without_area (record { at = at; count = count }) (watching.areas_of self.old.watches.items) }
        ensures addresses { self.new.addresses ≡ self.old.addresses }
    {
        self.watches.retain(|watch| watch.is_other(at, count));
    }

    /// Looks at the bytes that are watched, and answers where the first are that changed since they were last looked at.
    pub(crate) fn changed(&mut self, ram: &Ram) -> Option<u32>
        ensures first { result ≡ watching.first_other ram.now self.old.watches.items }
        ensures seen { self.new.watches.items ≡ map (watching.seen ram.now) self.old.watches.items }
        ensures addresses { self.new.addresses ≡ self.old.addresses }
    {
        let mut found = None;
        for watch in self.watches.iter_mut() {
            let other = watch.look(ram);
            found = first_of(found, other);
        }
        found
    }
}

// The first of two places that there is.
fn first_of(found: Option<u32>, other: Option<u32>) -> Option<u32>
    ensures first { result ≡ watching.first_of found other }
{
    match found {
        Some(_) => found,
        None => other,
    }
}

// So many bytes from an address on, those that there are, and zeros after them.
fn bytes_at(ram: &Ram, at: u32, count: Below<9>) -> [u8; 8]
    ensures bytes { result ≡ watching.padded (watching.bytes_of ram.now (record { at = at; count = count })) }
{
    let found = first_bytes(ram.bytes_from(at), count.index());
    let mut bytes = [0u8; 8];
    bytes[..found.len()].copy_from_slice(found);
    bytes
}

// So many bytes in front, or all if there are fewer.
fn first_bytes(bytes: &[u8], count: usize) -> &[u8]
    ensures front { result.now ≡ take count bytes.now }
{
    if count < bytes.len() {
        &bytes[..count]
    } else {
        bytes
    }
}
