//! The deeds of an event, as they are told to a detector.

ghost use Rattle.std.specs.Prelude.{◌≡◌, ◌<◌, ◌≤◌, ◌+◌, [], true};
ghost use Rattle.race_detector.specs.Acts.{AllWithin};

use race_detector::Act;
use race_entries::Entry;
use std::alloc::{AllocError, Global};
use std::marker::Model;
use xinu_base::{Pid, RAM_SIZE};

/// Who does something, in which event, and where.
#[derive(Clone, Copy)]
pub(crate) struct Doer {
    /// The number of the event.
    pub(crate) event: u32,
    /// The process.
    pub(crate) process: Pid,
    /// The address of its instruction.
    pub(crate) place: u32,
}

impl Doer {
    // The entry of an access.
    fn entry(&self, stores: bool) -> Entry
        ensures event { result.event ≡ self.now.event }
        ensures place { result.place ≡ self.now.place }
        ensures process { result.process ≡ self.now.process }
        ensures stores { result.stores ≡ stores }
        ensures below { result.process < 64 }
    {
        Entry {
            event: self.event,
            place: self.place,
            process: self.process.index() as u8,
            stores,
        }
    }
}

/// The deeds of an event, in their order: each of bytes of RAM, and each load or store by one of 64 processes.
#[derive(Drop)]
pub struct Acts {
    acts: Vec<Act>,
}

impl Model for Acts {
    ghost use Rattle.std.specs.Prelude.{List};
    ghost use Rattle.race_detector.specs.Acts.{AllWithin};
    ghost use Rattle.race_detector.specs.declared.act.Act.{Act};

    ghost Value = { List Act };

    ghost view = { λ x. x.acts.items };

    ghost invariant = { λ x. AllWithin x.acts.items };
}

impl Acts {
    /// No deeds.
    pub fn new(alloc: Global) -> Acts
        ensures none { result ≡ [] }
    {
        Acts {
            acts: Vec::new(alloc),
        }
    }

    /// The deeds, in their order.
    pub fn as_slice(&self) -> &[Act]
        ensures acts { result.now ≡ self.now }
        ensures within { AllWithin self.now }
    {
        &self.acts
    }

    // None any more.
    pub(crate) fn clear(&mut self)
        ensures none { self.new ≡ [] }
    {
        self.acts.clear();
    }

    // A byte is loaded, or stored.
    fn touch(&mut self, doer: &Doer, stores: bool, byte: usize) -> Result<(), AllocError>
        requires byte_in { byte < 1048576 }
    {
        self.acts.push(Act::Touch(byte, doer.entry(stores)))?;
        Ok(())
    }

    /// So many bytes from an address on are loaded, or stored, if they are in RAM.
    ///
    /// # Errors
    /// Out of memory: some of them may be among the deeds.
    pub(crate) fn touch_all(
        &mut self,
        doer: &Doer,
        stores: bool,
        address: u32,
        count: u32,
    ) -> Result<(), AllocError> {
        if !is_in_ram(address, count) {
            return Ok(());
        }
        let first = address as usize;
        for byte in first..first + count as usize {
            self.touch(doer, stores, byte)?;
        }
        Ok(())
    }

    /// So many bytes from an address on are loaded, if they are in RAM.
    ///
    /// # Errors
    /// Out of memory.
    pub(crate) fn load(&mut self, doer: &Doer, address: u32, count: u32) -> Result<(), AllocError> {
        self.touch_all(doer, false, address, count)
    }

    /// So many bytes from an address on are stored, if they are in RAM.
    ///
    /// # Errors
    /// Out of memory.
    pub(crate) fn store(
        &mut self,
        doer: &Doer,
        address: u32,
        count: u32,
    ) -> Result<(), AllocError> {
        self.touch_all(doer, true, address, count)
    }

    /// So many bytes from an address on get a new owner, if they are in RAM.
    ///
    /// # Errors
    /// Out of memory.
    pub(crate) fn give(&mut self, address: u32, count: u32) -> Result<(), AllocError> {
        if is_in_ram(address, count) {
            self.acts.push(Act::Gift(address as usize, count as usize))?;
        }
        Ok(())
    }
}

/// Whether so many bytes from an address on are in RAM.
pub(crate) fn is_in_ram(address: u32, count: u32) -> bool
    ensures within { result ≡ true → address + count ≤ 1048576 }
{
    count <= RAM_SIZE && address <= RAM_SIZE - count
}
