//! What the events of a run printed, as far as it ever went.

ghost use Rattle.std.specs.Prelude.{ℕ, ◌≡◌, ◌≢◌, IsErrOf, ◌+◌, ◌≤◌, ◌<◌, [], None, OnOk, OnErr};
ghost use Rattle.std.specs.BTreeMap.{get};
ghost use Rattle.std.specs.Ordering.{nat_cmp};
ghost use Rattle.replayed_run.specs.Texts.{HasNoMore, IsOther, Keeps, kept_at};

use host_port::HostFault;
use std::alloc::Global;
use std::collections::BTreeMap;

/// Why what an event printed isn't known.
#[derive(Clone, Copy)]
pub enum ReplayFault {
    /// Memory ran out for its lines.
    NoMemory,
    /// It printed something else when it was taken before.
    Differs,
}

impl From<ReplayFault> for HostFault {
    fn from(fault: ReplayFault) -> HostFault {
        match fault {
            ReplayFault::NoMemory => HostFault::NoMemory,
            ReplayFault::Differs => HostFault::Failed,
        }
    }
}

/// What the events of a run printed, as far as it ever went.
#[derive(Drop)]
pub(crate) struct Texts {
    // The bytes of each event that printed any, under the number of events before it.
    texts: BTreeMap<u32, Vec<u8>>,
    // Of how many events it is known.
    far: u32,
}

impl Texts {
    /// Of no event.
    pub(crate) fn new(alloc: Global) -> Texts
        ensures none { result.far ≡ 0 }
        ensures no_more { HasNoMore result }
    {
        Texts {
            texts: BTreeMap::new(alloc),
            far: 0,
        }
    }

    /// How many events after so many others are known to have printed nothing, or aren't known: at most so many.
    pub(crate) fn silent_from(&self, number: u32, most: u32) -> u32
        ensures most { result ≤ most }
        ensures silent { (n : ℕ) → number ≤ n → n < number + result → kept_at self.now n ≡ [] }
    {
        match self.texts.range(number..).next() {
            Some((first, _)) => most.min(*first - number),
            None => most,
        }
    }

    /// So many events after others printed nothing.
    pub(crate) fn pass(&mut self, number: u32, count: u32)
        requires reached { number ≤ self.old.far }
        requires fits { number + count ≤ 1000000000 }
        requires no_more { HasNoMore self.old }
        ensures keeps { Keeps self.old self.new }
        ensures far { number + count ≤ self.new.far }
        ensures same { (n : ℕ) → kept_at self.new n ≡ kept_at self.old n }
        ensures no_more { HasNoMore self.new }
    {
        self.far = self.far.max(number + count);
    }

    /// The event after so many others printed these bytes: they are kept if no run came so far, else compared with what it printed then.
    ///
    /// # Errors
    /// `Differs`; `NoMemory`. Nothing changes.
    pub(crate) fn tell(
        &mut self,
        alloc: Global,
        number: u32,
        bytes: &[u8],
    ) -> Result<(), ReplayFault>
        requires reached { number ≤ self.old.far }
        requires fits { number < 1000000000 }
        requires no_more { HasNoMore self.old }
        ensures keeps { Keeps self.old self.new }
        ensures told { OnOk result (kept_at self.new number ≡ bytes.now) }
        ensures differs { IsErrOf result ReplayFault.Differs → IsOther self.old number bytes.now }
        ensures far { OnOk result (number < self.new.far) }
        ensures no_more { HasNoMore self.new }
    {
        if number < self.far {
            return self.compare(number, bytes);
        }
        if !bytes.is_empty() {
            self.keep(alloc, number, bytes)?;
        }
        self.far = number + 1;
        Ok(())
    }

    // Whether the event after so many others printed these bytes.
    fn compare(&self, number: u32, bytes: &[u8]) -> Result<(), ReplayFault>
        ensures told { OnOk result (kept_at self.now number ≡ bytes.now) }
        ensures differs { OnErr result (kept_at self.now number ≢ bytes.now) }
    {
        let told = match self.texts.get(&number) {
            Some(text) => text.as_slice(),
            None => &[],
        };
        if *told == *bytes {
            Ok(())
        } else {
            Err(ReplayFault::Differs)
        }
    }

    // Keeps the bytes of the event after so many others.
    fn keep(&mut self, alloc: Global, number: u32, bytes: &[u8]) -> Result<(), ReplayFault>
        requires next { number ≡ self.old.far }
        requires no_more { HasNoMore self.old }
        ensures keeps { Keeps self.old self.new }
        ensures kept { OnOk result (kept_at self.new number ≡ bytes.now) }
        ensures far { self.new.far ≡ self.old.far }
        ensures no_more { OnErr result (HasNoMore self.new) }
        ensures fault { IsErrOf result ReplayFault.Differs → ⊥ }
        ensures last { (n : ℕ) → self.old.far < n → get nat_cmp self.new.texts n ≡ None }
    {
        let Ok(text) = Vec::from_slice(alloc, bytes) else {
            return Err(ReplayFault::NoMemory);
        };
        match self.texts.insert(number, text) {
            Ok(_) => Ok(()),
            Err(_) => Err(ReplayFault::NoMemory),
        }
    }
}
