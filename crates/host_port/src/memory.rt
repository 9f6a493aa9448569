//! A host in memory whose calls fail on demand.

use crate::host::{Channel, Host, HostFault};
use crate::quiet::QuietMemoryHost;
use std::alloc::Global;
use xinu_base::NoMemory;

/// Files and channels in memory. A call of [`Host`] fails if its number was given to [`MemoryHost::fail_call`], and a
/// `fetch` fails too if no file of that name was added.
pub struct MemoryHost {
    quiet: QuietMemoryHost,
    failing: Vec<u64>,
    calls_made: u64,
    faults: u64,
}

impl Drop for MemoryHost {
    fn drop(self) {
        let MemoryHost {
            quiet: _quiet,
            failing: _failing,
            calls_made: _calls_made,
            faults: _faults,
        } = self;
    }
}

impl MemoryHost {
    ghost use Rattle.std.specs.Prelude.{◌≡◌, ◌==◌, ◌||◌, ◌<◌, ◌^◌, ℕ, Some, OnOk, OnErr, false};
    ghost use Rattle.host_port.specs.Outside.{AddsFile, Stays, sent_on};
    ghost use Rattle.host_port.specs.MemoryHost.{memory_view, memory_empty, fails_at, fails_next, one_more};

    /// A host with no files, on which nothing was sent, of which no call was made and none is to fail.
    pub fn new(alloc: Global) -> Self
        ensures empty { memory_view result ≡ memory_empty }
        ensures calls { result.calls_made ≡ 0 }
        ensures fails { (n : ℕ) → fails_at result n ≡ false }
    {
        MemoryHost {
            quiet: QuietMemoryHost::new(alloc),
            failing: Vec::new(alloc),
            calls_made: 0,
            faults: 0,
        }
    }

    /// Adds a file, in place of what the name held before.
    ///
    /// # Errors
    /// `NoMemory`, and the host is as it was.
    pub fn add_file(&mut self, name: &str, bytes: &[u8]) -> Result<(), NoMemory>
        ensures added { OnOk result (AddsFile (memory_view self.old) (memory_view self.new) name.now bytes.now) }
        ensures stays { OnErr result (Stays (memory_view self.old) (memory_view self.new)) }
        ensures calls { self.new.calls_made ≡ self.old.calls_made }
        ensures fails { (n : ℕ) → fails_at self.new n ≡ fails_at self.old n }
    {
        self.quiet.add_file(name, bytes)
    }

    /// Says that call `n` is to fail. All calls of `fetch`, `name_out` and `emit` are counted together, the first as 1, and the
    /// count ends at the greatest `u64`.
    ///
    /// # Errors
    /// `NoMemory`, and the host is as it was.
    pub fn fail_call(&mut self, n: u64) -> Result<(), NoMemory>
        ensures fails { OnOk result ((m : ℕ) → fails_at self.new m ≡ (fails_at self.old m || m == n)) }
        ensures stays { OnErr result ((m : ℕ) → fails_at self.new m ≡ fails_at self.old m) }
        ensures view { memory_view self.new ≡ memory_view self.old }
        ensures calls { self.new.calls_made ≡ self.old.calls_made }
    {
        self.failing.push(n).map_err(|_| NoMemory)
    }

    /// The bytes that were sent on a channel.
    pub fn sent(&self, channel: Channel) -> &[u8]
        ensures sent { sent_on (memory_view self.now) channel ≡ Some result.now }
    {
        self.quiet.sent(channel)
    }

    // Counts a call, and answers whether it is to fail.
    fn count_call(&mut self) -> bool
        ensures fails { result ≡ fails_next self.old }
        ensures rest { self.new ≡ record self.old { calls_made = one_more self.old.calls_made } }
        ensures count { self.new.faults < 2 ^ 64 }
    {
        // The read shows that the count fits its type.
        let _faults = self.faults;
        self.calls_made = self.calls_made.saturating_add(1);
        self.failing.contains(&self.calls_made)
    }

    // Counts a fault.
    fn fail(&mut self) -> HostFault
        ensures failed { result ≡ HostFault.Failed }
        ensures rest { self.new ≡ record self.old { faults = one_more self.old.faults } }
    {
        self.faults = self.faults.saturating_add(1);
        HostFault::Failed
    }
}

impl Host for MemoryHost {
    ghost use Rattle.std.specs.Prelude.{◌≡◌, ◌≢◌, ◌+◌, ◌≤◌, ◌<◌, ◌^◌, ⊤, take, vec_len, IfOk, Err, MatchOption, true};
    ghost use Rattle.host_port.specs.Outside.{fetching, naming, sent_on, counted};
    ghost use Rattle.host_port.specs.declared.host.HostFault.TheVariants.{Failed};
    ghost use Rattle.host_port.specs.HostCalls.{HasCause, Emits, MakesCall, NamesFile};
    ghost use Rattle.host_port.specs.MemoryHost.{memory_view, fails_next, fetch_fails, CountsCall};

    ghost view = { memory_view };

    fn fetch(&mut self, alloc: Global, path: &str, max: usize) -> Result<Vec<u8>, HostFault>
        ensures bytes { IfOk result (λ v. MatchOption ((memory_view self.old).file path.now) ⊤ (λ bytes. v.items ≡ take (max + 1) bytes)) }
        ensures bound { IfOk result (λ v. vec_len v ≤ max + 1) }
        ensures calls { MakesCall (memory_view self.old) (memory_view self.new) (fetching path.now) result }
        ensures cause { HasCause (memory_view self.old).faults (memory_view self.new).faults result }
        ensures count { (memory_view self.new).faults < 2 ^ 64 }
        ensures counts { CountsCall self.old self.new (fetch_fails self.old path.now) result }
    {
        if self.count_call() || !self.quiet.has_file(path) {
            self.quiet.record_call(path, None)?;
            return Err(self.fail());
        }
        self.quiet.fetch(alloc, path, max)
    }

    fn name_out(&mut self, channel: Channel, path: &str) -> Result<(), HostFault>
        requires not_out { channel ≢ Channel.Out }
        requires not_fault { channel ≢ Channel.Fault }
        ensures named { NamesFile (memory_view self.old) (memory_view self.new) channel (naming channel path.now) result }
        ensures cause { HasCause (memory_view self.old).faults (memory_view self.new).faults result }
        ensures count { (memory_view self.new).faults < 2 ^ 64 }
        ensures counts { CountsCall self.old self.new (fails_next self.old) result }
        ensures kept { fails_next self.old ≡ true → sent_on (memory_view self.new) channel ≡ sent_on (memory_view self.old) channel }
    {
        if self.count_call() {
            self.quiet.record_call(path, Some(channel))?;
            return Err(self.fail());
        }
        self.quiet.name_out(channel, path)
    }

    fn emit(&mut self, channel: Channel, bytes: &[u8]) -> Result<(), HostFault>
        ensures sent { Emits (memory_view self.old) (memory_view self.new) channel bytes.now result }
        ensures cause { HasCause (memory_view self.old).faults (memory_view self.new).faults result }
        ensures count { (memory_view self.new).faults < 2 ^ 64 }
        ensures counts { CountsCall self.old self.new (fails_next self.old) result }
        ensures certain { fails_next self.old ≡ true → result ≡ Err Failed }
        ensures kept { fails_next self.old ≡ true → memory_view self.new ≡ counted (memory_view self.old) self.new.faults }
    {
        if self.count_call() {
            return Err(self.fail());
        }
        self.quiet.emit(channel, bytes)
    }
}
