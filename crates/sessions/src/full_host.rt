//! A host that runs out of memory.

ghost use Rattle.std.specs.Prelude.{◌≡◌, ◌<◌};
ghost use Rattle.host_port.specs.QuietHost.{quiet_view};

use host_port::{Channel, Host, HostFault, QuietMemoryHost};
use std::alloc::Global;

/// A host in memory of which one call is answered by `NoMemory`. Its calls are counted from 1.
#[derive(Drop)]
pub(crate) struct FullHost {
    pub(crate) quiet: QuietMemoryHost,
    pub(crate) full_at: u64,
    pub(crate) calls: u64,
}

impl FullHost {
    // Counts a call, and answers whether it is the one.
    fn is_full(&mut self) -> bool
        ensures { self.new.quiet ≡ self.old.quiet }
    {
        self.calls = self.calls.saturating_add(1);
        self.calls == self.full_at
    }
}

impl Host for FullHost {
    ghost view = { λ h. quiet_view h.quiet };

    fn fetch(&mut self, alloc: Global, path: &str, max: usize) -> Result<Vec<u8>, HostFault> {
        if self.is_full() {
            return Err(HostFault::NoMemory);
        }
        self.quiet.fetch(alloc, path, max)
    }

    fn name_out(&mut self, channel: Channel, path: &str) -> Result<(), HostFault> {
        if self.is_full() {
            return Err(HostFault::NoMemory);
        }
        self.quiet.name_out(channel, path)
    }

    fn emit(&mut self, channel: Channel, bytes: &[u8]) -> Result<(), HostFault> {
        if self.is_full() {
            return Err(HostFault::NoMemory);
        }
        self.quiet.emit(channel, bytes)
    }
}
