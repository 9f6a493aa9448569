//! What a run asks of the world outside the machine.
//!
//! The ghost member `view` shows a host as one record, so that a contract says in one equation what a call changed and what
//! it left.

ghost use Rattle.std.specs.Prelude.{◌≡◌, ◌≢◌, ◌+◌, ◌≤◌, ◌<◌, ◌^◌, ⊤, take, vec_len, IfOk, MatchOption};
ghost use Rattle.host_port.specs.Outside.{Outside, fetching, naming};
ghost use Rattle.host_port.specs.HostCalls.{HasCause, Emits, MakesCall, NamesFile};

use std::alloc::{AllocError, AllocFailed, Global};

/// A destination of bytes.
#[derive(Clone, Copy, PartialEq, Eq)]
pub enum Channel {
    /// The transcript, or the plain output.
    Out,
    /// The text of a refusal.
    Fault,
    /// The blocks of the raw disk.
    Disk0,
    /// The blocks of the file system's disk.
    Disk1,
    /// An image file.
    Image,
}

/// Why a call of a host was refused.
#[derive(Clone, Copy, PartialEq, Eq)]
pub enum HostFault {
    /// The world outside refused it. The host's count of faults rose in the call, or is at its end.
    Failed,
    /// There was no memory for it.
    NoMemory,
}

impl From<AllocError> for HostFault {
    ghost use Rattle.std.specs.Prelude.{◌≡◌};
    ghost use Rattle.host_port.specs.declared.host.HostFault.TheVariants.{NoMemory};

    ghost from_gives = { λ _ e. e ≡ NoMemory };

    fn from(_e: AllocError) -> HostFault {
        HostFault::NoMemory
    }
}

impl<T: Drop> From<AllocFailed<T>> for HostFault {
    ghost use Rattle.std.specs.Prelude.{◌≡◌};
    ghost use Rattle.host_port.specs.declared.host.HostFault.TheVariants.{NoMemory};

    ghost from_gives = { λ _ e. e ≡ NoMemory };

    fn from(_e: AllocFailed<T>) -> HostFault {
        HostFault::NoMemory
    }
}

/// The world outside: files by name, and channels that bytes are appended to. It counts its faults: the count never falls, and ends at
/// 2^64 - 1.
pub trait Host {
    ghost view: { Self → Outside };

    /// The first `max + 1` bytes of a file, or all of them if it has fewer. The call is added to those made, and no file or channel
    /// changes.
    ///
    /// # Errors
    /// `Failed` if the file can't be read, and only if the count of faults rose or is at its end; `NoMemory`, and then the call
    /// may not have been added.
    fn fetch(&mut self, alloc: Global, path: &str, max: usize) -> Result<Vec<u8>, HostFault>
        ensures bytes { IfOk result (λ v. MatchOption ((view self.old).file path.now) ⊤ (λ bytes. v.items ≡ take (max + 1) bytes)) }
        ensures bound { IfOk result (λ v. vec_len v ≤ max + 1) }
        ensures calls { MakesCall (view self.old) (view self.new) (fetching path.now) result }
        ensures cause { HasCause (view self.old).faults (view self.new).faults result }
        ensures count { (view self.new).faults < 2 ^ 64 };

    /// Says which file a channel writes, and makes the channel empty. `channel` is `Disk0`, `Disk1` or `Image`. The call is added to those
    /// made.
    ///
    /// # Errors
    /// `Failed` if the file can't be made, and only if the count of faults rose or is at its end; `NoMemory`, and then the call
    /// may not have been added. The channel is empty after either, or as before.
    fn name_out(&mut self, channel: Channel, path: &str) -> Result<(), HostFault>
        requires not_out { channel ≢ Channel.Out }
        requires not_fault { channel ≢ Channel.Fault }
        ensures named { NamesFile (view self.old) (view self.new) channel (naming channel path.now) result }
        ensures cause { HasCause (view self.old).faults (view self.new).faults result }
        ensures count { (view self.new).faults < 2 ^ 64 };

    /// Appends bytes to a channel.
    ///
    /// # Errors
    /// `Failed` if they can't be written, and only if the count of faults rose or is at its end; `NoMemory`. Some bytes from
    /// the front may have been appended then.
    fn emit(&mut self, channel: Channel, bytes: &[u8]) -> Result<(), HostFault>
        ensures sent { Emits (view self.old) (view self.new) channel bytes.now result }
        ensures cause { HasCause (view self.old).faults (view self.new).faults result }
        ensures count { (view self.new).faults < 2 ^ 64 };
}
