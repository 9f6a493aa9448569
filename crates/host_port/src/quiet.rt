//! A host in memory that never fails.

use crate::front::first_bytes;
use crate::host::{Channel, Host, HostFault};
use crate::recorded::RecordedCall;
use std::alloc::Global;
use std::collections::BTreeMap;
use xinu_base::NoMemory;

/// Files and channels in memory. Every name is a file, empty until it is added, and a call fails only if memory runs out.
pub struct QuietMemoryHost {
    alloc: Global,
    files: BTreeMap<String, Vec<u8>>,
    out: Vec<u8>,
    fault: Vec<u8>,
    disk0: Vec<u8>,
    disk1: Vec<u8>,
    image: Vec<u8>,
    calls: Vec<RecordedCall>,
}

impl Drop for QuietMemoryHost {
    fn drop(self) {
        let QuietMemoryHost {
            alloc: _alloc,
            files: _files,
            out: _out,
            fault: _fault,
            disk0: _disk0,
            disk1: _disk1,
            image: _image,
            calls: _calls,
        } = self;
    }
}

impl QuietMemoryHost {
    ghost use Rattle.std.specs.Prelude.{◌≡◌, Some, None, is_some, OnOk, OnErr, IsErrOf, ◌∷◌, [], unwrap_or};
    ghost use Rattle.host_port.specs.Outside.{AddsFile, Stays, sent_on, with_calls};
    ghost use Rattle.host_port.specs.QuietHost.{quiet_view, quiet_empty, added, added_view};

    /// A host with no files, on which nothing was sent.
    pub fn new(alloc: Global) -> Self
        ensures empty { quiet_view result ≡ quiet_empty }
        ensures files { added_view result ≡ record quiet_empty { file = λ name. None } }
    {
        QuietMemoryHost {
            alloc,
            files: BTreeMap::new(alloc),
            out: Vec::new(alloc),
            fault: Vec::new(alloc),
            disk0: Vec::new(alloc),
            disk1: Vec::new(alloc),
            image: Vec::new(alloc),
            calls: Vec::new(alloc),
        }
    }

    /// Adds a file, in place of what the name held before.
    ///
    /// # Errors
    /// `NoMemory`, and the host is as it was.
    pub fn add_file(&mut self, name: &str, bytes: &[u8]) -> Result<(), NoMemory>
        ensures added { OnOk result (AddsFile (quiet_view self.old) (quiet_view self.new) name.now bytes.now) }
        ensures added_view { OnOk result (AddsFile (added_view self.old) (added_view self.new) name.now bytes.now) }
        ensures stays { OnErr result (Stays (quiet_view self.old) (quiet_view self.new)) }
        ensures files { OnErr result (Stays (added_view self.old) (added_view self.new)) }
    {
        let name = String::from_str(self.alloc, name).map_err(|_| NoMemory)?;
        let bytes = Vec::from_slice(self.alloc, bytes).map_err(|_| NoMemory)?;
        self.files.insert(name, bytes).map_err(|_| NoMemory)?;
        Ok(())
    }

    /// The bytes that were sent on a channel.
    pub fn sent(&self, channel: Channel) -> &[u8]
        ensures sent { sent_on (quiet_view self.now) channel ≡ Some result.now }
    {
        match channel {
            Channel::Out => self.out.as_slice(),
            Channel::Fault => self.fault.as_slice(),
            Channel::Disk0 => self.disk0.as_slice(),
            Channel::Disk1 => self.disk1.as_slice(),
            Channel::Image => self.image.as_slice(),
        }
    }

    /// Whether a file was added.
    pub(crate) fn has_file(&self, name: &str) -> bool
        ensures added_view { result ≡ is_some (added self.now name.now) }
    {
        self.files.contains_key(name)
    }

    /// Writes down a call: of `name_out` with its channel, of `fetch` with none.
    pub(crate) fn record_call(
        &mut self,
        name: &str,
        channel: Option<Channel>,
    ) -> Result<(), HostFault>
        ensures ok { OnOk result (quiet_view self.new ≡ with_calls (quiet_view self.old) (record { name = name.now; channel = channel } ∷ [])) }
        ensures err { OnErr result (quiet_view self.new ≡ quiet_view self.old) }
        ensures cause { IsErrOf result HostFault.Failed → ⊥ }
        ensures files { self.new.files ≡ self.old.files }
    {
        let name = String::from_str(self.alloc, name)?;
        self.calls.push(RecordedCall { name, channel })?;
        Ok(())
    }

    // The bytes of a file.
    fn bytes_of(&self, name: &str) -> &[u8]
        ensures bytes { result.now ≡ unwrap_or (added self.now name.now) [] }
    {
        match self.files.get(name) {
            Some(bytes) => bytes.as_slice(),
            None => &[],
        }
    }
}

impl Host for QuietMemoryHost {
    ghost use Rattle.std.specs.Prelude.{◌≡◌, ◌≢◌, ◌+◌, ◌≤◌, ◌<◌, ◌^◌, ⊤, take, vec_len, IfOk, MatchOption};
    ghost use Rattle.host_port.specs.Outside.{fetching, naming};
    ghost use Rattle.host_port.specs.HostCalls.{HasCause, Emits, MakesCall, NamesFile};
    ghost use Rattle.host_port.specs.QuietHost.{quiet_view};

    ghost view = { quiet_view };

    fn fetch(&mut self, alloc: Global, path: &str, max: usize) -> Result<Vec<u8>, HostFault>
        ensures bytes { IfOk result (λ v. MatchOption ((quiet_view self.old).file path.now) ⊤ (λ bytes. v.items ≡ take (max + 1) bytes)) }
        ensures bound { IfOk result (λ v. vec_len v ≤ max + 1) }
        ensures calls { MakesCall (quiet_view self.old) (quiet_view self.new) (fetching path.now) result }
        ensures cause { HasCause (quiet_view self.old).faults (quiet_view self.new).faults result }
        ensures count { (quiet_view self.new).faults < 2 ^ 64 }
        ensures files { self.new.files ≡ self.old.files }
    {
        self.record_call(path, None)?;
        Ok(first_bytes(alloc, self.bytes_of(path), max)?)
    }

    fn name_out(&mut self, channel: Channel, path: &str) -> Result<(), HostFault>
        requires not_out { channel ≢ Channel.Out }
        requires not_fault { channel ≢ Channel.Fault }
        ensures named { NamesFile (quiet_view self.old) (quiet_view self.new) channel (naming channel path.now) result }
        ensures cause { HasCause (quiet_view self.old).faults (quiet_view self.new).faults result }
        ensures count { (quiet_view self.new).faults < 2 ^ 64 }
        ensures files { self.new.files ≡ self.old.files }
    {
        self.record_call(path, Some(channel))?;
        match channel {
            Channel::Disk0 => self.disk0.clear(),
            Channel::Disk1 => self.disk1.clear(),
            Channel::Image => self.image.clear(),
            Channel::Out | Channel::Fault => {}
        }
        Ok(())
    }

    fn emit(&mut self, channel: Channel, bytes: &[u8]) -> Result<(), HostFault>
        ensures sent { Emits (quiet_view self.old) (quiet_view self.new) channel bytes.now result }
        ensures cause { HasCause (quiet_view self.old).faults (quiet_view self.new).faults result }
        ensures count { (quiet_view self.new).faults < 2 ^ 64 }
        ensures files { self.new.files ≡ self.old.files }
    {
        match channel {
            Channel::Out => self.out.extend_from_slice(bytes)?,
            Channel::Fault => self.fault.extend_from_slice(bytes)?,
            Channel::Disk0 => self.disk0.extend_from_slice(bytes)?,
            Channel::Disk1 => self.disk1.extend_from_slice(bytes)?,
            Channel::Image => self.image.extend_from_slice(bytes)?,
        }
        Ok(())
    }
}
