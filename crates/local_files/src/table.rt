//! The devices: which files are open, and where in them; and where a call is in its file.

ghost use Rattle.std.specs.Prelude.{◌≡◌, ◌<◌, ◌≤◌, ◌+◌, ◌-◌, ◌%◌, true, false, Some, None, map, min, count_by, is_some};
ghost use Rattle.xinu_model.specs.Files.Systems.{free_device};
ghost use Rattle.local_files.specs.Steps.{shown, device_at, position_at, is_this_open, answered, at_byte, piece, moved_to, kept_at, counted, named_device, is_getc, is_write, is_truncate, is_delete};

use crate::{FileCall, FileDev, Files, OpenFile, Phase};

impl Files {
    /// What a device has open.
    pub(crate) fn device(&self, d: FileDev) -> Option<OpenFile>
        ensures { result ≡ device_at self.now d }
    {
        self.devices[d.index()]
    }

    /// The position of a device, if it has a file open.
    pub fn position(&self, d: FileDev) -> Option<u32>
        ensures { result ≡ position_at (device_at self.now d) }
    {
        match self.device(d) {
            None => None,
            Some(f) => Some(f.position),
        }
    }

    /// How many devices have a file open.
    pub fn open_count(&self) -> u32
        ensures { result ≡ count_by is_some self.now.devices }
    {
        let mut n = 0;
        for d in 0..6 {
            if self.devices[d].is_some() {
                n += 1;
            }
        }
        n
    }

    // The lowest device that has nothing open; 6 if all are open.
    pub(crate) fn free_device(&self) -> usize
        ensures { result ≡ free_device (map shown self.now.devices) }
    {
        for d in 0..6 {
            if self.devices[d].is_none() {
                return d;
            }
        }
        6
    }

    // Whether the file of a name is open.
    pub(crate) fn is_open(&self, name: &[u8; 28]) -> bool
        ensures { result ≡ is_this_open name.now self.now.devices }
    {
        for d in 0..6 {
            if let Some(f) = self.devices[d] {
                if f.entry.name == *name {
                    return true;
                }
            }
        }
        false
    }

    // The device that the call in hand names, if it names one.
    pub(crate) fn named(&self) -> Option<FileDev>
        ensures { result ≡ named_device self.now.call }
    {
        match self.call {
            FileCall::Open(_, _) => None,
            FileCall::Delete(_) => None,
            FileCall::Close(d) => Some(d),
            FileCall::Read(d, _) => Some(d),
            FileCall::Write(d) => Some(d),
            FileCall::Getc(d) => Some(d),
            FileCall::Putc(d, _) => Some(d),
            FileCall::Seek(d, _) => Some(d),
            FileCall::Truncate(d) => Some(d),
            FileCall::Size(d) => Some(d),
        }
    }

    pub(crate) fn is_getc(&self) -> bool
        ensures { result ≡ is_getc self.now.call }
    {
        matches!(self.call, FileCall::Getc(_))
    }

    pub(crate) fn is_write(&self) -> bool
        ensures { result ≡ is_write self.now.call }
    {
        matches!(self.call, FileCall::Write(_))
    }

    pub(crate) fn is_truncate(&self) -> bool
        ensures { result ≡ is_truncate self.now.call }
    {
        matches!(self.call, FileCall::Truncate(_))
    }

    pub(crate) fn is_delete(&self) -> bool
        ensures { result ≡ is_delete self.now.call }
    {
        matches!(self.call, FileCall::Delete(_))
    }

    // The call is done, and has given no bytes.
    pub(crate) fn answer_with(&mut self, reply: i32)
        ensures new { self.new ≡ answered reply self.old }
    {
        self.phase = Phase::Done(reply);
        self.counters.given = 0;
    }

    // The position in the file up to which the call has come.
    pub(crate) fn at_byte(&self) -> u32
        ensures { result ≡ at_byte self.now }
    {
        self.counters.position.wrapping_add(self.counters.done)
    }

    // How many bytes of the call are in the block of that position.
    pub(crate) fn piece(&self) -> u32
        ensures at { result ≡ piece self.now }
        ensures most { at_byte self.now % 512 + result ≤ 512 }
    {
        let room = 512 - self.at_byte() % 512;
        room.min(self.counters.total.saturating_sub(self.counters.done))
    }

    // The position of a device becomes another.
    pub(crate) fn move_to(&mut self, d: FileDev, position: u32)
        ensures new { self.new ≡ moved_to (device_at self.old d) d position self.old }
    {
        if let Some(f) = self.device(d) {
            self.devices[d.index()] = Some(OpenFile { position, ..f });
        }
    }

    // A device has the file in hand open with its new entry, at another position.
    pub(crate) fn keep_at(&mut self, d: FileDev, position: u32)
        ensures new { self.new ≡ kept_at (device_at self.old d) d position self.old }
    {
        if let Some(f) = self.device(d) {
            self.devices[d.index()] = Some(OpenFile {
                entry: self.entry,
                position,
                ..f
            });
        }
    }
}

/// A number of bytes as a reply.
pub(crate) fn count(n: u32) -> i32
    ensures { result ≡ counted n }
{
    if n > 2_147_483_647 { -1 } else { n as i32 }
}
