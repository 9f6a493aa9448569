//! `open`, `close`, `seek`, the size, and the search of a name for `open` and `delete`.

ghost use Rattle.std.specs.Prelude.{◌≡◌, ◌+◌, ◌*◌, ◌<◌, Some, None, ◌==◌, if◌then◌else◌};
ghost use Rattle.lfs_check.specs.Fields.{header_2};
ghost use Rattle.local_files.specs.Hands.{name_of};
ghost use Rattle.local_files.specs.Steps.{device_at, is_this_open};
ghost use Rattle.local_files.specs.Opens.{closing, seeking, sizing, beginning, deleting, finding, missing, searching_on, opening_at, IsNoted, IsLook};

use crate::search::first_unused;
use crate::table::count;
use crate::{FileCall, FileDev, Files, OpenFile, Phase, Purpose};
use lfs_check::Header;
use lfs_format::{Dir, Entry, NULL};
use xinu_base::OpenMode;

impl Files {
    // `open`: refused if the file is open, or no device is free.
    pub(crate) fn begin_open(&mut self, call: FileCall, name: &[u8; 28])
        ensures new { self.new ≡ beginning (is_this_open name.now self.old.devices) call self.old }
    {
        if self.is_open(name) || self.free_device() >= 6 {
            self.answer_with(-1);
        } else {
            self.call = call;
            self.slot = 78;
            self.phase = Phase::Wants(Purpose::Search { block: 0 });
        }
    }

    // `delete`: refused if the file is open.
    pub(crate) fn begin_delete(&mut self, call: FileCall, name: &[u8; 28])
        ensures new { self.new ≡ deleting (is_this_open name.now self.old.devices) call self.old }
    {
        if self.is_open(name) {
            self.answer_with(-1);
        } else {
            self.call = call;
            self.slot = 78;
            self.phase = Phase::Wants(Purpose::Search { block: 0 });
        }
    }

    // `close`
    pub(crate) fn close(&mut self, d: FileDev)
        ensures new { self.new ≡ closing (device_at self.old d) d self.old }
    {
        match self.device(d) {
            None => self.answer_with(-1),
            Some(_) => {
                self.devices[d.index()] = None;
                self.answer_with(0);
            }
        }
    }

    // `seek`
    pub(crate) fn seek(&mut self, d: FileDev, n: i32)
        ensures new { self.new ≡ seeking (device_at self.old d) d n self.old }
    {
        match self.device(d) {
            None => self.answer_with(-1),
            Some(f) => self.seek_in(f, d, n),
        }
    }

    fn seek_in(&mut self, f: OpenFile, d: FileDev, n: i32)
        ensures new { self.new ≡ seeking (Some f) d n self.old }
    {
        if n < 0 || n as u32 > f.entry.size {
            self.answer_with(-1);
        } else {
            self.devices[d.index()] = Some(OpenFile {
                position: n as u32,
                ..f
            });
            self.answer_with(0);
        }
    }

    // the size
    pub(crate) fn size(&mut self, d: FileDev)
        ensures new { self.new ≡ sizing (device_at self.old d) self.old }
    {
        match self.device(d) {
            None => self.answer_with(-1),
            Some(f) => self.answer_with(count(f.entry.size)),
        }
    }

    // The counts are kept, if this is the first directory block.
    pub(crate) fn keep_header(&mut self, d: u32, dir: &Dir)
        ensures new { self.new ≡ record self.old { header = if d == 0 then header_2 dir.now else self.old.header } }
    {
        if d == 0 {
            self.header = Header {
                free_data: dir.free_data,
                free_index: dir.free_index,
                files: dir.files,
            };
        }
    }

    // The name that the call looks for.
    pub(crate) fn name(&self) -> [u8; 28]
        ensures name { IsLook self.now.call → result ≡ name_of self.now.call }
    {
        match self.call {
            FileCall::Open(name, _) => name,
            FileCall::Delete(name) => name,
            _ => [0; 28],
        }
    }

    // The name is there.
    pub(crate) fn found(&mut self, slot: u32, entry: Entry)
        ensures new { self.new ≡ finding self.old.call slot entry self.old }
    {
        match self.call {
            FileCall::Open(_, mode) => {
                if mode.only_new {
                    self.answer_with(-1);
                } else {
                    self.open_at(slot, entry, mode);
                }
            }
            FileCall::Delete(_) => {
                self.slot = slot;
                self.entry = entry;
                self.cut();
            }
            _ => self.answer_with(-1),
        }
    }

    // The name isn't in block `d`.
    pub(crate) fn pass(&mut self, d: u32, dir: &Dir)
        requires below { d < 6 }
        ensures new { self.new ≡ searching_on d (record self.old { slot = self.new.slot }) }
        ensures noted { IsNoted d self.old.slot self.new.slot dir.now.entries }
    {
        self.note_unused(d, dir);
        if d < 5 {
            self.phase = Phase::Wants(Purpose::Search { block: d + 1 });
        } else {
            self.not_found();
        }
    }

    // A place for a new file is noted.
    fn note_unused(&mut self, d: u32, dir: &Dir)
        requires below { d < 6 }
        ensures new { self.new ≡ record self.old { slot = self.new.slot } }
        ensures noted { IsNoted d self.old.slot self.new.slot dir.now.entries }
    {
        if self.slot >= 78 {
            if let Some(k) = first_unused(&dir.entries) {
                self.slot = 13 * d + k;
            }
        }
    }

    // No block has the name.
    fn not_found(&mut self)
        ensures new { self.new ≡ missing self.old.call self.old }
    {
        match self.call {
            FileCall::Open(name, mode) => {
                if mode.only_old || self.slot >= 78 {
                    self.answer_with(-1);
                } else {
                    self.entry = Entry {
                        size: 0,
                        first: NULL,
                        name,
                    };
                    self.header.files = self.header.files.wrapping_add(1);
                    self.phase = Phase::Wants(Purpose::EntryRead);
                }
            }
            _ => self.answer_with(-1),
        }
    }

    // Gives the lowest device that has nothing open an entry's file.
    pub(crate) fn open_at(&mut self, slot: u32, entry: Entry, mode: OpenMode)
        ensures new { self.new ≡ opening_at slot entry mode self.old }
    {
        let d = self.free_device();
        if d < 6 {
            self.devices[d] = Some(OpenFile {
                slot,
                entry,
                position: 0,
                read: mode.read || !mode.write,
                write: mode.write || !mode.read,
            });
            self.answer_with(4 + d as i32);
        } else {
            self.answer_with(-1);
        }
    }
}
