//! The end of a call that changes the directory: the block of the entry is read and written, and then the first block with the counts.

ghost use Rattle.std.specs.Prelude.{◌≡◌, ◌%◌, Some};
ghost use Rattle.lfs_format.specs.Directory.{dir_of, IsDirBlock};
ghost use Rattle.lfs_check.specs.Disks.{dir_with_entry, dir_with_header};
ghost use Rattle.local_files.specs.Steps.{named_device};
ghost use Rattle.local_files.specs.Wanted.{to_write};
ghost use Rattle.local_files.specs.Opens.{ended, ended_at};

use crate::table::count;
use crate::{FileCall, FileDev, Files, Phase, Purpose};
use lfs_format::{read_dir, write_dir};

impl Files {
    // The directory block of the entry is read: it gets the entry.
    pub(crate) fn put_entry(&mut self, read: &[u8; 512])
        ensures new { self.new ≡ to_write Purpose.EntryWrite self.new.block self.old }
        ensures block { IsDirBlock (dir_with_entry (dir_of read.now) (self.old.slot % 13) self.old.entry) self.new.block }
    {
        let mut dir = read_dir(read);
        dir.entries[self.slot as usize % 13] = self.entry;
        write_dir(&dir, &mut self.block);
        self.phase = Phase::Wants(Purpose::EntryWrite);
    }

    // The directory block of the entry is written.
    pub(crate) fn entry_written(&mut self)
        ensures new { self.new ≡ record self.old { phase = Phase.Wants Purpose.HeaderRead } }
    {
        self.phase = Phase::Wants(Purpose::HeaderRead);
    }

    // The first directory block is read: it gets the counts.
    pub(crate) fn put_header(&mut self, read: &[u8; 512])
        ensures new { self.new ≡ to_write Purpose.HeaderWrite self.new.block self.old }
        ensures block { IsDirBlock (dir_with_header (dir_of read.now) self.old.header) self.new.block }
    {
        let mut dir = read_dir(read);
        dir.free_data = self.header.free_data;
        dir.free_index = self.header.free_index;
        dir.files = self.header.files;
        write_dir(&dir, &mut self.block);
        self.phase = Phase::Wants(Purpose::HeaderWrite);
    }

    // The counts are written: the call has its effect.
    pub(crate) fn header_written(&mut self)
        ensures new { self.new ≡ ended self.old.call self.old }
    {
        match self.call {
            FileCall::Open(_, mode) => self.open_at(self.slot, self.entry, mode),
            _ => self.end_at_device(),
        }
    }

    fn end_at_device(&mut self)
        ensures new { self.new ≡ ended_at (named_device self.old.call) self.old }
    {
        match self.named() {
            None => self.answer_with(0),
            Some(d) => self.end_at(d),
        }
    }

    fn end_at(&mut self, d: FileDev)
        ensures new { self.new ≡ ended_at (Some d) self.old }
    {
        let position = if self.is_truncate() {
            0
        } else {
            self.at_byte()
        };
        self.keep_at(d, position);
        let reply = if self.is_write() {
            count(self.counters.done)
        } else {
            0
        };
        self.answer_with(reply);
    }
}
