//! `truncate`, and what a deletion does first: the blocks of a file are freed, its index blocks in their order and after each its data blocks.

ghost use Rattle.std.specs.Prelude.{◌≡◌, ◌<◌, ◌%◌, Some, None};
ghost use Rattle.lfs_format.specs.Indexes.{index_at, IsIndexPut};
ghost use Rattle.local_files.specs.Steps.{device_at, with_index};
ghost use Rattle.local_files.specs.Wanted.{to_write};
ghost use Rattle.local_files.specs.Cuts.{truncating_at, truncating, cutting, freed_index, cut_written, free_next, freeing, free_written, end_cut};

use crate::{FileCall, FileDev, Files, OpenFile, Phase, Purpose};
use byteorder::{ByteOrder, LittleEndian};
use lfs_format::{Index, NULL, read_index, write_index};

impl Files {
    // `truncate` begins: refused if the device has nothing open that may be written. An empty file stays as it is.
    pub(crate) fn begin_truncate(&mut self, call: FileCall, d: FileDev)
        ensures new { self.new ≡ truncating_at (device_at self.old d) d call self.old }
    {
        match self.device(d) {
            None => self.answer_with(-1),
            Some(f) => self.truncate(f, d, call),
        }
    }

    fn truncate(&mut self, f: OpenFile, d: FileDev, call: FileCall)
        ensures new { self.new ≡ truncating f d call self.old }
    {
        if !f.write {
            self.answer_with(-1);
        } else if f.entry.size == 0 {
            self.move_to(d, 0);
            self.answer_with(0);
        } else {
            self.hold(f, call);
        }
    }

    // The file in hand is cut to nothing: its blocks are to be freed.
    pub(crate) fn cut(&mut self)
        ensures new { self.new ≡ cutting self.old.entry self.old }
    {
        self.at = self.entry.first;
        self.reached = 0;
        self.freed = 0;
        let empty = self.entry.size == 0;
        self.entry.size = 0;
        self.entry.first = NULL;
        if empty {
            self.end_cut();
        } else {
            self.go_on(Purpose::CutRead);
        }
    }

    // An index block is read: it gets the number of the first free one.
    pub(crate) fn cut_read(&mut self, read: &[u8; 512])
        ensures new { self.new ≡ to_write Purpose.CutWrite self.new.block (with_index (index_at (self.old.at % 7) read.now) self.old) }
        ensures block { IsIndexPut read.now (self.old.at % 7) (freed_index (index_at (self.old.at % 7) read.now) self.old) self.new.block }
    {
        let k = self.at as usize % 7;
        self.index = read_index(read, k);
        let freed = Index {
            next: self.header.free_index,
            ..self.index
        };
        self.block = *read;
        write_index(&freed, &mut self.block, k);
        self.phase = Phase::Wants(Purpose::CutWrite);
    }

    // It is written: it is the first free one, and its data blocks come next.
    pub(crate) fn cut_written(&mut self)
        ensures new { self.new ≡ free_next (cut_written self.old) }
    {
        self.header.free_index = self.at;
        self.reached = self.reached.wrapping_add(1);
        self.freed = 0;
        self.free_next();
    }

    // Goes on to the next data block, or the next index block, or the end.
    fn free_next(&mut self)
        ensures new { self.new ≡ free_next self.old }
    {
        if self.freed < 16 && self.index.blocks[self.freed as usize % 16] != NULL {
            self.free(self.index.blocks[self.freed as usize % 16]);
        } else if self.index.next != NULL {
            self.at = self.index.next;
            self.go_on(Purpose::CutRead);
        } else {
            self.end_cut();
        }
    }

    // A data block is to be written with the number of the first free one.
    fn free(&mut self, b: u32)
        ensures new { self.new ≡ freeing b self.old }
    {
        let next = self.header.free_data;
        self.block = [0; 512];
        LittleEndian::write_u32(&mut self.block[..4], next);
        self.go_on(Purpose::FreeWrite { block: b });
    }

    // It is written: it is the first free one.
    pub(crate) fn free_written(&mut self, b: u32)
        ensures new { self.new ≡ free_next (free_written b self.old) }
    {
        self.header.free_data = b;
        self.freed = self.freed.wrapping_add(1);
        self.free_next();
    }

    // All blocks are free: a deletion clears the entry and counts one file less.
    fn end_cut(&mut self)
        ensures new { self.new ≡ end_cut self.old }
    {
        if self.is_delete() {
            self.entry.name = [0; 28];
            self.header.files = self.header.files.wrapping_sub(1);
        }
        self.phase = Phase::Wants(Purpose::EntryRead);
    }
}
