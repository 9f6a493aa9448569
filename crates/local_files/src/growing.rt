//! A file gets a new data block, and a new index block if one is needed.

ghost use Rattle.std.specs.Prelude.{replicate, ◌≡◌, ◌/◌, ◌%◌, length};
ghost use Rattle.lfs_format.specs.Words.{word_of};
ghost use Rattle.lfs_format.specs.Indexes.{index_at, IsIndexPut};
ghost use Rattle.local_files.specs.Steps.{at_byte, with_piece, with_free_data, with_free_index, with_index};
ghost use Rattle.local_files.specs.Wanted.{to_write};
ghost use Rattle.local_files.specs.Puts.{next_put, put_done, take_written, added_index, fresh_index, new_written, followed, linked_index};

use crate::{Files, Phase, Purpose};
use byteorder::{ByteOrder, LittleEndian};
use lfs_format::{Index, NULL, read_index, write_index};

impl Files {
    // The free data block is read: it gets the bytes.
    pub(crate) fn take_read(&mut self, b: u32, read: &[u8; 512])
        ensures new { self.new ≡ to_write (Purpose.TakeWrite b) (with_piece 0 (replicate 512 0) self.old) (with_free_data (word_of read.now) self.old) }
        ensures block { length self.new.block ≡ 512 }
    {
        let many = self.piece();
        self.header.free_data = LittleEndian::read_u32(&read[..4]);
        self.block = [0; 512];
        self.buffer
            .patch(self.counters.done, many, 0, &mut self.block);
        self.phase = Phase::Wants(Purpose::TakeWrite { block: b });
    }

    // It is written: an index block gets its number.
    pub(crate) fn take_written(&mut self, b: u32)
        ensures new { self.new ≡ take_written b self.old }
    {
        if self.at_byte() % 8192 == 0 {
            self.go_on(Purpose::NewRead {
                block: b,
                index: self.header.free_index,
            });
        } else {
            self.phase = Phase::Wants(Purpose::AddRead { block: b });
        }
    }

    // The last index block gets the number.
    pub(crate) fn add_read(&mut self, b: u32, read: &[u8; 512])
        ensures new { self.new ≡ to_write (Purpose.AddWrite b) self.new.block self.old }
        ensures block { IsIndexPut read.now (self.old.at % 7) (added_index b self.old) self.new.block }
    {
        let index = self.added_index(b);
        let k = self.at as usize % 7;
        self.block = *read;
        write_index(&index, &mut self.block, k);
        self.phase = Phase::Wants(Purpose::AddWrite { block: b });
    }

    // The last index block with the number.
    fn added_index(&self, b: u32) -> Index
        ensures { result ≡ added_index b self.now }
    {
        let mut index = self.index;
        index.blocks[self.at_byte() as usize / 512 % 16] = b;
        index
    }

    // It is written.
    pub(crate) fn add_written(&mut self, b: u32)
        ensures new { self.new ≡ next_put (put_done (with_index (added_index b self.old) self.old)) }
    {
        self.index = self.added_index(b);
        self.piece_written();
    }

    // An index block of one data block.
    fn fresh_index(&self, b: u32) -> Index
        ensures { result ≡ fresh_index b self.now }
    {
        let mut blocks = [NULL; 16];
        blocks[0] = b;
        Index {
            next: NULL,
            offset: self.at_byte(),
            blocks,
        }
    }

    // The free index block is read: it gets the number.
    pub(crate) fn new_read(&mut self, b: u32, i: u32, read: &[u8; 512])
        ensures new { self.new ≡ to_write (Purpose.NewWrite b i) self.new.block (with_free_index (index_at (i % 7) read.now).next self.old) }
        ensures block { IsIndexPut read.now (i % 7) (fresh_index b self.old) self.new.block }
    {
        self.header.free_index = read_index(read, i as usize % 7).next;
        self.block = *read;
        let fresh = self.fresh_index(b);
        write_index(&fresh, &mut self.block, i as usize % 7);
        self.phase = Phase::Wants(Purpose::NewWrite { block: b, index: i });
    }

    // It is written: it is the file's first, or the last one names it.
    pub(crate) fn new_written(&mut self, b: u32, i: u32)
        ensures new { self.new ≡ new_written b i self.old }
    {
        if self.at_byte() == 0 {
            self.entry.first = i;
            self.follow(b, i);
        } else {
            self.phase = Phase::Wants(Purpose::LinkRead { block: b, index: i });
        }
    }

    // The last index block is read: it names the new one.
    pub(crate) fn link_read(&mut self, b: u32, i: u32, read: &[u8; 512])
        ensures new { self.new ≡ to_write (Purpose.LinkWrite b i) self.new.block self.old }
        ensures block { IsIndexPut read.now (self.old.at % 7) (linked_index i (index_at (self.old.at % 7) read.now)) self.new.block }
    {
        let k = self.at as usize % 7;
        let last = Index {
            next: i,
            ..read_index(read, k)
        };
        self.block = *read;
        write_index(&last, &mut self.block, k);
        self.phase = Phase::Wants(Purpose::LinkWrite { block: b, index: i });
    }

    // The new index block is the last one of the file.
    pub(crate) fn follow(&mut self, b: u32, i: u32)
        ensures new { self.new ≡ next_put (put_done (followed b i self.old)) }
    {
        self.index = self.fresh_index(b);
        self.at = i;
        self.reached = self.reached.wrapping_add(1);
        self.piece_written();
    }
}
