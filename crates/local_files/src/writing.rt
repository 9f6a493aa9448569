//! `write`, `putc`: the index blocks up to that of the position, and data blocks that are there.

ghost use Rattle.std.specs.Prelude.{◌≡◌, ◌+◌, ◌-◌, ◌/◌, ◌%◌, Some, None, length};
ghost use Rattle.lfs_format.specs.Indexes.{index_at};
ghost use Rattle.lfs_format.specs.Directory.{dir_of};
ghost use Rattle.local_files.specs.Steps.{device_at, at_byte, with_piece};
ghost use Rattle.local_files.specs.Wanted.{to_write};
ghost use Rattle.local_files.specs.Cuts.{held_file};
ghost use Rattle.local_files.specs.Puts.{writing_at, writing, counts_read, next_put, end_put, at_end, target, appending, in_place, reach_to, reached, put_done};

use crate::{FileCall, FileDev, Files, OpenFile, Phase, Purpose};
use lfs_check::Header;
use lfs_format::{NULL, read_dir, read_index};

impl Files {
    // A write begins: refused if the device has nothing open that may be written.
    pub(crate) fn begin_write(&mut self, call: FileCall, d: FileDev, bytes: &[u8])
        ensures new { self.new ≡ writing_at (device_at self.old d) bytes.now call self.old }
    {
        match self.device(d) {
            None => self.answer_with(-1),
            Some(f) => self.write_to(f, bytes, call),
        }
    }

    fn write_to(&mut self, f: OpenFile, bytes: &[u8], call: FileCall)
        ensures new { self.new ≡ writing f bytes.now call self.old }
    {
        if !f.write || bytes.len() > 1_048_576 {
            self.answer_with(-1);
        } else if bytes.len() == 0 {
            self.answer_with(0);
        } else {
            self.hold(f, call);
            self.buffer.put(0, bytes);
            self.counters.position = f.position;
            self.counters.total = bytes.len() as u32;
            self.counters.done = 0;
            self.reached = 0;
        }
    }

    // A call takes the file of a device in hand, and reads the counts.
    pub(crate) fn hold(&mut self, f: OpenFile, call: FileCall)
        ensures new { self.new ≡ held_file f call self.old }
    {
        self.call = call;
        self.slot = f.slot;
        self.entry = f.entry;
        self.phase = Phase::Wants(Purpose::Counts);
    }

    // The counts are read.
    pub(crate) fn counts_read(&mut self, read: &[u8; 512])
        ensures new { self.new ≡ counts_read (dir_of read.now) self.old }
    {
        let dir = read_dir(read);
        self.header = Header {
            free_data: dir.free_data,
            free_index: dir.free_index,
            files: dir.files,
        };
        if self.is_truncate() {
            self.cut();
        } else {
            self.next_put();
        }
    }

    // Goes on with the bytes that are left.
    pub(crate) fn next_put(&mut self)
        ensures new { self.new ≡ next_put self.old }
    {
        if self.counters.done >= self.counters.total {
            self.end_put();
        } else if self.at_end() {
            self.append();
        } else {
            self.put_in_place();
        }
    }

    // No more bytes are put: refused if there are none.
    pub(crate) fn end_put(&mut self)
        ensures new { self.new ≡ end_put self.old }
    {
        if self.counters.done == 0 {
            self.answer_with(-1);
        } else {
            self.phase = Phase::Wants(Purpose::EntryRead);
        }
    }

    // Whether the next bytes need a new data block.
    pub(crate) fn at_end(&self) -> bool
        ensures { result ≡ at_end self.now }
    {
        self.at_byte() == self.entry.size && self.at_byte() % 512 == 0
    }

    // Which index block of the file the next bytes need.
    pub(crate) fn target(&self) -> u32
        ensures { result ≡ target self.now }
    {
        let q = self.at_byte();
        if self.at_end() && q > 0 {
            (q - 1) / 8192
        } else {
            q / 8192
        }
    }

    // The next bytes go into a new data block, if there is a free one, and a free index block if one is needed.
    fn append(&mut self)
        ensures new { self.new ≡ appending self.old }
    {
        let q = self.at_byte();
        if self.header.free_data == NULL || q % 8192 == 0 && self.header.free_index == NULL {
            self.end_put();
        } else if q == 0 || self.reached == self.target() + 1 {
            self.go_on(Purpose::TakeRead {
                block: self.header.free_data,
            });
        } else {
            self.reach_to();
        }
    }

    // The next bytes go into a data block of the file.
    fn put_in_place(&mut self)
        ensures new { self.new ≡ in_place self.old }
    {
        if self.reached == self.target() + 1 {
            let block = self.index.blocks[self.at_byte() as usize / 512 % 16];
            self.go_on(Purpose::PatchRead { block });
        } else {
            self.reach_to();
        }
    }

    // Goes on to the index block that is needed.
    fn reach_to(&mut self)
        ensures new { self.new ≡ reach_to self.old }
    {
        if self.reached == 0 {
            self.go_on(Purpose::Reach {
                rest: self.target(),
                index: self.entry.first,
            });
        } else {
            self.go_on(Purpose::Reach {
                rest: 0,
                index: self.index.next,
            });
        }
    }

    // An index block is read.
    pub(crate) fn reached(&mut self, rest: u32, at: u32, read: &[u8; 512])
        ensures new { self.new ≡ reached rest at (index_at (at % 7) read.now) self.old }
    {
        self.index = read_index(read, at as usize % 7);
        self.at = at;
        if rest == 0 {
            self.reached = self.target() + 1;
            self.next_put();
        } else {
            self.go_on(Purpose::Reach {
                rest: rest - 1,
                index: self.index.next,
            });
        }
    }

    // The data block is read: it gets the bytes.
    pub(crate) fn patch_read(&mut self, b: u32, read: &[u8; 512])
        ensures new { self.new ≡ to_write (Purpose.PatchWrite b) (with_piece (at_byte self.old % 512) read.now self.old) self.old }
        ensures len { length read.now ≡ 512 }
        ensures block { length self.new.block ≡ 512 }
    {
        let (from, many) = (self.at_byte() % 512, self.piece());
        self.block = *read;
        self.buffer
            .patch(self.counters.done, many, from, &mut self.block);
        self.phase = Phase::Wants(Purpose::PatchWrite { block: b });
    }

    // The bytes are on the disk.
    pub(crate) fn put_done(&mut self)
        ensures new { self.new ≡ put_done self.old }
    {
        self.counters.done = self.counters.done.wrapping_add(self.piece());
        self.entry.size = self.entry.size.max(self.at_byte());
    }

    pub(crate) fn piece_written(&mut self)
        ensures new { self.new ≡ next_put (put_done self.old) }
    {
        self.put_done();
        self.next_put();
    }
}
