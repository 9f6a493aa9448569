//! `read` and `getc`: the index blocks of the file up to that of the position, and its data blocks from the position on.

ghost use Rattle.std.specs.Prelude.{◌≡◌, ◌+◌, ◌-◌, ◌/◌, ◌%◌, Some, None, pos, length, min, slice_index};
ghost use Rattle.lfs_format.specs.Indexes.{index_at};
ghost use Rattle.local_files.specs.Steps.{answered, device_at, piece, at_byte, named_device};
ghost use Rattle.local_files.specs.Takes.{reading_at, reading, walked, fetched, next_fetch, finished_read, finished_at, given_all, with_taken};

use crate::table::count;
use crate::{FileCall, FileDev, Files, OpenFile, Phase, Purpose};
use lfs_format::read_index;

impl Files {
    // A read begins: refused if the device has nothing open that may be read; -2 at the end.
    pub(crate) fn begin_read(&mut self, call: FileCall, d: FileDev, n: u32)
        ensures new { self.new ≡ reading_at (device_at self.old d) n call self.old }
    {
        match self.device(d) {
            None => self.answer_with(-1),
            Some(f) => self.read_from(f, n, call),
        }
    }

    fn read_from(&mut self, f: OpenFile, n: u32, call: FileCall)
        ensures new { self.new ≡ reading f n call self.old }
    {
        if !f.read {
            self.answer_with(-1);
        } else if n == 0 {
            self.answer_with(0);
        } else if f.position >= f.entry.size {
            self.answer_with(-2);
        } else {
            self.call = call;
            self.counters.position = f.position;
            self.counters.total = n.min(f.entry.size - f.position);
            self.counters.done = 0;
            self.go_on(Purpose::Walk {
                rest: f.position / 8192,
                index: f.entry.first,
            });
        }
    }

    // An index block is read.
    pub(crate) fn walked(&mut self, rest: u32, at: u32, read: &[u8; 512])
        ensures new { self.new ≡ walked rest (index_at (at % 7) read.now) self.old }
    {
        self.index = read_index(read, at as usize % 7);
        if rest == 0 {
            let block = self.index.blocks[self.at_byte() as usize / 512 % 16];
            self.go_on(Purpose::Fetch { block });
        } else {
            self.go_on(Purpose::Walk {
                rest: rest - 1,
                index: self.index.next,
            });
        }
    }

    // The data block is read: its bytes are taken.
    pub(crate) fn fetched(&mut self, read: &[u8; 512])
        ensures new { self.new ≡ fetched read.now self.old }
        ensures len { length read.now ≡ 512 }
    {
        self.take_piece(read);
        if self.counters.done >= self.counters.total {
            self.finish_read();
        } else {
            self.next_fetch();
        }
    }

    // Takes the bytes of a data block.
    fn take_piece(&mut self, read: &[u8; 512])
        ensures new { self.new ≡ with_taken read.now self.old }
    {
        let from = self.at_byte() as usize % 512;
        let many = self.piece();
        self.buffer
            .put(self.counters.done, &read[from..from + many as usize]);
        self.counters.done = self.counters.done.wrapping_add(many);
    }

    // Goes on to the next data block.
    fn next_fetch(&mut self)
        ensures new { self.new ≡ next_fetch self.old }
    {
        let q = self.at_byte();
        if q % 8192 == 0 {
            self.go_on(Purpose::Walk {
                rest: 0,
                index: self.index.next,
            });
        } else {
            let block = self.index.blocks[q as usize / 512 % 16];
            self.go_on(Purpose::Fetch { block });
        }
    }

    // All bytes are read: the position is after them.
    fn finish_read(&mut self)
        ensures new { self.new ≡ finished_read (named_device self.old.call) self.old }
    {
        match self.named() {
            None => self.answer_with(-1),
            Some(d) => self.finish_at(d),
        }
    }

    fn finish_at(&mut self, d: FileDev)
        ensures new { self.new ≡ finished_at d self.old }
    {
        let end = self.at_byte();
        self.move_to(d, end);
        self.give_all();
    }

    // All bytes are given.
    fn give_all(&mut self)
        ensures new { self.new ≡ given_all self.old }
    {
        if self.is_getc() {
            self.answer_byte();
        } else {
            self.give(count(self.counters.total));
        }
    }

    // The reply is the number of the bytes, and all of them are given.
    fn give(&mut self, reply: i32)
        ensures new { self.new ≡ record self.old { phase = Phase.Done reply; counters = record self.old.counters { given = self.old.counters.total } } }
    {
        self.phase = Phase::Done(reply);
        self.counters.given = self.counters.total;
    }

    // The first byte is the reply.
    fn answer_byte(&mut self)
        ensures new { self.new ≡ answered (pos (slice_index self.old.buffer 0)) self.old }
    {
        let byte = self.buffer.first_byte();
        self.answer_with(byte as i32);
    }
}
