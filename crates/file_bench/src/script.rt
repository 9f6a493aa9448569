//! Scripts of calls that are drawn one after another.
//!
//! The numbers come from the linear congruential generator `x = 1664525 * x + 1013904223 (mod 2^32)` of Press and others, *Numerical
//! Recipes*, of which the upper 16 bits are taken. Equal seeds give equal scripts.

ghost use Rattle.std.specs.Prelude.{◌<◌, ◌≤◌, length, IfOk};

use crate::plain_files::PlainFiles;
use local_files::{FileCall, FileDev};
use std::alloc::{AllocError, Global};
use xinu_base::OpenMode;

/// How many names of files a script has, and the most bytes that it reads or writes at once.
#[derive(Clone, Copy)]
pub(crate) struct Sizes {
    pub(crate) names: u32,
    pub(crate) longest: u32,
}

/// A script of calls.
#[derive(Clone, Copy)]
pub(crate) struct Script {
    x: u32,
    sizes: Sizes,
}

impl Script {
    /// The script of a seed.
    pub(crate) fn new(seed: u32, sizes: Sizes) -> Script {
        Script { x: seed, sizes }
    }

    // A number below `m`, which is at most 65536.
    fn draw(&mut self, m: u32) -> u32
        requires some { 0 < m }
        ensures below { result < m }
    {
        self.x = self.x.wrapping_mul(1_664_525).wrapping_add(1_013_904_223);
        self.x / 65_536 % m
    }

    // A number below `m`.
    fn draw_wide(&mut self, m: u32) -> u32
        requires some { 0 < m }
        ensures below { result < m }
    {
        let high = self.draw(65_536);
        let low = self.draw(65_536);
        high.wrapping_mul(65_536).wrapping_add(low) % m
    }

    // A file device.
    fn device(&mut self) -> FileDev {
        let w = self.draw(6);
        match FileDev::from_word(w) {
            Some(d) => d,
            None => unreachable!(),
        }
    }

    // One of the names: no two have both length and letter in common.
    fn name(&mut self) -> [u8; 28] {
        let k = self.draw(self.sizes.names.clamp(1, 100));
        let len = 1 + k as usize % 27;
        let mut name = [0u8; 28];
        for j in 0..len {
            name[j] = b'a' + (k / 27) as u8;
        }
        name
    }

    // A mode: half of them allow both reading and writing an old or a new file.
    fn mode(&mut self) -> OpenMode {
        let k = self.draw(12);
        OpenMode {
            read: k <= 6 || k == 8,
            write: k <= 5 || k == 7,
            only_old: k == 8 || k == 9,
            only_new: k == 10,
        }
    }

    // A number of bytes: few, up to some blocks, or many.
    fn count(&mut self) -> u32
        ensures most { result ≤ 1048576 }
    {
        let longest = self.sizes.longest.min(1_048_576);
        let k = self.draw(8);
        let most = if k == 0 {
            3
        } else if k <= 4 {
            longest.min(1200)
        } else if k <= 6 {
            longest / 8
        } else {
            longest
        };
        self.draw_wide(1 + most)
    }

    // A position up to one past a size, or now and then -1.
    fn position(&mut self, size: usize) -> i32 {
        if self.draw(16) == 0 {
            return -1;
        }
        let most = size.min(1_073_741_824) as u32;
        self.draw_wide(most + 2) as i32
    }

    /// The next call. A seek goes by the sizes of the files.
    pub(crate) fn next_call(&mut self, plain: &PlainFiles) -> FileCall {
        let kind = self.draw(20);
        if kind <= 4 {
            self.next_by_name(kind)
        } else {
            self.next_by_device(kind, plain)
        }
    }

    // The next call that names a file.
    fn next_by_name(&mut self, kind: u32) -> FileCall {
        let name = self.name();
        if kind == 0 {
            FileCall::Delete(name)
        } else {
            FileCall::Open(name, self.mode())
        }
    }

    // The next call on a device.
    fn next_by_device(&mut self, kind: u32, plain: &PlainFiles) -> FileCall {
        let d = self.device();
        match kind {
            5 | 6 => FileCall::Close(d),
            7 | 8 => FileCall::Read(d, self.count()),
            9 => FileCall::Getc(d),
            10 | 11 => FileCall::Putc(d, self.draw(256) as u8),
            12 | 13 => FileCall::Seek(d, self.position(plain.size_at(d))),
            14 => FileCall::Truncate(d),
            15 => FileCall::Size(d),
            _ => FileCall::Write(d),
        }
    }

    /// The bytes that a call puts: some if it is a write.
    ///
    /// # Errors
    ///
    /// Out of memory.
    pub(crate) fn bytes(&mut self, alloc: Global, call: &FileCall) -> Result<Vec<u8>, AllocError>
        ensures most { IfOk result (λ v. length v.items ≤ 1048576) }
    {
        let n = if matches!(*call, FileCall::Write(_)) {
            self.count() as usize
        } else {
            0
        };
        let mut bytes = vec![in alloc; 0u8; n]?;
        for j in 0..n {
            bytes[j] = self.draw(256) as u8;
        }
        Ok(bytes)
    }
}
