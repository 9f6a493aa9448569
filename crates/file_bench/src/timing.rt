//! Calls on one file, which are counted.

use crate::file_disk::FileDisk;
use crate::names::padded;
use local_files::{FileCall, FileDev};
use std::alloc::Global;
use xinu_base::OpenMode;

/// An engine with a disk, on which one device has a file open.
pub(crate) struct OneFile {
    disk: FileDisk,
    bytes: Vec<u8>,
    /// How many completions there were.
    pub(crate) completions: u32,
}

impl Drop for OneFile {
    fn drop(self) {
        let OneFile {
            disk: _disk,
            bytes: _bytes,
            completions: _completions,
        } = self;
    }
}

/// A call on the file: at a position, or on the whole of it.
#[derive(Clone, Copy)]
pub(crate) enum Kind {
    Open,
    Close,
    Delete,
    Seek(u32),
    Getc,
    Read(u32),
    Putc,
    Write(u32),
    Truncate,
}

const BOTH: OpenMode = OpenMode {
    read: false,
    write: false,
    only_old: false,
    only_new: false,
};

impl OneFile {
    /// An empty disk of so many blocks; `None` if there is none, or out of memory.
    pub(crate) fn new(alloc: Global, blocks: u32) -> Option<OneFile> {
        match (
            FileDisk::empty(alloc, blocks),
            vec![in alloc; 7u8; 1_048_576],
        ) {
            (Ok(disk), Ok(bytes)) => Some(OneFile {
                disk,
                bytes,
                completions: 0,
            }),
            _ => None,
        }
    }

    /// Makes a call. Answers whether it isn't refused.
    pub(crate) fn call(&mut self, kind: Kind) -> bool {
        let n = match kind {
            Kind::Write(n) => (n as usize).min(self.bytes.len()),
            _ => 0,
        };
        let Some(d) = FileDev::from_word(0) else {
            return false;
        };
        self.disk.begin(&call_of(kind, d), &self.bytes[..n]) && self.is_answered()
    }

    // Carries out what the engine wants until the call is done. Answers whether it isn't refused.
    fn is_answered(&mut self) -> bool {
        for _ in 0..1_000_000 {
            if let Some(reply) = self.disk.answer() {
                return reply >= 0;
            }
            if !self.disk.complete() {
                return false;
            }
            self.completions = self.completions.wrapping_add(1);
        }
        false
    }

    /// Writes so many bytes at the position.
    pub(crate) fn fill(&mut self, size: u32) -> bool {
        for _ in 0..size / 1_048_576 {
            if !self.call(Kind::Write(1_048_576)) {
                return false;
            }
        }
        self.call(Kind::Write(size % 1_048_576))
    }
}

// The call of a kind on a device.
fn call_of(kind: Kind, d: FileDev) -> FileCall {
    match kind {
        Kind::Open => FileCall::Open(padded(b"file"), BOTH),
        Kind::Close => FileCall::Close(d),
        Kind::Delete => FileCall::Delete(padded(b"file")),
        Kind::Seek(at) => FileCall::Seek(d, at.min(1_073_741_824) as i32),
        Kind::Getc => FileCall::Getc(d),
        Kind::Read(n) => FileCall::Read(d, n),
        Kind::Putc => FileCall::Putc(d, 7),
        Kind::Write(_) => FileCall::Write(d),
        Kind::Truncate => FileCall::Truncate(d),
    }
}
