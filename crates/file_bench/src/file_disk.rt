//! A file engine with its disk, on which each completion is an honest one.

ghost use Rattle.std.specs.Prelude.{◌≡◌, ◌≤◌, ◌+◌, ◌*◌, ℕ, List, true, length, Some};
ghost use Rattle.lfs_check.specs.Disks.{block_put};
ghost use Rattle.local_files.specs.Standing.{Stands, GoesTo, wanted, call_bytes};
ghost use Rattle.file_bench.specs.Honest.{IsWithin};

use crate::trouble::Trouble;
use lfs_check::block_at;
use lfs_layout::CleanImage;
use local_files::{BlockWork, FileCall, FileDev, Files, Phase, is_call};
use std::alloc::Global;

/// A file engine and the bytes of its disk.
pub(crate) struct FileDisk {
    /// The engine.
    pub(crate) files: Files,
    /// The bytes of the disk.
    pub(crate) disk: Vec<u8>,
}

impl Drop for FileDisk {
    fn drop(self) {
        let FileDisk {
            files: _files,
            disk: _disk,
        } = self;
    }
}

impl FileDisk {
    /// An engine with an empty disk of so many blocks.
    ///
    /// # Errors
    ///
    /// `Stuck` if there is no disk of so many blocks; `NoMemory` out of memory.
    pub(crate) fn empty(alloc: Global, blocks: u32) -> Result<FileDisk, Trouble> {
        if blocks < 14 || blocks > 65_542 {
            return Err(Trouble::Stuck);
        }
        match (Files::new(alloc, blocks), CleanImage::empty(alloc, blocks)) {
            (Ok(files), Ok(image)) => Ok(FileDisk {
                files,
                disk: image.into_bytes(),
            }),
            _ => Err(Trouble::NoMemory),
        }
    }

    /// The bytes of the disk.
    pub(crate) fn disk(&self) -> &[u8] {
        &self.disk
    }

    /// Begins a call, if none is in hand, and it can be one; answers whether it did. `bytes` are those that a write puts.
    pub(crate) fn begin(&mut self, call: &FileCall, bytes: &[u8]) -> bool {
        if bytes.len() > 1_048_576 || !is_call(call) || !matches!(self.files.phase, Phase::Idle) {
            return false;
        }
        self.files.begin(*call, bytes);
        true
    }

    /// Carries out the work that the engine wants. Answers whether it wants some, and on a block of the disk.
    pub(crate) fn complete(&mut self) -> bool
        ensures goes { result ≡ true → (base : List ℕ) → Stands self.old.files base self.old.disk.items
            → GoesTo self.new.files.phase self.old.files.call (call_bytes self.old.files) self.old.files self.new.files base
            self.new.disk.items }
    {
        match self.files.wants() {
            None => false,
            Some(work) => {
                if !is_within(work, &self.disk) {
                    return false;
                }
                serve(&mut self.files, &mut self.disk, work);
                true
            }
        }
    }

    /// The reply of the call in hand, once it stands.
    pub(crate) fn answer(&mut self) -> Option<i32> {
        self.files.answer()
    }

    /// The bytes that a read that is done has given.
    pub(crate) fn gathered(&self) -> &[u8] {
        self.files.gathered()
    }

    /// The position of a device, if it has a file open.
    pub(crate) fn position(&self, d: FileDev) -> Option<u32> {
        self.files.position(d)
    }

    /// How many devices have a file open.
    pub(crate) fn open_count(&self) -> u32 {
        self.files.open_count()
    }
}

// Carries out the work that the engine wants.
fn serve(files: &mut Files, disk: &mut [u8], work: BlockWork)
    requires wants { wanted files.old ≡ Some work }
    requires within { IsWithin work disk.old }
    ensures len { length disk.new ≡ length disk.old }
    ensures goes { (base : List ℕ) → Stands files.old base disk.old
        → GoesTo files.new.phase files.old.call (call_bytes files.old) files.old files.new base disk.new }
{
    match work {
        BlockWork::Read(n) => {
            let block = block_at(disk, n);
            files.completed(&block);
        }
        BlockWork::Write(n) => {
            let block = *files.outgoing();
            put_block(disk, n, &block);
            files.completed(&block);
        }
    }
}

// Whether the block that is to be read or written is on a disk.
fn is_within(work: BlockWork, disk: &[u8]) -> bool
    ensures { result ≡ true → IsWithin work disk.now }
{
    match work {
        BlockWork::Read(n) => (n as usize) < disk.len() / 512,
        BlockWork::Write(n) => (n as usize) < disk.len() / 512,
    }
}

// Writes a block of a disk.
fn put_block(disk: &mut [u8], n: u32, block: &[u8; 512])
    requires within { 512 * n + 512 ≤ length disk.old }
    ensures block { disk.new ≡ block_put disk.old n block.now }
    ensures len { length disk.new ≡ length disk.old }
{
    let at = 512 * n as usize;
    disk[at..at + 512].copy_from_slice(block);
}
