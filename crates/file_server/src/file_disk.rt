//! A disk with the file engine that works on it: a call begins, and goes on at each good completion until it has its reply.

ghost use Rattle.std.specs.Prelude.{◌≡◌, ◌≤◌, ◌<◌, ◌/◌, ◌+◌, ◌-◌, ◌*◌, ℕ, List, Option, Some, None, IsSome, IsTrue, ◌↔◌, IfOk, MatchOption, is_some, length, map};
ghost use Rattle.std.specs.List.{list_any};
ghost use Rattle.file_laws.specs.StoredFiles.{stored_files};
ghost use Rattle.file_server.specs.DiskStates.{HasFewTurns, HeldCall, Waits, IsDone, IsFirstHeld, bytes_held};
ghost use Rattle.file_server.specs.OpenFiles.{place_of};
ghost use Rattle.given_disks.specs.HeldFiles.{HoldsFiles};
ghost use Rattle.lfs_check.specs.Disks.{block_put};
ghost use Rattle.lfs_layout.specs.Images.{IsCleanImage};
ghost use Rattle.local_files.specs.Bounds.{left};
ghost use Rattle.local_files.specs.Hands.{IsCall};
ghost use Rattle.local_files.specs.Resting.{ChangesOneBlock, IsOnDisk, OnlyReads};
ghost use Rattle.local_files.specs.Standing.{Stands, GoesTo, wanted, served, call_of, call_bytes, given_bytes};
ghost use Rattle.local_files.specs.Steps.{shown};
ghost use Rattle.xinu_base.specs.Constants.{SYSERR};
ghost use Rattle.xinu_model.specs.Files.Calls.{file_effect};
ghost use Rattle.xinu_model.specs.Files.Systems.{OpenFile, closed_system, open_at};
ghost use Rattle.xinu_model.specs.Files.Work.{FileWork, most_turns};

use crate::settled::{Written, note_write, settle};
use lfs_check::block_at;
use lfs_layout::CleanImage;
use local_files::{BlockWork, FileCall, Files};
use std::alloc::{AllocError, Global};
use std::marker::Model;
use xinu_base::NoMemory;

/// The engine, the bytes of the disk, and the disk as it was when the call in hand began.
pub(crate) struct FileDisk {
    files: Files,
    disk: Vec<u8>,
    settled: Vec<u8>,
    // The blocks in which these two may differ.
    written: Written,
}

impl Drop for FileDisk {
    fn drop(self) {
        let FileDisk {
            files: _files,
            disk: _disk,
            settled: _settled,
            written: _written,
        } = self;
    }
}

impl Model for FileDisk {
    ghost use Rattle.file_server.specs.DiskStates.{DiskState};
    ghost use Rattle.file_server.specs.FileDisks.{disk_state, IsFileDisk};

    ghost Value = { DiskState };

    ghost view = { disk_state };

    ghost invariant = { IsFileDisk };
}

impl FileDisk {
    // The disk of an image, with no file open and no call in hand.
    pub(crate) fn new(alloc: Global, image: CleanImage) -> Result<FileDisk, NoMemory>
        ensures system { IfOk result (λ d. d.system ≡ closed_system (length image / 512) (stored_files image)) }
        ensures idle { IfOk result (λ d. d.hand ≡ None) }
        ensures image { IfOk result (λ d. d.image ≡ image) }
    {
        let blocks = image.blocks();
        let disk = image.into_bytes();
        let files = Files::new(alloc, blocks)?;
        let settled = copy_of(alloc, &disk)?;
        let written = Written::new();
        Ok(FileDisk {
            files,
            disk,
            settled,
            written,
        })
    }

    // Whether another disk has the same files, the same of them open, and the same bytes.
    pub(crate) fn has_same_files(&self, other: &Self) -> bool
        requires idle { self.now.hand ≡ None }
        requires other_idle { other.now.hand ≡ None }
        ensures equal { IsTrue result ↔ ((self.now.system ≡ other.now.system) × (self.now.image ≡ other.now.image)) }
    {
        self.files.has_same_open(&other.files) && self.disk.as_slice() == other.disk.as_slice()
    }

    // Begins a call: it has its reply, or it waits for a block.
    pub(crate) fn begin(&mut self, call: FileCall, bytes: &[u8]) -> Option<i32>
        requires idle { self.old.hand ≡ None }
        requires call { IsCall call }
        requires bytes { length bytes.now ≤ 1048576 }
        ensures goes { MatchOption result
            (Waits (call_of call (given_bytes call bytes.now)) (given_bytes call bytes.now) (most_turns (call_of call (given_bytes call bytes.now)) self.old.system) self.old self.new)
            (λ reply. IsDone (call_of call (given_bytes call bytes.now)) (given_bytes call bytes.now) reply self.old self.new) }
        ensures image { self.new.image ≡ self.old.image }
    {
        self.files.begin(call, bytes);
        self.files.has_a_completion_left();
        self.files.answer()
    }

    // One good completion of the call that waits: it has its reply, or it waits on, with fewer completions left. One that will be refused, or that
    // writes no file, leaves the disk as it is.
    pub(crate) fn complete(&mut self) -> Option<i32>
        requires busy { IsSome self.old.hand }
        ensures goes { (h : HeldCall) → self.old.hand ≡ Some h → MatchOption result
            (Waits h.call h.bytes (h.left - 1) self.old self.new) (λ reply. IsDone h.call h.bytes reply self.old self.new) }
        ensures image { ChangesOneBlock self.old.image self.new.image }
        ensures still { (h : HeldCall) → self.old.hand ≡ Some h → (file_effect h.call h.bytes self.old.system).reply ≡ SYSERR → self.new.image ≡ self.old.image }
        ensures reads { (h : HeldCall) → self.old.hand ≡ Some h → OnlyReads h.call self.old.system → self.new.image ≡ self.old.image }
    {
        self.files.wants_a_block_of_the_disk();
        self.files.changes_one_block();
        self.files.leaves_the_disk_if_refused();
        self.files.leaves_the_disk_if_it_reads();
        note_write(&mut self.written, &self.files);
        serve(&mut self.files, &mut self.disk);
        self.files.has_a_completion_left();
        match self.files.answer() {
            None => None,
            Some(reply) => {
                settle(&mut self.settled, &self.disk, &mut self.written);
                Some(reply)
            }
        }
    }

    // The bytes that the call that has its reply has given.
    pub(crate) fn given(&self) -> &[u8]
        ensures bytes { result.now ≡ self.now.given }
    {
        self.files.gathered()
    }

    // The bytes of the write that waits; none if no write does.
    pub(crate) fn held_bytes(&self) -> &[u8]
        ensures bytes { result.now ≡ bytes_held self.now.hand }
    {
        if self.files.wants().is_some() {
            self.files.call_bytes()
        } else {
            &[]
        }
    }

    // The disk as it was when the call in hand began.
    pub(crate) fn settled(&self) -> &[u8]
        ensures files { stored_files result.now ≡ self.now.system.files }
        ensures clean { IsCleanImage result.now }
        ensures blocks { length result.now ≡ 512 * self.now.system.blocks }
    {
        &self.settled
    }

    // What each device has open.
    pub(crate) fn devices(&self) -> &[Option<local_files::OpenFile>; 6]
        ensures devices { map shown result.now ≡ self.now.system.devices }
    {
        &self.files.devices
    }

    // The bytes of the disk.
    pub(crate) fn bytes(&self) -> &[u8]
        ensures bytes { result.now ≡ self.now.image }
    {
        &self.disk
    }

    // The position and the size of the file that a device has open.
    pub(crate) fn open_file(&self, d: usize) -> Option<(u32, u32)>
        requires below { d < 6 }
        ensures place { result ≡ place_of (open_at self.now.system d) self.now.system }
    {
        match self.files.devices[d] {
            None => None,
            Some(f) => Some((f.position, f.entry.size)),
        }
    }

    // Whether a device has a file open.
    pub(crate) fn has_open(&self) -> bool
        ensures any { result ≡ list_any (λ (x : Option OpenFile). is_some x) self.now.system.devices }
    {
        self.files.open_count() > 0
    }

    // The disk holds the files that are at rest, and is clean for its files if no call is under way. So few are they that a call has fewer
    // turns than a word counts.
    pub(crate) fn holds_files(&self)
        ensures holds { (w : FileWork) → w.system ≡ self.now.system → IsFirstHeld self.now.hand w.calls → HoldsFiles self.now.image w }
        ensures few { HasFewTurns self.now.system }
    {
        self.files.holds_files_at_rest();
    }
}

impl Clone for FileDisk {
    ghost is_clone = { λ v w. w ≡ v };

    fn clone(&self) -> Result<Self, AllocError> {
        let files = self.files.clone()?;
        let disk = Vec::from_slice(*self.disk.allocator(), &self.disk)?;
        let settled = Vec::from_slice(*self.settled.allocator(), &self.settled)?;
        let written = self.written.clone()?;
        Ok(FileDisk {
            files,
            disk,
            settled,
            written,
        })
    }
}

// Carries out the work that the engine wants.
fn serve(files: &mut Files, disk: &mut [u8])
    requires wants { IsSome (wanted files.old) }
    requires blocks { length disk.old ≡ 512 * files.old.blocks }
    requires outgoing { length files.old.block ≡ 512 }
    requires within { IsOnDisk (wanted files.old) files.old.blocks }
    ensures disk { disk.new ≡ served files.old disk.old }
    ensures len { length disk.new ≡ length disk.old }
    ensures goes { (base : List ℕ) → Stands files.old base disk.old
        → GoesTo files.new.phase files.old.call (call_bytes files.old) files.old files.new base disk.new }
    ensures less { (base : List ℕ) → Stands files.old base disk.old → left files.new base < left files.old base }
{
    match files.wants() {
        None => unreachable!(),
        Some(BlockWork::Read(n)) => {
            let block = block_at(disk, n);
            files.completed(&block);
        }
        Some(BlockWork::Write(n)) => {
            let block = *files.outgoing();
            put_block(disk, n, &block);
            files.completed(&block);
        }
    }
}

// Writes a block of a disk.
fn put_block(disk: &mut [u8], n: u32, block: &[u8; 512])
    requires within { 512 * n + 512 ≤ length disk.old }
    ensures block { disk.new ≡ block_put disk.old n block.now }
    ensures len { length disk.new ≡ length disk.old }
{
    let at = 512 * n as usize;
    disk[at..at + 512].copy_from_slice(block);
}

// A copy of some bytes.
fn copy_of(alloc: Global, bytes: &[u8]) -> Result<Vec<u8>, NoMemory>
    ensures same { IfOk result (λ copy. copy.items ≡ bytes.now) }
{
    match vec![in alloc; 0u8; bytes.len()] {
        Ok(mut copy) => {
            copy.copy_from_slice(bytes);
            Ok(copy)
        }
        Err(_) => Err(NoMemory),
    }
}
