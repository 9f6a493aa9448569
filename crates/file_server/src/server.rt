//! The calls on files under way: they are made, completed, and given up.

ghost use Rattle.file_laws.specs.StoredFiles.{stored_files};
ghost use Rattle.file_server.specs.OpenFiles.{place_of};
ghost use Rattle.file_server.specs.Requests.{AreRequests, IsRequest, note_of, request_of};
ghost use Rattle.file_server.specs.ServerStates.{IsCompleted, IsIssued};
ghost use Rattle.given_disks.specs.HeldFiles.{HoldsFiles};
ghost use Rattle.lfs_layout.specs.Images.{IsCleanImage};
ghost use Rattle.local_files.specs.Resting.{ServesDisk};
ghost use Rattle.local_files.specs.Steps.{shown};
ghost use Rattle.std.specs.Prelude.{◌≡◌, ◌<◌, ◌≤◌, ◌*◌, ◌/◌, ◌↔◌, [], ◌∷◌, IsTrue, IfOk, MatchOption, false, true, length, map};
ghost use Rattle.xinu_base.specs.declared.lines.FileMoment.TheVariants.{Finished};
ghost use Rattle.xinu_model.specs.Files.Rest.{are_calls, is_busy};
ghost use Rattle.xinu_model.specs.Files.Systems.{closed_system, open_at};
ghost use Rattle.xinu_model.specs.Files.Work.{FileStep, calls_given_up, took_effect};

use crate::file_disk::FileDisk;
use crate::requests::{FileNote, FileNotes, FileRequest, Requests, keep};
use crate::starting::{begin_next, bytes_of, hand_over, take_effect};
use lfs_layout::CleanImage;
use local_files::OpenFile;
use rv_hart::Ram;
use std::alloc::{AllocError, Global};
use std::marker::Model;
use xinu_base::{FileMoment, NoMemory, Pid};

/// The calls on files under way, and the disk.
pub struct FileServer {
    disk: FileDisk,
    // The calls in their order; the first has begun, and waits for a block.
    requests: Requests,
    // How many good completions the first has had.
    turns: u32,
}

impl Drop for FileServer {
    fn drop(self) {
        let FileServer {
            disk: _disk,
            requests: _requests,
            turns: _turns,
        } = self;
    }
}

impl Model for FileServer {
    ghost use Rattle.file_server.specs.ServerStates.{ServerState};
    ghost use Rattle.file_server.specs.Servers.{IsServer, server_state};

    ghost Value = { ServerState };

    ghost view = { server_state };

    ghost invariant = { IsServer };
}

impl FileServer {
    /// The disk of an image, with no file open and no call under way. It takes all the memory that it ever has: a buffer of 1 MiB for
    /// the bytes of a call, and a copy of the disk.
    ///
    /// # Errors
    ///
    /// Out of memory.
    pub fn new(alloc: Global, image: CleanImage) -> Result<FileServer, NoMemory>
        ensures starts { IfOk result (λ s. s.work ≡ record { system = closed_system (length image / 512) (stored_files image); calls = []; turns = 0; bytes = [] }) }
        ensures image { IfOk result (λ s. s.image ≡ image) }
    {
        let disk = FileDisk::new(alloc, image)?;
        Ok(FileServer {
            disk,
            requests: Requests::new(),
            turns: 0,
        })
    }

    /// Whether another server is equal and no call is under way.
    pub fn equals(&self, other: &Self) -> bool
        ensures equal { IsTrue result ↔ ((are_calls self.now.work.calls ≡ false) × (self.now ≡ other.now)) }
    {
        self.requests.is_empty()
            && other.requests.is_empty()
            && self.disk.has_same_files(&other.disk)
    }

    /// The bytes of the disk.
    pub fn bytes(&self) -> &[u8]
        ensures bytes { result.now ≡ self.now.image }
    {
        self.disk.bytes()
    }

    /// Whether a call is under way.
    pub fn are_calls(&self) -> bool
        ensures calls { result ≡ are_calls self.now.work.calls }
    {
        !self.requests.is_empty()
    }

    /// The position and the size of the file that a device has open. The six file devices are counted from the first, which is 0.
    pub fn open_file(&self, d: usize) -> Option<(u32, u32)>
        requires below { d < 6 }
        ensures place { result ≡ place_of (open_at self.now.work.system d) self.now.work.system }
    {
        self.disk.open_file(d)
    }

    /// Whether a file is open or a call is under way.
    pub fn is_busy(&self) -> bool
        ensures busy { result ≡ is_busy self.now.work }
    {
        self.disk.has_open() || self.are_calls()
    }

    /// How many calls are under way: at most 64.
    pub fn pending(&self) -> usize
        ensures pending { result ≡ length self.now.work.calls }
        ensures most { result ≤ 64 }
    {
        self.requests.len()
    }

    /// The calls under way, in the order in which they were made.
    pub fn calls(&self) -> &[FileRequest]
        ensures calls { map request_of result.now ≡ self.now.work.calls }
        ensures requests { AreRequests result.now }
    {
        self.requests.as_slice()
    }

    /// The bytes that the first call writes, as they were in RAM when it became the first; none if it is no write, or there is no call.
    pub fn first_bytes(&self) -> &[u8]
        ensures bytes { result.now ≡ self.now.work.bytes }
    {
        self.disk.held_bytes()
    }

    /// The disk as it was when the first call began: it holds the files of the file system.
    pub fn settled(&self) -> &[u8]
        ensures files { stored_files result.now ≡ self.now.work.system.files }
        ensures clean { IsCleanImage result.now }
        ensures blocks { length result.now ≡ 512 * self.now.work.system.blocks }
    {
        self.disk.settled()
    }

    /// What each file device has open, with its entry of the settled disk.
    pub fn devices(&self) -> &[Option<OpenFile>; 6]
        ensures devices { map shown result.now ≡ self.now.work.system.devices }
    {
        self.disk.devices()
    }

    /// A call is made, with bytes in RAM. It has its reply at once, and a read's bytes are in RAM, if no call was under way and it needs no
    /// block. Else it is under way after the others. The disk stays.
    ///
    /// Fewer than 64 calls must be under way. A name must be one that a file can have, and the bytes that are read or written must lie in
    /// RAM.
    pub fn issue(&mut self, r: FileRequest, ram: &mut Ram) -> Option<i32>
        requires room { length self.old.work.calls < 64 }
        requires request { IsRequest r }
        ensures issued { MatchOption result
            (let after : FileStep = record { work = self.new.work; memory = ram.new; notes = [] } in IsIssued 0 (request_of r) ram.old self.old.work after)
            (λ reply. (let after : FileStep = record { work = self.new.work; memory = ram.new; notes = took_effect (request_of r) Finished reply ∷ [] } in
            IsIssued 1 (request_of r) ram.old self.old.work after)) }
        ensures image { self.new.image ≡ self.old.image }
    {
        if !self.requests.is_empty() {
            self.requests.push(r);
            return None;
        }
        let Some(reply) = self.disk.begin(r.call, bytes_of(&r, ram)) else {
            self.requests.push(r);
            return None;
        };
        hand_over(ram, r.caller, r.at, self.disk.given());
        Some(reply)
    }

    /// One good completion of the disk. The first call has its reply, or a turn. Once it has its reply, the next becomes the first, with the
    /// bytes that are in RAM then, and so on as long as one needs no block. Tells what happened, in order.
    ///
    /// A call must be under way. At most one block of the disk changes, and none while the first call is one that will be refused or
    /// writes no file.
    pub fn complete(&mut self, ram: &mut Ram) -> FileNotes
        requires busy { are_calls self.old.work.calls ≡ true }
        ensures completed { (let after : FileStep = record { work = self.new.work; memory = ram.new; notes = map note_of result.items } in
            IsCompleted self.old.work ram.old after) }
        ensures image { ServesDisk self.old.work self.old.image self.new.image }
    {
        let mut notes = FileNotes::new();
        let first = self.requests.as_slice()[0];
        self.disk.holds_files();
        let Some(reply) = self.disk.complete() else {
            self.turns += 1;
            notes.push(FileNote {
                caller: first.caller,
                moment: FileMoment::Turn,
                reply: None,
            });
            return notes;
        };
        take_effect(
            &first,
            &self.disk,
            ram,
            &mut notes,
            FileMoment::Finished,
            reply,
        );
        self.requests.pop_at(0);
        self.turns = 0;
        begin_next(&mut self.disk, &mut self.requests, ram, &mut notes);
        notes
    }

    /// Gives up what `p` asked for, once it was killed: the first call goes on without its caller, and the others are taken out. The disk
    /// stays.
    pub fn forget(&mut self, p: Pid)
        ensures forgets { self.new.work ≡ calls_given_up p self.old.work }
        ensures image { self.new.image ≡ self.old.image }
    {
        let mut kept = Requests::new();
        for r in self.requests.as_slice() {
            keep(&mut kept, *r, p);
        }
        self.requests = kept;
    }

    /// A law: the disk holds the files at rest, and if no call is under way it is clean for exactly its files.
    pub fn holds(&self)
        ensures holds { HoldsFiles self.now.image self.now.work }
    {
        self.disk.holds_files();
    }
}

impl Clone for FileServer {
    ghost is_clone = { λ v w. w ≡ v };

    fn clone(&self) -> Result<Self, AllocError> {
        let disk = self.disk.clone()?;
        let requests = self.requests.clone()?;
        Ok(FileServer {
            disk,
            requests,
            turns: self.turns,
        })
    }
}
