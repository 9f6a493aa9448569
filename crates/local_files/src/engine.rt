//! The engine's calls.

ghost use Rattle.std.specs.Prelude.{◌≡◌, ◌*◌, ◌<◌, ◌≤◌, ℕ, List, Some, None, IsSome, IfOk, length, replicate};
ghost use Rattle.local_files.specs.Standing.{call_of, Stands, GoesTo, IsHonest, wanted, served, call_bytes, given_bytes, gathered, reply_in, taken_in};
ghost use Rattle.local_files.specs.Hands.{IsCall, system};
ghost use Rattle.local_files.specs.Steps.{device_at};
ghost use Rattle.local_files.specs.Bounds.{left};
ghost use Rattle.xinu_model.specs.Files.Work.{most_turns};
ghost use Rattle.lfs_layout.specs.Images.{IsCleanImage};

use crate::{BlockWork, Buffer, Counters, FileCall, Files, Phase, Purpose};
use lfs_check::Header;
use lfs_format::{Entry, Index};
use std::alloc::Global;
use xinu_base::NoMemory;

impl Files {
    /// An engine for a disk of so many blocks, with no file open: it stands for any clean disk of that size. It takes a buffer of 1 MiB,
    /// which is all the memory that it ever has. Of the other calls only a copy takes memory.
    ///
    /// # Errors
    ///
    /// Out of memory.
    pub fn new(alloc: Global, blocks: u32) -> Result<Files, NoMemory>
        ensures stands { (disk : List ℕ) → IsCleanImage disk → length disk ≡ 512 * blocks → IfOk result (λ e. Stands e disk disk) }
        ensures idle { IfOk result (λ e. e.phase ≡ Phase.Idle) }
        ensures closed { IfOk result (λ e. e.devices ≡ replicate 6 None) }
    {
        let buffer = Buffer::new(alloc)?;
        Ok(Files {
            blocks,
            devices: [None; 6],
            phase: Phase::Idle,
            call: FileCall::Delete([0; 28]),
            slot: 0,
            entry: Entry {
                size: 0,
                first: 0,
                name: [0; 28],
            },
            header: Header {
                free_data: 0,
                free_index: 0,
                files: 0,
            },
            block: [0; 512],
            index: Index {
                next: 0,
                offset: 0,
                blocks: [0; 16],
            },
            at: 0,
            reached: 0,
            freed: 0,
            counters: Counters {
                position: 0,
                total: 0,
                done: 0,
                given: 0,
            },
            buffer,
        })
    }

    /// With no file open and no call in hand the engine stands for any clean disk of its number of blocks: nothing that it read
    /// or wrote is kept.
    pub fn stands_for_any(&self)
        requires idle { self.now.phase ≡ Phase.Idle }
        ensures stands { (old disk : List ℕ) → Stands self.now old old → ((d : ℕ) → device_at self.now d ≡ None) → IsCleanImage disk
            → length disk ≡ 512 * self.now.blocks → Stands self.now disk disk }
    {}

    /// Begins a call. `bytes` are those that a write puts.
    ///
    /// No call may be in hand, the call must be one that can be made ([`is_call`](crate::is_call)), and there may be at most 1 MiB of
    /// bytes. Then the call is in hand and wants a block, or it is done as the abstract machine's call is. It has at most as many
    /// completions left as the abstract machine allows it.
    pub fn begin(&mut self, call: FileCall, bytes: &[u8])
        requires idle { self.old.phase ≡ Phase.Idle }
        requires call { IsCall call }
        requires bytes { length bytes.now ≤ 1048576 }
        ensures goes { (disk : List ℕ) → Stands self.old disk disk
            → GoesTo self.new.phase call (given_bytes call bytes.now) self.old self.new disk disk }
        ensures bound { (disk : List ℕ) → Stands self.old disk disk
            → left self.new disk ≤ most_turns (call_of call (given_bytes call bytes.now)) (system self.old disk) }
    {
        match call {
            FileCall::Open(name, _) => self.begin_open(call, &name),
            FileCall::Delete(name) => self.begin_delete(call, &name),
            FileCall::Close(d) => self.close(d),
            FileCall::Read(d, n) => self.begin_read(call, d, n),
            FileCall::Write(d) => self.begin_write(call, d, bytes),
            FileCall::Getc(d) => self.begin_read(call, d, 1),
            FileCall::Putc(d, b) => self.begin_write(call, d, &[b]),
            FileCall::Seek(d, n) => self.seek(d, n),
            FileCall::Truncate(d) => self.begin_truncate(call, d),
            FileCall::Size(d) => self.size(d),
        }
    }

    /// The work that is wanted: the block that is to be read, or to be written with the bytes of [`Files::outgoing`]. `None` if and only if
    /// the engine waits for no block, since no call is in hand or the one in hand is done.
    pub fn wants(&self) -> Option<BlockWork>
        ensures { result ≡ wanted self.now }
    {
        match self.phase {
            Phase::Idle | Phase::Done(_) => None,
            Phase::Wants(purpose) => Some(self.block_for(purpose)),
        }
    }

    /// The bytes of the block that is to be written.
    pub fn outgoing(&self) -> &[u8; 512]
        ensures block { result.now ≡ self.now.block }
        ensures len { length self.now.block ≡ 512 }
    {
        &self.block
    }

    /// The reply of a call that is done, after which none is in hand. `None` if and only if no call is done, and then nothing changes.
    pub fn answer(&mut self) -> Option<i32>
        ensures reply { result ≡ reply_in self.old.phase }
        ensures new { self.new ≡ taken_in self.old.phase self.old }
    {
        match self.phase {
            Phase::Done(reply) => {
                self.phase = Phase::Idle;
                Some(reply)
            }
            _ => None,
        }
    }

    /// The bytes that the call in hand writes; none if it is no write.
    pub fn call_bytes(&self) -> &[u8]
        ensures bytes { result.now ≡ call_bytes self.now }
    {
        match self.call {
            FileCall::Write(_) => self.buffer.first(self.counters.total),
            _ => &[],
        }
    }

    /// The bytes that a read that is done has given.
    pub fn gathered(&self) -> &[u8]
        ensures bytes { result.now ≡ gathered self.now }
    {
        self.buffer.first(self.counters.given)
    }

    /// One good completion: the block that is wanted was read, with these bytes, or was written. A block must be wanted.
    ///
    /// Then the call goes on, and the files stand as before it; or it is done as the abstract machine's call is, with its reply, its bytes
    /// and its files. Fewer completions are left.
    pub fn completed(&mut self, read: &[u8; 512])
        requires wants { IsSome (wanted self.old) }
        ensures goes { (base disk : List ℕ) → Stands self.old base disk → IsHonest self.old read.now disk
            → GoesTo self.new.phase self.old.call (call_bytes self.old) self.old self.new base (served self.old disk) }
        ensures less { (base disk : List ℕ) → Stands self.old base disk → IsHonest self.old read.now disk
            → left self.new base < left self.old base }
    {
        match self.phase {
            Phase::Idle | Phase::Done(_) => {}
            Phase::Wants(purpose) => self.serve(purpose, read),
        }
    }

    // The block that is wanted for a purpose is read or written.
    fn serve(&mut self, purpose: Purpose, read: &[u8; 512])
        requires phase { self.old.phase ≡ Phase.Wants purpose }
        ensures goes { (base disk : List ℕ) → Stands self.old base disk → IsHonest self.old read.now disk
            → GoesTo self.new.phase self.old.call (call_bytes self.old) self.old self.new base (served self.old disk) }
        ensures less { (base disk : List ℕ) → Stands self.old base disk → IsHonest self.old read.now disk
            → left self.new base < left self.old base }
    {
        match purpose {
            Purpose::Search { block } => self.search(block, read),
            Purpose::Walk { rest, index } => self.walked(rest, index, read),
            Purpose::Fetch { .. } => self.fetched(read),
            Purpose::Counts => self.counts_read(read),
            Purpose::Reach { rest, index } => self.reached(rest, index, read),
            Purpose::PatchRead { block } => self.patch_read(block, read),
            Purpose::PatchWrite { .. } => self.piece_written(),
            Purpose::TakeRead { block } => self.take_read(block, read),
            Purpose::TakeWrite { block } => self.take_written(block),
            Purpose::AddRead { block } => self.add_read(block, read),
            Purpose::AddWrite { block } => self.add_written(block),
            Purpose::NewRead { block, index } => self.new_read(block, index, read),
            Purpose::NewWrite { block, index } => self.new_written(block, index),
            Purpose::LinkRead { block, index } => self.link_read(block, index, read),
            Purpose::LinkWrite { block, index } => self.follow(block, index),
            Purpose::CutRead => self.cut_read(read),
            Purpose::CutWrite => self.cut_written(),
            Purpose::FreeWrite { block } => self.free_written(block),
            Purpose::EntryRead => self.put_entry(read),
            Purpose::EntryWrite => self.entry_written(),
            Purpose::HeaderRead => self.put_header(read),
            Purpose::HeaderWrite => self.header_written(),
        }
    }
}
