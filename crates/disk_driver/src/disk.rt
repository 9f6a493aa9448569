//! The raw disk: its blocks, and the requests that wait for it (book, chapter 18, `rdsread.c`, `rdswrite.c`, `rdsprocess.c`).

ghost use Rattle.std.specs.Prelude.{◌≡◌, ◌↔◌, IsTrue, ◌<◌, ◌≤◌, [], ◌∷◌, IfNone, IfSome, length, map, option_map, pos, slice_set, true};
ghost use Rattle.std.specs.List.{concat};
ghost use Rattle.lfs_layout.specs.Images.{blocks_of};
ghost use Rattle.disk_driver.specs.Served.{bytes_read, request_of, served_of};
ghost use Rattle.xinu_model.specs.Memory.{in_ram};
ghost use Rattle.xinu_model.specs.RawDisk.Completions.{after_completion, raw_completed, transferred};
ghost use Rattle.xinu_model.specs.RawDisk.Requests.{block_at, has_block, requested, requests_given_up};

use crate::requests::{Done, Request, Requests, keep};
use crate::store::Blocks;
use lfs_layout::RawImage;
use std::marker::Model;
use xinu_base::{Pid, SYSERR};

// The reply to a request that was served well.
const OK: i32 = 0;

/// The raw disk. A clone is equal, and takes memory.
#[derive(Clone)]
pub struct Disk {
    blocks: Blocks,
    // The requests, each for a block that there is and with bytes in RAM.
    requests: Requests,
}

impl Drop for Disk {
    fn drop(self) {
        let Disk {
            blocks: _blocks,
            requests: _requests,
        } = self;
    }
}

impl Model for Disk {
    ghost use Rattle.std.specs.Prelude.{length, map};
    ghost use Rattle.xinu_model.specs.RawDisk.Requests.{RawDisk};
    ghost use Rattle.disk_driver.specs.Served.{AreWithin, request_of};

    ghost Value = { RawDisk };

    ghost view = { λ d. record { blocks = d.blocks; requests = map request_of d.requests.items } };

    ghost invariant = { λ d. AreWithin (length d.blocks) (map request_of d.requests.items) };
}

impl Disk {
    /// The disk of an image, and no request.
    pub fn new(image: RawImage) -> Self
        ensures starts { result ≡ record { blocks = blocks_of image; requests = [] } }
    {
        Disk {
            blocks: Blocks::new(image),
            requests: Requests::new(),
        }
    }

    /// Whether another disk is equal.
    pub fn equals(&self, other: &Self) -> bool
        ensures equal { IsTrue result ↔ (self.now ≡ other.now) }
    {
        self.requests.as_slice() == other.requests.as_slice() && self.blocks.equals(&other.blocks)
    }

    /// How many blocks there are: 8 to 65,536.
    pub fn blocks(&self) -> u32
        ensures blocks { result ≡ length self.now.blocks }
        ensures least { 8 ≤ result }
        ensures most { result ≤ 65536 }
    {
        self.blocks.count()
    }

    /// The 512 bytes of block `n`, which the disk has.
    pub fn block(&self, n: u32) -> &[u8]
        requires within { has_block n self.now ≡ true }
        ensures block { result.now ≡ block_at self.now n }
        ensures size { length result.now ≡ 512 }
    {
        self.blocks.get(n)
    }

    /// Block `n`, which the disk has, gets these bytes. Nothing else changes.
    pub fn set_block(&mut self, n: u32, block: &[u8; 512])
        requires within { has_block n self.old ≡ true }
        ensures set { self.new ≡ record self.old { blocks = slice_set self.old.blocks n block.now } }
    {
        self.blocks.set(n, block);
    }

    /// The bytes of all blocks, one block after another.
    pub fn bytes(&self) -> &[u8]
        ensures bytes { result.now ≡ concat self.now.blocks }
    {
        self.blocks.bytes()
    }

    /// How many requests wait: at most 64.
    pub fn pending(&self) -> usize
        ensures pending { result ≡ length self.now.requests }
        ensures most { result ≤ 64 }
    {
        self.requests.len()
    }

    /// The requests that wait, in the order in which they were made.
    pub fn requests(&self) -> &[Request]
        ensures requests { map request_of result.now ≡ self.now.requests }
    {
        self.requests.as_slice()
    }

    /// A request goes after the others. Fewer than 64 requests wait, the disk has the request's block, and the 512 bytes from its address
    /// on are in RAM.
    pub fn submit(&mut self, r: Request)
        requires room { length self.old.requests < 64 }
        requires within { has_block r.block self.old ≡ true }
        requires range { in_ram r.at 512 ≡ true }
        ensures submits { self.new ≡ requested (request_of r) self.old }
    {
        let caller = r.caller;
        self.requests.push(Request { caller, ..r });
    }

    /// Serves the first request and takes it out: its bytes are written to its block, or the block is read. If it is served badly, no block
    /// changes and nothing is read. The request that is answered has its 512 bytes in RAM. `None`, and nothing changes, if and only if no
    /// request waits.
    pub fn complete(&mut self, good: bool) -> Option<Done>
        ensures served { option_map (λ done. served_of done self.new) result ≡ raw_completed good self.old }
        ensures disk { self.new ≡ after_completion (raw_completed good self.old) self.old }
        ensures range { IfSome result (λ done. in_ram done.request.at 512 ≡ true) }
    {
        let request = self.take_first()?;
        if !good {
            return Some(Done {
                request,
                reply: SYSERR,
                read: None,
            });
        }
        let read = self.transfer(&request);
        Some(Done {
            request,
            reply: OK,
            read,
        })
    }

    /// Gives up what `p` asked for, once it was killed: the first request goes on without its caller, and the others are taken out.
    pub fn forget(&mut self, p: Pid)
        ensures forgets { self.new ≡ requests_given_up p self.old }
    {
        let mut kept = Requests::new();
        for r in self.requests.as_slice() {
            keep(&mut kept, *r, p);
        }
        self.requests = kept;
    }

    // Takes the first request; `None` if and only if none waits.
    fn take_first(&mut self) -> Option<Request>
        ensures first { IfSome result (λ r. self.old ≡ record self.new { requests = request_of r ∷ self.new.requests }) }
        ensures empty { IfNone result (self.old.requests ≡ []) }
        ensures same { IfNone result (self.new ≡ self.old) }
        ensures within { IfSome result (λ r. r.block < length self.new.blocks) }
        ensures range { IfSome result (λ r. in_ram r.at 512 ≡ true) }
    {
        self.requests.pop_at(0)
    }

    // Writes the block of a request, or reads it.
    fn transfer(&mut self, r: &Request) -> Option<[u8; 512]>
        requires within { r.now.block < length self.old.blocks }
        ensures moved { record { request = request_of r.now; reply = pos 0; bytes = bytes_read result; disk = self.new } ≡
            transferred r.now.written (request_of r.now) self.old }
    {
        match r.written {
            Some(bytes) => {
                self.blocks.set(r.block, &bytes);
                None
            }
            None => Some(array_of(self.blocks.get(r.block))),
        }
    }
}

// The bytes of one block by themselves.
fn array_of(bytes: &[u8]) -> [u8; 512]
    requires size { length bytes.now ≡ 512 }
    ensures same { result ≡ bytes.now }
{
    let mut block = [0; 512];
    block.copy_from_slice(bytes);
    block
}
