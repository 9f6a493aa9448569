//! The raw disk (book, chapter 18).

use crate::bytes::Bytes;
use std::marker::Model;
use xinu_base::Pid;

/// A request: who waits for it, unless that was killed; the address of its bytes in RAM; its block; and for a write the bytes, as they were
/// when it was made. A block's bytes at the address lie in RAM.
#[derive(Drop)]
pub struct Request {
    /// Who waits for it.
    pub caller: Option<Pid>,
    /// The address of its bytes.
    pub at: u32,
    /// The number of its block.
    pub block: u32,
    /// What is written.
    pub written: Option<Bytes>,
}

impl Model for Request {
    ghost use Rattle.std.specs.Prelude.{◌+◌, ◌≤◌};
    ghost use Rattle.xinu_model.specs.RawDisk.Requests as model;

    ghost Value = { model.Request };

    ghost view = { λ r. record { caller = r.caller; at = r.at; block = r.block; written = r.written } };

    ghost invariant = { λ r. r.at + 512 ≤ 1048576 };
}

/// The raw disk: its blocks, of which there are at most 2147483647, and the requests in their order.
pub struct RawDisk {
    /// The blocks.
    pub blocks: Vec<Bytes>,
    /// The requests.
    pub requests: Vec<Request>,
}

impl Drop for RawDisk {
    fn drop(self) {
        let RawDisk {
            blocks: _blocks,
            requests: _requests,
        } = self;
    }
}

impl Model for RawDisk {
    ghost use Rattle.std.specs.Prelude.{◌≤◌, length};
    ghost use Rattle.xinu_model.specs.RawDisk.Requests as model;

    ghost Value = { model.RawDisk };

    ghost view = { λ d. record { blocks = d.blocks.items; requests = d.requests.items } };

    ghost invariant = { λ d. length d.blocks.items ≤ 2147483647 };
}
