//! A request, what a completion gives, and which requests stay after their caller's death.

ghost use Rattle.arrayvec.specs.ArrayVec.{array_vec_len};
ghost use Rattle.std.specs.Prelude.{◌≡◌, ◌<◌, ◌≤◌, ◌+◌, [], ◌∷◌, map};
ghost use Rattle.disk_driver.specs.Served.{kept_after, request_of};

use arrayvec::ArrayVec;
use xinu_base::Pid;

/// A request for a block.
#[derive(Clone, Copy, Default, PartialEq)]
pub struct Request {
    /// Who waits for it; `None` once that was killed.
    pub caller: Option<Pid>,
    /// The address of its bytes in RAM.
    pub at: u32,
    /// The number of its block.
    pub block: u32,
    /// The bytes that are written, or `None` if the block is read.
    pub written: Option<[u8; 512]>,
}

/// A request that was served.
#[derive(Clone, Copy)]
pub struct Done {
    /// What was asked for.
    pub request: Request,
    /// The reply to its caller: 0, or -1 if it failed.
    pub reply: i32,
    /// The bytes that were read; `None` for a write and for what failed.
    pub read: Option<[u8; 512]>,
}

/// Requests in their order.
pub(crate) type Requests = ArrayVec<Request, 64>;

// Keeps a request after the death of `p`: not if it is p's, unless it is the first, which then has no caller.
pub(crate) fn keep(kept: &mut Requests, r: Request, p: Pid)
    requires room { array_vec_len kept.old < 64 }
    ensures kept { map request_of kept.new.items ≡ kept_after p (map request_of kept.old.items) (request_of r ∷ []) }
    ensures longer { array_vec_len kept.new ≤ array_vec_len kept.old + 1 }
{
    if r.caller != Some(p) {
        kept.push(r);
    } else if kept.is_empty() {
        kept.push(Request { caller: None, ..r });
    }
}
