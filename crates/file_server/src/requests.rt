//! A call under way, what became of one, and which calls stay after their caller's death.

ghost use Rattle.arrayvec.specs.ArrayVec.{array_vec_len};
ghost use Rattle.file_server.specs.Requests.{AreRequests, IsRequest, kept_after, request_of};
ghost use Rattle.std.specs.Prelude.{◌≡◌, ◌<◌, ◌≤◌, ◌+◌, [], ◌∷◌, None, map, replicate};

use arrayvec::ArrayVec;
use local_files::FileCall;
use xinu_base::{FileMoment, Pid};

/// A call on files that is under way.
#[derive(Clone, Copy)]
pub struct FileRequest {
    /// Who waits for it; `None` once that was killed.
    pub caller: Option<Pid>,
    /// The call.
    pub call: FileCall,
    /// How many bytes it writes.
    pub count: u32,
    /// The address of its bytes in RAM.
    pub at: u32,
}

/// What became of a call.
#[derive(Clone, Copy)]
pub struct FileNote {
    /// Who made it, if that lives.
    pub caller: Option<Pid>,
    /// Whether it had a turn or took effect.
    pub moment: FileMoment,
    /// Its reply, if it took effect.
    pub reply: Option<i32>,
}

impl Default for FileRequest {
    ghost use Rattle.local_files.specs.declared.FileCall.TheVariants as call;

    ghost is_default = { λ r. (r.caller ≡ None) × (r.call ≡ call.Delete (replicate 28 0)) × (r.count ≡ 0) × (r.at ≡ 0) };

    fn default() -> Self {
        FileRequest {
            caller: None,
            call: FileCall::Delete([0; 28]),
            count: 0,
            at: 0,
        }
    }
}

impl Default for FileNote {
    ghost use Rattle.xinu_base.specs.declared.lines.FileMoment.TheVariants as moment;

    ghost is_default = { λ n. (n.caller ≡ None) × (n.moment ≡ moment.Turn) × (n.reply ≡ None) };

    fn default() -> Self {
        FileNote {
            caller: None,
            moment: FileMoment::Turn,
            reply: None,
        }
    }
}

/// Calls in their order.
pub(crate) type Requests = ArrayVec<FileRequest, 64>;

/// What happened at one completion, in order.
pub type FileNotes = ArrayVec<FileNote, 64>;

// Keeps a call after the death of `p`: not if it is p's, unless it is the first, which then has no caller.
pub(crate) fn keep(kept: &mut Requests, r: FileRequest, p: Pid)
    requires room { array_vec_len kept.old < 64 }
    requires request { IsRequest r }
    requires calls { AreRequests kept.old.items }
    ensures kept { map request_of kept.new.items ≡ kept_after p (map request_of kept.old.items) (request_of r ∷ []) }
    ensures calls { AreRequests kept.new.items }
    ensures longer { array_vec_len kept.new ≤ array_vec_len kept.old + 1 }
{
    if r.caller != Some(p) {
        kept.push(r);
    } else if kept.is_empty() {
        kept.push(FileRequest { caller: None, ..r });
    }
}
