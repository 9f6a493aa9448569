//! The raw disk by itself (book, chapter 18): its requests, their order, and what becomes of blocks.

ghost use Rattle.std.specs.Prelude.{◌≡◌, ◌≢◌, ◌++◌, ◌<◌, ℕ, Bool, true, false, List, [], ◌∷◌, length, filter, not, ◌==◌, Some, None, IsSome};
ghost use Rattle.xinu_base.specs.Constants.{OK, SYSERR};
ghost use Rattle.xinu_model.specs.RawDisk.Histories.{DiskStep, after_steps, made_in, served_in, requests_of};
ghost use Rattle.xinu_model.specs.RawDisk.Completions.{Served, served, raw_completed, after_completion};
ghost use Rattle.xinu_model.specs.RawDisk.Requests.{Request, RawDisk, block_at, requested, requesters, requests_given_up};
ghost use Rattle.xinu_model.specs.RawDisk.Sound.{IsRequest, IsSoundRawDisk};

/// Each step keeps the raw disk sound, and the number of its blocks: a request for a block that there is, a completion, good or failed,
/// and the death of a process.
pub fn raw_disks_stay_sound()
    ensures requested { (r : Request) (d : RawDisk) → IsSome r.caller → IsRequest (length d.blocks) r → IsSoundRawDisk d →
        IsSoundRawDisk (requested r d) }
    ensures completed { (good : Bool) (d : RawDisk) → IsSoundRawDisk d → IsSoundRawDisk (after_completion (raw_completed good d) d) }
    ensures given_up { (p : ℕ) (d : RawDisk) → IsSoundRawDisk d → IsSoundRawDisk (requests_given_up p d) }
    ensures size { (good : Bool) (d : RawDisk) → length (after_completion (raw_completed good d) d).blocks ≡ length d.blocks }
{}

/// A completion serves the first request and leaves the others; none is served only if there is none.
pub fn the_first_request_is_served()
    ensures first { (good : Bool) (d : RawDisk) (s : Served) → raw_completed good d ≡ Some s → d.requests ≡ s.request ∷ s.disk.requests }
    ensures nothing { (good : Bool) (d : RawDisk) → raw_completed good d ≡ None → d.requests ≡ [] }
{}

/// Through whatever requests and completions, each request is served once, in the order in which they were made, or still waits.
pub fn requests_are_served_in_order()
    ensures order { (steps : List DiskStep) (d : RawDisk) →
        requests_of (served_in steps d) ++ (after_steps steps d).requests ≡ d.requests ++ made_in steps }
{}

/// A good completion writes the block, and no other, or gives the bytes of the block; a failed one refuses the request and changes no
/// block.
pub fn blocks_are_transferred()
    ensures written { (r : Request) (d : RawDisk) (bytes : List ℕ) → r.written ≡ Some bytes → r.block < length d.blocks →
        block_at (served true r d).disk r.block ≡ bytes }
    ensures others { (r : Request) (d : RawDisk) (n : ℕ) → n ≢ r.block → block_at (served true r d).disk n ≡ block_at d n }
    ensures read { (r : Request) (d : RawDisk) → r.written ≡ None →
        served true r d ≡ record { request = r; reply = OK; bytes = block_at d r.block; disk = d } }
    ensures failed { (r : Request) (d : RawDisk) → served false r d ≡ record { request = r; reply = SYSERR; bytes = []; disk = d } }
{}

/// A killed process waits for no request any longer, and the others wait as they did. Its request that was the first is served as it
/// would have been.
pub fn killed_callers_wait_no_longer()
    ensures callers { (p : ℕ) (d : RawDisk) →
        requesters (requests_given_up p d).requests ≡ filter (λ q. not (q == p)) (requesters d.requests) }
    ensures first { (p : ℕ) (good : Bool) (d : RawDisk) →
        (after_completion (raw_completed good (requests_given_up p d)) (requests_given_up p d)).blocks ≡
        (after_completion (raw_completed good d) d).blocks }
{}
