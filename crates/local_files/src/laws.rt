//! Laws of an engine that waits: what its disk holds, which block it wants, and what a call that is refused leaves.

ghost use Rattle.std.specs.Prelude.{◌≡◌, ◌≤◌, ℕ, List, Bool, IsSome};
ghost use Rattle.file_laws.specs.StoredFiles.{stored_files};
ghost use Rattle.file_laws.specs.Holds.{Holds};
ghost use Rattle.xinu_model.specs.Files.Work.{FileWork};
ghost use Rattle.xinu_model.specs.Files.Rest.{is_at_rest};
ghost use Rattle.local_files.specs.Hands.{system};
ghost use Rattle.local_files.specs.Standing.{Stands, wanted, served, call_of, call_bytes};
ghost use Rattle.local_files.specs.Bounds.{left};
ghost use Rattle.local_files.specs.Resting.{AreAtRest, IsFirstCall, IsOnDisk, ChangesOneBlock, OnlyReads, WillBeRefused};

use crate::Files;

impl Files {
    /// At each moment the disk holds the files that are at rest, which are neither open nor named by the call in hand: between two calls,
    /// and before and after each completion of a call, also between the two writes of the directory. So it holds those that are at rest of
    /// the abstract machine's file work, if the engine has its first call in hand.
    pub fn holds_files_at_rest(&self)
        ensures held { (base disk : List ℕ) (rests : List ℕ → Bool) → Stands self.now base disk → AreAtRest self.now base rests
            → Holds disk (stored_files base) rests }
        ensures work { (base disk : List ℕ) (w : FileWork) → Stands self.now base disk → w.system ≡ system self.now base
            → IsFirstCall (wanted self.now) (call_of self.now.call (call_bytes self.now)) w.calls
            → Holds disk w.system.files (λ name. is_at_rest name w) }
    {}

    /// The block that is wanted lies on the disk.
    pub fn wants_a_block_of_the_disk(&self)
        ensures within { (base disk : List ℕ) → Stands self.now base disk → IsOnDisk (wanted self.now) self.now.blocks }
    {}

    /// A completion changes at most one block.
    pub fn changes_one_block(&self)
        ensures one { (base disk : List ℕ) → Stands self.now base disk → ChangesOneBlock disk (served self.now disk) }
    {}

    /// A call that will be refused leaves the disk as it was when the call began, before each of its completions and after it.
    pub fn leaves_the_disk_if_refused(&self)
        ensures before { (base disk : List ℕ) → Stands self.now base disk → WillBeRefused self.now base → disk ≡ base }
        ensures after { (base disk : List ℕ) → Stands self.now base disk → WillBeRefused self.now base → served self.now disk ≡ base }
    {}

    /// A call that writes no file leaves the disk as it is at each of its completions: it reads, moves, tells a size or closes, or opens a
    /// file that is there.
    pub fn leaves_the_disk_if_it_reads(&self)
        ensures same { (base disk : List ℕ) → Stands self.now base disk
            → OnlyReads (call_of self.now.call (call_bytes self.now)) (system self.now base) → served self.now disk ≡ disk }
    {}

    /// While a block is wanted, a completion is left.
    pub fn has_a_completion_left(&self)
        ensures some { (base disk : List ℕ) → Stands self.now base disk → IsSome (wanted self.now) → 1 ≤ left self.now base }
    {}
}
