//! Copies of engines, each equal to the one that is copied and with a buffer of its own, and whether two engines have the same files open.

ghost use Rattle.std.specs.Prelude.{ℕ, ◌≡◌, ◌↔◌, IsTrue, List, map};
ghost use Rattle.lfs_layout.specs.Images.{IsCleanImage};
ghost use Rattle.local_files.specs.Hands.{IsDevice};
ghost use Rattle.local_files.specs.Standing.{Stands};
ghost use Rattle.local_files.specs.Steps.{shown};

use crate::{Files, OpenFile};
use std::alloc::AllocError;

impl Clone for Files {
    ghost is_clone = { λ v w. w ≡ v };

    fn clone(&self) -> Result<Self, AllocError> {
        let buffer = self.buffer.clone()?;
        Ok(Files { buffer, ..*self })
    }
}

impl Files {
    /// Whether the devices of another engine show the same open: files of the same names, at the same positions, and whether each may be
    /// read and written. Where the entry of a file is, and what it says of its blocks, isn't compared. The answer is exact if both engines
    /// stand for disks.
    pub fn has_same_open(&self, other: &Self) -> bool
        ensures equal { (base disk other_base other_disk : List ℕ) → Stands self.now base disk → Stands other.now other_base other_disk
            → IsTrue result ↔ (map shown self.now.devices ≡ map shown other.now.devices) }
    {
        for d in 0..6 {
            if !is_same(self.devices[d], other.devices[d]) {
                return false;
            }
        }
        true
    }
}

// Whether two devices show the same.
fn is_same(file: Option<OpenFile>, other: Option<OpenFile>) -> bool
    ensures equal { (base other_base : List ℕ) → IsCleanImage base → IsCleanImage other_base → IsDevice base file → IsDevice other_base other
        → IsTrue result ↔ (shown file ≡ shown other) }
{
    match (file, other) {
        (None, None) => true,
        (Some(f), Some(g)) => {
            f.position == g.position
                && f.read == g.read
                && f.write == g.write
                && f.entry.name == g.entry.name
        }
        _ => false,
    }
}
