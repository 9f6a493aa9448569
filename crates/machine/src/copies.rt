//! Copies of machines, and whether two are equal.

ghost use Rattle.std.specs.Prelude.{◌≡◌, ◌↔◌, IsTrue, false};
ghost use Rattle.xinu_model.specs.Files.Rest.{are_calls};
ghost use Rattle.xinu_model.specs.Files.Syscalls.{files_of};

use crate::machine::Machine;
use std::alloc::AllocError;

impl Clone for Machine {
    ghost is_clone = { λ v w. w ≡ v };

    fn clone(&self) -> Result<Self, AllocError> {
        let kernel = self.kernel.clone()?;
        Ok(Machine {
            kernel,
            events: self.events,
            has_ended: self.has_ended,
        })
    }
}

impl Machine {
    /// Whether all that a clause sees of another machine is equal, and no call on files is under way.
    pub fn equals(&self, other: &Self) -> bool
        ensures equal { IsTrue result ↔
            ((are_calls (files_of self.now.state).calls ≡ false) × (self.now ≡ other.now)) }
    {
        self.events == other.events
            && self.has_ended == other.has_ended
            && self.kernel.equals(&other.kernel)
    }
}
