//! Copies of kernels, and whether two are equal.

ghost use Rattle.std.specs.Prelude.{◌≡◌, ◌↔◌, IsTrue, false};
ghost use Rattle.xinu_model.specs.Files.Rest.{are_calls};
ghost use Rattle.xinu_model.specs.Files.Syscalls.{files_of};

use crate::kernel::Kernel;
use std::alloc::AllocError;

impl Clone for Kernel {
    ghost is_clone = { λ v w. w ≡ v };

    fn clone(&self) -> Result<Self, AllocError> {
        let state = self.state.clone()?;
        Ok(Kernel {
            state,
            answer: self.answer,
        })
    }
}

impl Kernel {
    /// Whether another kernel is equal and no call on files is under way.
    pub fn equals(&self, other: &Self) -> bool
        ensures equal { IsTrue result ↔
            ((are_calls (files_of self.now.came.call.state).calls ≡ false) × (self.now ≡ other.now)) }
    {
        self.answer == other.answer && self.state.equals(&other.state)
    }
}
