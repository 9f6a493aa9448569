//! Copies of states, and whether two are equal.

ghost use Rattle.std.specs.Prelude.{◌≡◌, ◌↔◌, IsTrue, false};
ghost use Rattle.xinu_model.specs.Files.Rest.{are_calls};
ghost use Rattle.xinu_model.specs.Files.Syscalls.{files_of};

use crate::state::KernelState;
use std::alloc::AllocError;

impl Clone for KernelState {
    ghost is_clone = { λ v w. w ≡ v };

    fn clone(&self) -> Result<Self, AllocError> {
        let tables = self.tables.clone()?;
        let ram = self.ram.clone()?;
        let heap = self.heap.clone()?;
        let pools = self.pools.clone()?;
        let ports = self.ports.clone()?;
        let tty = self.tty.clone()?;
        let disk = self.disk.clone()?;
        let names = self.names.clone()?;
        let files = self.files.clone()?;
        let replies = self.replies.clone()?;
        Ok(KernelState {
            tables,
            harts: self.harts,
            ram,
            heap,
            pools,
            ports,
            tty,
            disk,
            names,
            files,
            replies,
            owes_resched: self.owes_resched,
        })
    }
}

impl KernelState {
    /// Whether another state is equal and no call on files is under way.
    pub fn equals(&self, other: &Self) -> bool
        ensures equal { IsTrue result ↔
            ((are_calls (files_of self.now.call.state).calls ≡ false) × (self.now ≡ other.now)) }
    {
        if self.owes_resched != other.owes_resched {
            return false;
        }
        if !self.tables.equals(&other.tables) {
            return false;
        }
        let harts = self.harts == other.harts;
        if !harts {
            return false;
        }
        let replies = self.replies.as_slice() == other.replies.as_slice();
        if !replies {
            return false;
        }
        if !self.tty.equals(&other.tty) {
            return false;
        }
        if !self.heap.equals(&other.heap) {
            return false;
        }
        if !self.pools.equals(&other.pools) {
            return false;
        }
        if !self.ports.equals(&other.ports) {
            return false;
        }
        if !self.names.equals(&other.names) {
            return false;
        }
        if !self.disk.equals(&other.disk) {
            return false;
        }
        if !self.files.equals(&other.files) {
            return false;
        }
        self.ram.bytes_from(0) == other.ram.bytes_from(0)
    }
}
