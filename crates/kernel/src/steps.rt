//! Many machine steps in one call: those that print nothing.
//!
//! Steps of the null process do nothing, so they take no time. Plain instructions of another process are carried out one after another, up
//! to the first that calls, traps or ends the process: an event takes that.

ghost use Rattle.std.specs.Prelude.{◌≡◌, ◌≤◌, false};
ghost use Rattle.kernel.specs.Taken.{taken_at_once};
ghost use Rattle.kernel_state.specs.Results.{idle, IsIdle};
ghost use Rattle.xinu_model.specs.Isa.Ran.{ran};
ghost use Rattle.xinu_model.specs.Machine.{current_hart};
ghost use Rattle.xinu_model.specs.Runs.{is_over};
ghost use Rattle.xinu_model.specs.Steps.{ArePlain, stepped_times, with_ran};

use crate::kernel::Kernel;
use kernel_state::KernelState;
use rv_hart::plain_steps;
use xinu_base::Pid;

impl Kernel {
    /// Takes machine steps that print nothing, at most so many, and answers how many. If there were fewer, the current process has something
    /// left of a call, or its next instruction calls, traps or returns from its first function. The kernel is idle, before and after, and a
    /// process besides the null process is left.
    pub fn steps(&mut self, most: u32) -> u32
        requires idle { IsIdle self.old.came }
        requires lives { is_over self.old.came.call.state ≡ false }
        ensures steps { self.new.came ≡ idle (stepped_times result self.old.came.call.state) }
        ensures plain { ArePlain result self.old.came.call.state }
        ensures tables { self.new.came.call.state.tables ≡ self.old.came.call.state.tables }
        ensures parts { self.new.came.call.state.parts ≡ self.old.came.call.state.parts }
        ensures taken { result ≡ taken_at_once most self.old.came.call.state }
        ensures most { result ≤ most }
        ensures image { self.new.image ≡ self.old.image }
    {
        if self.state.tables.current() == Pid::default() {
            return most;
        }
        if !self.state.tables.is_done() {
            return 0;
        }
        instructions(&mut self.state, most)
    }
}

// Plain instructions of the current process, at most so many: how many.
fn instructions(k: &mut KernelState, most: u32) -> u32
    ensures count { result ≡ (ran most (current_hart k.old.call.state) k.old.call.state.memory).count }
    ensures state { k.new.call ≡ record k.old.call { state = with_ran (ran most (current_hart k.old.call.state) k.old.call.state.memory) k.old.call.state } }
    ensures most { result ≤ most }
    ensures image { k.new.image ≡ k.old.image }
{
    let current = k.tables.current();
    plain_steps(&mut k.harts[current.index()], &mut k.ram, most)
}
