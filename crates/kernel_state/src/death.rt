//! How a process dies (book, chapter 5, `kill.c`).

ghost use Rattle.std.specs.Prelude.{◌≡◌, ◌≢◌};
ghost use Rattle.xinu_model.specs.Process.Death.{killed};

use crate::state::KernelState;
use rv_hart::Hart;
use xinu_base::Pid;

impl KernelState {
    /// `p`, which isn't the null process, dies: its parent is sent its number, its stack is free, unless the heap refuses it, so is its
    /// number, and what it asked of disks is given up.
    pub fn end(&mut self, p: Pid)
        requires not_null { p ≢ 0 }
        ensures killed { self.new.call ≡ killed p self.old.call }
        ensures image { self.new.image ≡ self.old.image }
    {
        let process = *self.tables.process(p);
        if self.tables.send_to(process.parent, p.index() as u32) {
            self.owes_resched = true;
        }
        self.tables.bury(p);
        self.harts[p.index()] = Hart::ZERO;
        self.heap.freestk(process.stack, process.stack_size);
        self.disk.forget(p);
        self.files.forget(p);
    }
}
