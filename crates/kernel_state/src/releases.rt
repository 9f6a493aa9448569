//! Who is released in an event: by a token that one waits for, or all who wait at once.

ghost use Rattle.std.specs.Prelude.{◌≡◌, ◌≤◌, [], true, int_lt, length};
ghost use Rattle.kernel_state.specs.Released.{IsOfPart, replies_to};
ghost use Rattle.kernel_tables.specs.Waking.{are_any};
ghost use Rattle.xinu_model.specs.Semaphores.Counts.{count_of, most_tokens};
ghost use Rattle.xinu_model.specs.Semaphores.Waiting.{signalled};
ghost use Rattle.xinu_model.specs.Tables.{semaphore_at};

use crate::replies::answer_released;
use crate::state::KernelState;
use semaphores::Signalled;
use xinu_base::{Pid, Sem};

impl KernelState {
    /// Gives `sem`, which no process made and whose count isn't the greatest, a token: its first waiter is released, and goes on by
    /// itself, or the token is kept.
    pub fn give_token(&mut self, sem: Sem)
        requires part { IsOfPart (semaphore_at self.old.call.state.tables sem).owner }
        requires room { int_lt (count_of (semaphore_at self.old.call.state.tables sem)) most_tokens ≡ true }
        ensures signalled { self.new.call ≡ signalled sem self.old.call }
        ensures image { self.new.image ≡ self.old.image }
    {
        if let Signalled::Released(_) = self.tables.signal(sem) {
            self.owes_resched = true;
        }
    }

    /// These processes became ready: each whose call is complete gets this reply, in their order, and a resched is owed if and only if
    /// there are any. There are at most 64 of them, and none was answered before in this event.
    pub fn release(&mut self, released: &[Pid], value: i32)
        requires none { self.old.call.released ≡ [] }
        requires few { length released.now ≤ 64 }
        ensures released { self.new.call ≡
            record self.old.call { released = replies_to value released.now self.old.call.state.tables; owes_resched = are_any released.now } }
        ensures image { self.new.image ≡ self.old.image }
    {
        answer_released(&mut self.replies, &self.tables, released, value);
        self.owes_resched = !released.is_empty();
    }
}
