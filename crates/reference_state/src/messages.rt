//! How a message comes to a process (book, chapter 8).

ghost use Rattle.std.specs.Prelude.{◌≡◌, IfOk};
ghost use Rattle.xinu_model.specs.Messages as model;

use crate::machine::Machine;
use reference_tables::{Place, in_state};
use xinu_base::{NoMemory, Pid, State};

impl Machine {
    /// Whether `p` can be sent a message: it lives and holds none.
    pub fn can_get(&self, p: Pid) -> bool
        ensures can { result ≡ model.can_get p self.now.state.tables }
    {
        !matches!(self.process_at(p).state, State::Free) && self.message_at(p).is_none()
    }

    /// `p` holds a message, and becomes ready if it waits for one.
    pub fn delivered(&mut self, p: Pid, message: u32) -> Result<(), NoMemory>
        ensures delivered { IfOk result (λ _. self.new ≡ model.delivered p message self.old) }
    {
        let x = self.process_at(p);
        match x.state {
            State::Receiving | State::Timed => {
                self.move_to(p, in_state(State::Ready, x), Some(message), Place::InReady)?;
                self.owe_resched();
            }
            _ => self.tables.set_message(p, message),
        }
        Ok(())
    }

    /// `p` is sent a message; a refusal is ignored.
    pub fn sent(&mut self, p: Pid, message: u32) -> Result<(), NoMemory>
        ensures sent { IfOk result (λ _. self.new ≡ model.sent p message self.old) }
    {
        if self.can_get(p) {
            self.delivered(p, message)?;
        }
        Ok(())
    }
}
