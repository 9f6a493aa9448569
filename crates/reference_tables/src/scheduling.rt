//! Who becomes ready, and who runs (book, chapter 5).

ghost use Rattle.std.specs.Prelude.{◌≡◌, IfOk, slice_get};
ghost use Rattle.xinu_model.specs.Process.Scheduling as model;
ghost use Rattle.xinu_model.specs.Tables as tables;

use crate::tables::{Place, Tables};
use xinu_base::{NoMemory, Pid, Process, QUANTUM, State};

impl Tables {
    /// `p` becomes ready.
    pub fn make_ready(&mut self, p: Pid) -> Result<(), NoMemory>
        ensures ready { IfOk result (λ _. self.new ≡ model.ready p self.old) }
    {
        let x = in_state(State::Ready, self.process_at(p));
        let message = self.message_at(p);
        self.move_to(p, x, message, Place::InReady)
    }

    /// `p` becomes the current process, with a fresh quantum.
    fn dispatch(&mut self, p: Pid) -> Result<(), NoMemory>
        ensures dispatched { IfOk result (λ _. self.new ≡ model.dispatch p self.old) }
    {
        let x = in_state(State::Current, self.process_at(p));
        let message = self.message_at(p);
        self.set_current(p);
        self.move_to(p, x, message, Place::Nowhere)
    }

    /// The current process gives way to the first of the ready list, unless it stays.
    pub fn resched(&mut self) -> Result<(), NoMemory>
        ensures resched { IfOk result (λ _. self.new ≡ model.resched self.old) }
    {
        if self.keeps_cpu() {
            return Ok(());
        }
        if self.runs() {
            let p = self.running();
            self.make_ready(p)?;
        }
        match self.first_ready() {
            None => Ok(()),
            Some(e) => self.dispatch(e.0),
        }
    }

    // Whether the current process stays: nobody is ready, or the first key is less than its priority.
    fn keeps_cpu(&self) -> bool
        ensures keeps { result ≡ model.keeps_cpu self.now.ready self.now }
    {
        match self.first_ready() {
            None => true,
            Some(e) => self.runs() && e.1 < self.process_at(self.running()).priority,
        }
    }

    // The first of the ready list.
    fn first_ready(&self) -> Option<(Pid, i16)>
        ensures first { result ≡ slice_get self.now.ready 0 }
    {
        self.ready.first().copied()
    }

    // The current process.
    fn running(&self) -> Pid
        ensures current { result ≡ self.now.current }
    {
        self.current
    }

    // Whether it is in state current: it neither waits nor is suspended or dead.
    fn runs(&self) -> bool
        ensures runs { result ≡ model.is_current (tables.state_at self.now self.now.current) }
    {
        matches!(self.process_at(self.running()).state, State::Current)
    }

    // `p` is current, with a fresh quantum.
    fn set_current(&mut self, p: Pid)
        ensures current { self.new ≡ record self.old { current = p; quantum = 2 } }
    {
        self.current = p;
        self.quantum = QUANTUM;
    }
}

/// The same process in another state.
pub fn in_state(state: State, x: Process) -> Process
    ensures state { result ≡ model.in_state state x }
{
    Process { state, ..x }
}
