//! The tables as one value: an entry of the process table, a message, and the one move that all calls make (book, chapters 4 to 8
//! and 13).

ghost use Rattle.std.specs.Prelude.{◌≡◌, IfOk, IfNone, nat_lt, slice_set, Some, None, if◌then◌else◌};
ghost use Rattle.xinu_model.specs.Tables as model;

use crate::lists::{get_or, join_ready, join_sleepers, leave_ready, leave_sleepers, set};
use crate::semaphores::{Semaphore, join_waiters, leave_semaphores};
use std::marker::Model;
use xinu_base::{NoMemory, Pid, Process, Rest, Sem, State};

/// Where a process can stand.
#[derive(Clone, Copy)]
pub enum Place {
    /// In no list.
    Nowhere,
    /// In the ready list.
    InReady,
    /// Among the waiters of a semaphore.
    InSemaphore(u32),
    /// Among the sleepers, until a tick.
    InSleepers(u32),
}

/// The tables.
pub struct Tables {
    /// The processes, by number.
    pub processes: [Process; 64],
    /// The message that each process holds, by its number.
    pub messages: [Option<u32>; 64],
    /// The current process.
    pub current: Pid,
    /// The ticks that are left of its quantum.
    pub quantum: u8,
    /// Who is ready, each with its key.
    pub ready: Vec<(Pid, i16)>,
    /// The semaphores, by number.
    pub semaphores: Vec<Semaphore>,
    /// Who sleeps, each with the tick at which it wakes.
    pub sleepers: Vec<(Pid, u32)>,
    /// The ticks so far.
    pub ticks: u32,
    /// The process number that was given last.
    pub last_process: Pid,
    /// The semaphore number that was given last.
    pub last_semaphore: Sem,
}

impl Drop for Tables {
    fn drop(self) {
        let Tables {
            processes: _processes,
            messages: _messages,
            current: _current,
            quantum: _quantum,
            ready: _ready,
            semaphores: _semaphores,
            sleepers: _sleepers,
            ticks: _ticks,
            last_process: _last_process,
            last_semaphore: _last_semaphore,
        } = self;
    }
}

impl Model for Tables {
    ghost use Rattle.xinu_model.specs.Tables as model;

    ghost Value = { model.Tables };

    ghost view = { λ t. record {
      processes = t.processes;
      messages = t.messages;
      current = t.current;
      quantum = t.quantum;
      ready = t.ready.items;
      semaphores = t.semaphores.items;
      sleepers = t.sleepers.items;
      ticks = t.ticks;
      last_process = t.last_process;
      last_semaphore = t.last_semaphore;
    } };
}

impl Tables {
    ghost use Rattle.reference_tables.specs.Places.{place_of};
    ghost use Rattle.xinu_model.specs.Tables as model;

    /// The entry of process `p`.
    pub fn process_at(&self, p: Pid) -> Process
        ensures process { result ≡ model.process_at self.now p }
    {
        get_or(&self.processes, p.index(), no_process())
    }

    /// The process number that a word is. `None` if and only if it is none, and then no process is read there.
    pub fn named(&self, word: u32) -> Option<Pid>
        ensures named { result ≡ (if nat_lt word 64 then Some word else None) }
        ensures nobody { IfNone result (model.process_at self.now word ≡ model.no_process) }
    {
        match self.processes.get(word as usize) {
            None => None,
            Some(_) => Pid::from_word(word),
        }
    }

    /// The process that a word names. `None` if and only if it names no living process.
    pub fn living(&self, word: u32) -> Option<Pid>
        ensures living { result ≡ (if model.is_free (model.state_at self.now word) then None else Some word) }
    {
        match self.processes.get(word as usize) {
            None => None,
            Some(x) => match x.state {
                State::Free => None,
                _ => Pid::from_word(word),
            },
        }
    }

    /// The message that `p` holds.
    pub fn message_at(&self, p: Pid) -> Option<u32>
        ensures message { result ≡ model.message_at self.now p }
    {
        get_or(&self.messages, p.index(), None)
    }

    /// `p` becomes `x`, and stays in the lists in which it is.
    pub fn set_process(&mut self, p: Pid, x: Process)
        ensures process { self.new ≡ record self.old { processes = slice_set self.old.processes p x } }
    {
        set(&mut self.processes, p.index(), x);
    }

    /// `p` holds a message.
    pub fn set_message(&mut self, p: Pid, message: u32)
        ensures held { self.new ≡ record self.old { messages = slice_set self.old.messages p (Some message) } }
    {
        set(&mut self.messages, p.index(), Some(message));
    }

    /// The one move: `p` leaves the list in which it is, becomes `x` with this message, and goes to a place.
    pub fn move_to(
        &mut self,
        p: Pid,
        x: Process,
        message: Option<u32>,
        place: Place,
    ) -> Result<(), NoMemory>
        ensures moved { IfOk result (λ _. self.new ≡ model.move_to p x message (place_of place) self.old) }
    {
        let key = x.priority;
        set(&mut self.processes, p.index(), x);
        set(&mut self.messages, p.index(), message);
        leave_ready(&mut self.ready, p);
        leave_semaphores(&mut self.semaphores, p);
        leave_sleepers(&mut self.sleepers, p);
        match place {
            Place::Nowhere => Ok(()),
            Place::InReady => join_ready(&mut self.ready, p, key),
            Place::InSemaphore(sem) => join_waiters(&mut self.semaphores, sem, p),
            Place::InSleepers(wake) => join_sleepers(&mut self.sleepers, p, wake),
        }
    }
}

/// What is at a free number.
pub fn no_process() -> Process
    ensures free { result ≡ model.no_process }
{
    Process {
        state: State::Free,
        priority: 0,
        parent: Pid::default(),
        name: [0; 15],
        stack: 0,
        stack_size: 0,
        rest: Rest::Nothing,
    }
}
