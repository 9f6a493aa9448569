//! The machine inside an event, and the moves of processes in it (book, chapters 5 and 6: rescheduling is deferred to the event's end).

ghost use Rattle.std.specs.Prelude.{◌≡◌, ◌≤◌, IfOk, IfNone, Some, None, nat_lt, if◌then◌else◌, true, ◌++◌, ◌∷◌, []};
ghost use Rattle.reference_state.specs.Answers.{came_to, IsStart};
ghost use Rattle.reference_tables.specs.Places.{place_of};
ghost use Rattle.xinu_model.specs.Clock as clock;
ghost use Rattle.xinu_model.specs.Machine as model;
ghost use Rattle.xinu_model.specs.Semaphores.Counts as counts;
ghost use Rattle.xinu_model.specs.Messages as messages;
ghost use Rattle.xinu_model.specs.Tables as tables;

use crate::answers::Answer;
use crate::console::Console;
use crate::files::FileWork;
use crate::heap::Heap;
use crate::names::NameRow;
use crate::pools::BufferPool;
use crate::ports::MessagePort;
use crate::raw_disk::RawDisk;
use reference_tables::{Place, Tables, in_state, push};
use rv_hart::{Hart, Ram};
use std::marker::Model;
use xinu_base::{NoMemory, Pid, Process, Rest, Sem, State};

/// The machine inside an event: its state, part by part, the replies to released processes so far, and whether a resched is owed.
pub struct Machine {
    /// The tables.
    pub tables: Tables,
    /// The registers of each process, by number.
    pub harts: [Hart; 64],
    /// RAM.
    pub memory: Ram,
    /// The heap.
    pub heap: Heap,
    /// The buffer pools, in the order in which they were made.
    pub pools: Vec<BufferPool>,
    /// The ports, by number.
    pub ports: Vec<MessagePort>,
    /// The port at which the next search begins.
    pub next_port: u32,
    /// The console.
    pub console: Console,
    /// The mounted prefixes.
    pub names: Vec<NameRow>,
    /// The raw disk.
    pub disk: RawDisk,
    /// The files, and the calls on them.
    pub files: FileWork,
    /// The replies to released processes so far.
    pub released: Vec<(Pid, i32)>,
    /// Whether a resched is owed.
    pub owes_resched: bool,
}

impl Drop for Machine {
    fn drop(self) {
        let Machine {
            tables: _tables,
            harts: _harts,
            memory: _memory,
            heap: _heap,
            pools: _pools,
            ports: _ports,
            next_port: _next_port,
            console: _console,
            names: _names,
            disk: _disk,
            files: _files,
            released: _released,
            owes_resched: _owes_resched,
        } = self;
    }
}

impl Model for Machine {
    ghost use Rattle.xinu_model.specs.Machine as model;

    ghost Value = { model.CallState };

    ghost view = { λ m. record {
      state = record {
        tables = m.tables;
        harts = m.harts;
        memory = m.memory;
        parts = record {
          heap = m.heap;
          pools = m.pools.items;
          ports = m.ports.items;
          next_port = m.next_port;
          devices = record { console = m.console; names = m.names.items; disk = m.disk; files = m.files };
        };
      };
      released = m.released.items;
      owes_resched = m.owes_resched;
    } };
}

impl Machine {
    /// The current process.
    pub fn current(&self) -> Pid
        ensures current { result ≡ self.now.state.tables.current }
    {
        self.tables.current
    }

    /// The ticks so far.
    pub fn ticks(&self) -> u32
        ensures ticks { result ≡ self.now.state.tables.ticks }
    {
        self.tables.ticks
    }

    /// The entry of process `p`.
    pub fn process_at(&self, p: Pid) -> Process
        ensures process { result ≡ tables.process_at self.now.state.tables p }
    {
        self.tables.process_at(p)
    }

    /// The message that `p` holds.
    pub fn message_at(&self, p: Pid) -> Option<u32>
        ensures message { result ≡ tables.message_at self.now.state.tables p }
    {
        self.tables.message_at(p)
    }

    /// The process number that a word is. `None` if and only if it is none, and then no process is read there.
    pub fn named(&self, word: u32) -> Option<Pid>
        ensures named { result ≡ (if nat_lt word 64 then Some word else None) }
        ensures nobody { IfNone result (tables.process_at self.now.state.tables word ≡ tables.no_process) }
    {
        self.tables.named(word)
    }

    /// The process that a word names. `None` if and only if it names no living process.
    pub fn living(&self, word: u32) -> Option<Pid>
        ensures living { result ≡ (if tables.is_free (tables.state_at self.now.state.tables word) then None else Some word) }
    {
        self.tables.living(word)
    }

    /// Whether a process may name semaphore `sem`.
    pub fn is_good(&self, sem: u32) -> bool
        ensures good { result ≡ counts.is_good sem self.now.state.tables }
    {
        self.tables.is_good(sem)
    }

    /// The count of semaphore `sem`: its tokens, of which there are at most as many as the greatest count, less its waiters.
    pub fn count_of(&self, sem: u32) -> i64
        ensures count { result ≡ counts.count_of (tables.semaphore_at self.now.state.tables sem) }
        ensures most { (tables.semaphore_at self.now.state.tables sem).tokens ≤ 2147483647 }
    {
        let _ = self.tables.tokens_of(sem);
        self.tables.count_of(sem)
    }

    /// The free number that the next semaphore gets.
    pub fn free_semaphore(&self) -> Option<Sem>
        ensures found { result ≡ counts.free_semaphore self.now.state.tables }
    {
        self.tables.free_semaphore()
    }

    /// The processes that wake at a tick, in the order in which they lie down.
    pub fn due(&self, tick: u32) -> Result<Vec<Pid>, NoMemory>
        ensures due { IfOk result (λ l. l.items ≡ clock.due tick self.now.state.tables.sleepers) }
    {
        self.tables.due(tick)
    }

    /// The message that the caller holds.
    pub fn held(&self) -> Option<u32>
        ensures held { result ≡ messages.held self.now.state }
    {
        self.message_at(self.current())
    }

    /// `p` leaves the list in which it is, becomes `x` with this message, and goes to a place.
    pub fn move_to(
        &mut self,
        p: Pid,
        x: Process,
        message: Option<u32>,
        place: Place,
    ) -> Result<(), NoMemory>
        ensures moved { IfOk result (λ _. self.new ≡
            model.with_tables (tables.move_to p x message (place_of place) self.old.state.tables) self.old) }
    {
        self.tables.move_to(p, x, message, place)
    }

    /// A resched is owed.
    pub fn owe_resched(&mut self)
        ensures owes { self.new ≡ record self.old { owes_resched = true } }
    {
        self.owes_resched = true;
    }

    // `p` gets a reply at the end of the event.
    fn release(&mut self, p: Pid, value: i32) -> Result<(), NoMemory>
        ensures released { IfOk result (λ _. self.new ≡ record self.old { released = self.old.released ++ (p, value) ∷ [] }) }
    {
        push(&mut self.released, (p, value))
    }

    /// `p` becomes ready, and a resched is owed.
    pub fn ready_later(&mut self, p: Pid) -> Result<(), NoMemory>
        ensures ready { IfOk result (λ _. self.new ≡ model.ready_later p self.old) }
    {
        let x = in_state(State::Ready, self.process_at(p));
        let message = self.message_at(p);
        self.move_to(p, x, message, Place::InReady)?;
        self.owe_resched();
        Ok(())
    }

    /// `p`, which waited or slept, becomes ready; this value is the answer if it is answered now. Who has something left of its call goes
    /// on by itself.
    pub fn unblock_with(&mut self, value: i32, p: Pid) -> Result<(), NoMemory>
        ensures unblocked { IfOk result (λ _. self.new ≡ model.unblock_with value p self.old) }
    {
        let rest = self.process_at(p).rest;
        self.ready_later(p)?;
        if let Rest::Nothing = rest {
            self.release(p, value)?;
        }
        Ok(())
    }

    /// These processes become ready, one after another, with this answer.
    pub fn unblock_all_with(&mut self, value: i32, ps: &[Pid]) -> Result<(), NoMemory>
        ensures unblocked { IfOk result (λ _. self.new ≡ model.unblock_all_with value ps.now self.old) }
    {
        for p in ps {
            self.unblock_with(value, *p)?;
        }
        Ok(())
    }

    /// The caller goes on with this message in its slot, and nothing is left of its call.
    pub fn goes_on(&mut self, message: Option<u32>) -> Result<(), NoMemory>
        ensures goes_on { IfOk result (λ _. self.new ≡ record self.old { state = model.goes_on message self.old.state }) }
    {
        let p = self.current();
        let x = Process {
            rest: Rest::Nothing,
            ..self.process_at(p)
        };
        self.move_to(p, x, message, Place::Nowhere)
    }

    /// The caller goes to a place in another state, with this left of its call.
    pub fn blocked(&mut self, state: State, rest: Rest, place: Place) -> Result<Answer, NoMemory>
        requires start { IsStart self.old }
        ensures blocked { IfOk result (λ a. came_to self.new a ≡ model.blocked state rest (place_of place) self.old.state) }
    {
        let p = self.current();
        let x = Process {
            state,
            rest,
            ..self.process_at(p)
        };
        let message = self.message_at(p);
        self.move_to(p, x, message, place)?;
        Ok(Answer::Waits)
    }
}
