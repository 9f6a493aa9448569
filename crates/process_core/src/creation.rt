//! How a process gets its number, and how the number becomes free again (book, chapters 5 and 6, `create.c`, `kill.c`, `newpid.c`).

ghost use Rattle.std.specs.Prelude.{◌≡◌, ◌≢◌, ◌≤◌, ◌<◌, ◌-◌, ℕ, List, length, find, Option, Some, None, IfSome, IfNone};
ghost use Rattle.process_core.specs.Fits.{Fits};
ghost use Rattle.process_core.specs.Starts.{padded};
ghost use Rattle.process_core.specs.Tables.{Beside, process_in, tables_of, with_message, with_process};
ghost use Rattle.queue_table.specs.Lists.{Entry, place};
ghost use Rattle.queue_table.specs.Table as table;
ghost use Rattle.xinu_model.specs.Process.Creation.{free_process, new_process};
ghost use Rattle.xinu_model.specs.Searches.{numbers_from};
ghost use Rattle.xinu_model.specs.Tables.{is_free, move_to, no_process, Nowhere};

use crate::procs::{Procs, free_entry};
use queue_table::Lists;
use xinu_base::{Pid, Process, Rest, State};

impl Procs {
    /// The free number that the next process gets: the first after the last one given, and then from 0 on. `None` if and only if
    /// none is free.
    pub fn place_free(&self) -> Option<Pid>
        ensures found { (ls : List (List Entry)) (b : Beside) → result ≡ free_process (tables_of ls self.now b) }
        ensures free { IfSome result (λ p. (process_in self.now.processes p).state ≡ State.Free) }
        ensures full { IfNone result ((p : ℕ) → p < 64 → (process_in self.now.processes p).state ≢ State.Free) }
    {
        let first = self.last.index() + 1;
        match self.free_within(first, 64) {
            Some(p) => Some(p),
            None => self.free_within(0, first),
        }
    }

    /// Makes process `p`, whose number is free, suspended, and puts it in no list; the search for the next number begins after it. The name
    /// has at most 15 bytes, and the stack is the address of its highest word and its size in bytes.
    pub fn make(&mut self, p: Pid, priority: i16, parent: Pid, name: &[u8], stack: (u32, u32))
        requires free { (process_in self.old.processes p).state ≡ State.Free }
        requires short { length name.now ≤ 15 }
        ensures procs { self.new ≡ record (with_process p (new_process (padded name.now) priority parent stack.0 stack.1) self.old) { last_process = p } }
        ensures made { (ls : List (List Entry)) (b : Beside) (m : Option ℕ) → Fits ls self.old.processes → tables_of ls self.new (with_message p m b) ≡
            record (move_to p (new_process (padded name.now) priority parent stack.0 stack.1) m Nowhere (tables_of ls self.old b)) { last_process = p } }
        ensures fits { (ls : List (List Entry)) → Fits ls self.old.processes → Fits ls self.new.processes }
    {
        self.set_process(
            p,
            Process {
                state: State::Suspended,
                priority,
                parent,
                name: padded_name(name),
                stack: stack.0,
                stack_size: stack.1,
                rest: Rest::Nothing,
            },
        );
        self.set_last(p);
    }

    /// Frees the number of `p`, which is in no list: its entry is what it was at the start. It may be the current process.
    pub fn free_part(&mut self, lists: &Lists, p: Pid)
        requires absent { place (table.lists lists.now) p ≡ None }
        requires fits { Fits (table.lists lists.now) self.old.processes }
        ensures procs { self.new ≡ with_process p no_process self.old }
        ensures freed { (b : Beside) (m : Option ℕ) → tables_of (table.lists lists.now) self.new (with_message p m b) ≡
            move_to p no_process m Nowhere (tables_of (table.lists lists.now) self.old b) }
        ensures fits { Fits (table.lists lists.now) self.new.processes }
    {
        self.set_process(p, free_entry());
    }

    // The first free number from one on, below an end.
    fn free_within(&self, from: usize, end: usize) -> Option<Pid>
        requires end_in { end ≤ 64 }
        ensures first { result ≡ find (λ p. is_free (process_in self.now.processes p).state) (numbers_from from (end - from)) }
    {
        for number in from..end {
            let p = Pid::at(number);
            if self.is_free(p) {
                return Some(p);
            }
        }
        None
    }

    // The last number given.
    fn set_last(&mut self, p: Pid)
        ensures procs { self.new ≡ record self.old { last_process = p } }
    {
        self.last = p;
    }
}

// A name with zeros after its end.
fn padded_name(name: &[u8]) -> [u8; 15]
    requires short { length name.now ≤ 15 }
    ensures padded { result ≡ padded name.now }
{
    let mut bytes = [0; 15];
    bytes[..name.len()].copy_from_slice(name);
    bytes
}
