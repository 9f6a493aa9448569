//! The reader of a run's tables, which is told the lines of each event.

ghost use Rattle.std.specs.Prelude.{◌≡◌, [], List, IfSome};
ghost use Rattle.printed_runs.specs.Notes.{said_after};
ghost use Rattle.printed_runs.specs.Semaphores as specs;
ghost use Rattle.printed_runs.specs.Semaphores.{Knows};
ghost use Rattle.printed_runs.specs.declared.notes.Note.{Note};
ghost use Rattle.text_lines.specs.Lines.{lines_of};

use crate::doings::{Awaited, Doing};
use crate::notes::note_of;
use crate::tables::{Shown, read_tables};
use crate::usages::{Usage, Usages};
use text_lines::first_line;
use xinu_base::Sem;

/// Reads tables, and knows what the lines of the events so far told: a table says on which semaphore a process waits, and a line for what.
#[derive(Clone, Copy)]
pub struct Reader {
    usages: Usages,
}

impl Reader {
    /// A reader that was told no line.
    pub fn new() -> Reader
        ensures knows { Knows [] result.usages }
    {
        Reader {
            usages: Usages::new(),
        }
    }

    /// Notes the lines of an event.
    pub fn note(&mut self, lines: &str)
        ensures knows { (said : List Note) → Knows said self.old.usages → Knows (said_after (lines_of lines.now) said) self.new.usages }
    {
        note_all(&mut self.usages, lines.as_bytes());
    }

    /// What tables show. A process that waits on a semaphore that processes made is said to wait for what its last call asked for, if it
    /// asked for a buffer or a port.
    pub fn read(&self, tables: &str) -> Shown {
        read_tables(tables, &self.usages.asked)
    }

    /// How the semaphore was used for which a process waits, if it waits for one.
    pub fn usage(&self, doing: Doing) -> Option<Usage>
        ensures usage { (said : List Note) → Knows said self.now.usages → IfSome result (λ u. u ≡ specs.usage said doing.number) }
    {
        match (doing.awaited, Sem::from_word(doing.number)) {
            (Awaited::Semaphore, Some(semaphore)) => Some(self.usages.usage(semaphore)),
            _ => None,
        }
    }
}

// Notes what the lines of a text say.
fn note_all(usages: &mut Usages, text: &[u8])
    ensures knows { (said : List Note) → Knows said usages.old → Knows (said_after (lines_of text.now) said) usages.new }
{
    let mut rest = text;
    while !rest.is_empty() {
        let (line, left) = first_line(rest);
        usages.note(note_of(line));
        rest = left;
    }
}
