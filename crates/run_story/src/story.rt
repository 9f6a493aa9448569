//! What is kept of a run while its events are taken, and the text that tells it.

ghost use Rattle.std.specs.Prelude.{◌≡◌, [], List};
ghost use Rattle.printed_runs.specs.Semaphores.{Knows};
ghost use Rattle.printed_runs.specs.declared.notes.Note.{Note};
ghost use Rattle.run_story.specs.Said.{said_by};

use crate::circles::add_circles;
use crate::console::Stream;
use crate::lives::Lives;
use crate::traps::add_trap;
use crate::usages::add_usage;
use printed_runs::{Reader, Shown, Text};
use std::alloc::Global;
use xinu_base::Event;

/// What is known of a run so far.
pub struct Story {
    alloc: Global,
    reader: Reader,
    lives: Lives,
    /// How many events were taken.
    events: u64,
    /// What was typed, and what the console sent.
    typed: Stream,
    sent: Stream,
    /// What the console hasn't sent, and how many bytes that is.
    unsent: Stream,
    left: u64,
    /// The traps so far, in words.
    traps: Text,
}

impl Drop for Story {
    fn drop(self) {
        let Story {
            alloc: _alloc,
            reader: _reader,
            lives: _lives,
            events: _events,
            typed: _typed,
            sent: _sent,
            unsent: _unsent,
            left: _left,
            traps: _traps,
        } = self;
    }
}

impl Story {
    /// Of no event.
    pub fn new(alloc: Global) -> Story
        ensures knows { Knows [] result.reader.usages }
    {
        Story {
            alloc,
            reader: Reader::new(),
            lives: Lives::new(alloc),
            events: 0,
            typed: Stream::new(alloc),
            sent: Stream::new(alloc),
            unsent: Stream::new(alloc),
            left: 0,
            traps: Text::new(alloc),
        }
    }

    /// The run starts with these tables.
    pub fn begin(&mut self, tables: &str)
        ensures reader { self.new.reader ≡ self.old.reader }
    {
        self.change(tables);
    }

    /// Adds the number and the name of a process to a text, as `2 alice`.
    pub fn add_who(&self, text: &mut Text, process: usize) {
        self.lives.add_who(text, process);
    }

    /// Whether the tables after an event have to be told: not if it is a step or a transmission that printed nothing.
    pub fn needs_tables(event: Event, lines: &str) -> bool {
        !lines.is_empty() || !matches!(event, Event::Step | Event::Tx)
    }

    /// So many events were taken that printed nothing and changed nothing that a process does.
    pub fn quiet(&mut self, count: u64)
        ensures reader { self.new.reader ≡ self.old.reader }
    {
        self.events = self.events.saturating_add(count);
    }

    /// An event was taken that printed something, or may have changed what a process does: it printed these lines and left these tables.
    pub fn event(&mut self, event: Event, lines: &str, tables: &str)
        ensures knows { (said : List Note) → Knows said self.old.reader.usages → Knows (said_by event lines.now said) self.new.reader.usages }
    {
        note(&mut self.reader, event, lines);
        self.quiet(1);
        self.add(event, lines);
        self.change(tables);
    }

    /// More is known of the last trap: lines of text, which are told below it.
    pub fn detail(&mut self, text: &Text) {
        for line in text.as_str().lines() {
            self.traps.put("    ");
            self.traps.put(line);
            self.traps.put("\n");
        }
        self.traps.note(text.is_whole());
    }

    /// One byte more that the console hasn't sent.
    pub fn unsent(&mut self, byte: u8) {
        self.unsent.add(byte);
        self.left = self.left.saturating_add(1);
    }

    /// Tells the traps.
    pub fn tell_traps(&self, text: &mut Text) {
        text.note(self.lives.is_whole);
        text.add(&self.traps);
    }

    /// Tells how the semaphore was used for which a process waits, if it waits for one that processes made.
    pub fn tell_usage(&self, text: &mut Text, process: usize) {
        add_usage(text, &self.lives, &self.reader, self.lives.doing(process));
    }

    /// Tells who waits in a circle, and what the console showed.
    pub fn tell_rest(&self, text: &mut Text) {
        add_circles(text, &self.lives, &self.reader);
        self.sent.tell(text, "The console sent:\n");
        self.add_unsent(text);
        self.typed.tell(text, "Typed:\n");
    }

    // Tells what the console hasn't sent, if there is something.
    fn add_unsent(&self, text: &mut Text) {
        let mut head = Text::new(self.alloc);
        head.numbered("The console hasn't sent ", self.left);
        head.put(if self.left == 1 {
            " byte:\n"
        } else {
            " bytes:\n"
        });
        text.note(head.is_whole());
        self.unsent.tell(text, head.as_str());
    }

    // Notes what was typed or sent, and a trap.
    fn add(&mut self, event: Event, lines: &str)
        ensures reader { self.new.reader ≡ self.old.reader }
    {
        match event {
            Event::Dump => {}
            Event::Key(byte) => self.typed.add_typed(byte),
            _ => {
                self.sent.add_sent(lines);
                self.add_trap(lines);
            }
        }
    }

    // Notes what the processes do.
    fn change(&mut self, tables: &str)
        ensures reader { self.new.reader ≡ self.old.reader }
    {
        let shown: Shown = self.reader.read(tables);
        self.lives.change(&shown, tables);
    }

    // Tells of a trap, if the lines of an event do.
    fn add_trap(&mut self, lines: &str)
        ensures reader { self.new.reader ≡ self.old.reader }
    {
        if let Some(rest) = lines.lines().next().unwrap_or("").strip_prefix("trap ") {
            add_trap(&mut self.traps, self.events, &self.lives, rest);
        }
    }
}

// Notes what an event says of calls.
fn note(reader: &mut Reader, event: Event, lines: &str)
    ensures knows { (said : List Note) → Knows said reader.old.usages → Knows (said_by event lines.now said) reader.new.usages }
{
    match event {
        Event::Dump => {}
        _ => reader.note(lines),
    }
}
