//! The lines of an event, read for the marks that they make.

use crate::labels::{Lane, Mark};
use printed_runs::{Text, number_of};
use std::alloc::Global;
use xinu_base::Event;

/// How long a text in the lane of a device may be before nothing more is added.
const LONGEST_LANE: usize = 60;

/// What a mark says, and in which lane: the processes are named by their numbers.
#[derive(Drop)]
pub(crate) struct Note {
    pub(crate) lane: Lane,
    pub(crate) mark: Mark,
    pub(crate) text: Text,
}

/// The notes of an event.
#[derive(Drop)]
pub(crate) struct Notes {
    alloc: Global,
    pub(crate) notes: Vec<Note>,
    /// Whether memory never ran out for them.
    pub(crate) is_whole: bool,
}

/// The notes of an event: a call with its reply is one, and so are all lines of the files' disk.
pub(crate) fn notes_of(alloc: Global, event: Event, lines: &str, ticks: u32) -> Notes {
    let mut notes = Notes {
        alloc,
        notes: Vec::new(alloc),
        is_whole: true,
    };
    notes.add_event(event, ticks);
    if !matches!(event, Event::Dump) {
        for line in lines.lines() {
            notes.add_line(line);
        }
    }
    notes
}

impl Notes {
    // Adds a note.
    fn add(&mut self, lane: Lane, mark: Mark, text: Text) {
        let note = Note { lane, mark, text };
        self.is_whole = self.is_whole && self.notes.push(note).is_ok();
    }

    // Adds the note of an event that isn't a step.
    fn add_event(&mut self, event: Event, ticks: u32) {
        let (lane, word) = match event {
            Event::Step | Event::Tx => return,
            Event::Tick => (Lane::Clock, ""),
            Event::Dump => (Lane::Clock, "tables"),
            Event::Key(_) => (Lane::Typed, ""),
            Event::Disk0 => (Lane::Disk0, "done"),
            Event::Fail0 => (Lane::Disk0, "failed"),
            Event::Disk1 => (Lane::Disk1, "done"),
            Event::Fail1 => (Lane::Disk1, "failed"),
        };
        let mut text = Text::of(self.alloc, word);
        match event {
            Event::Tick => text.number(ticks as u64),
            Event::Key(byte) => add_character(&mut text, byte),
            _ => {}
        }
        self.add(lane, Mark::Device, text);
    }

    // Adds the note of a line.
    fn add_line(&mut self, line: &str) {
        let mut words = line.split_whitespace();
        let kind = words.next().unwrap_or("");
        let first = words.next();
        let second = words.next().unwrap_or("");
        let process = number_of(first);
        match kind {
            "call" => self.add(lane_of(process), Mark::Call, call_text(self.alloc, line)),
            "trap" => self.add_after(lane_of(process), Mark::Trap, "trap ", second),
            "ret" => self.add_reply(process as usize, second),
            "con" => self.add(
                Lane::Sent,
                Mark::Device,
                sent(self.alloc, first.unwrap_or("")),
            ),
            "file" => self.add_file(process, second),
            _ => {}
        }
    }

    // Adds a note of a word after another.
    fn add_after(&mut self, lane: Lane, mark: Mark, before: &str, word: &str) {
        let mut text = Text::of(self.alloc, before);
        text.put(word);
        self.add(lane, mark, text);
    }

    // Adds a reply: to the call of the same process if there is one in this event, and else by itself.
    fn add_reply(&mut self, process: usize, value: &str) {
        for note in self.notes.iter_mut() {
            if note.is_call_of(process) {
                note.text.put(" = ");
                note.text.put(value);
                return;
            }
        }
        self.add_after(Lane::Process(process), Mark::Reply, "= ", value);
    }

    // Adds what became of a call on files, to what the disk's lane says already if it does.
    fn add_file(&mut self, process: u32, moment: &str) {
        let mut text = Text::new(self.alloc);
        text.numbered(" ", process as u64);
        text.put(" ");
        text.put(moment);
        for note in self.notes.iter_mut() {
            if matches!(note.lane, Lane::Disk1) {
                return add_to_lane(&mut note.text, &text);
            }
        }
        self.add(Lane::Disk1, Mark::Device, text);
    }
}

// The lane of a process.
fn lane_of(process: u32) -> Lane {
    Lane::Process(process as usize)
}

// A byte as it is shown: a printable character as it is, a blank as an open box, a control character by its name or after a `^`, others in
// hexadecimal.
fn add_character(text: &mut Text, byte: u8) {
    match byte {
        b' ' => text.put("\u{2423}"),
        b'!'..=b'~' => text.character(char::from(byte)),
        b'\n' => text.put("\\n"),
        b'\r' => text.put("\\r"),
        8 => text.put("\\b"),
        1..=26 => {
            text.put("^");
            text.character(char::from(byte.saturating_add(64)));
        }
        _ => text.byte(byte),
    }
}

// A call: its name, and its arguments if it has at most two.
fn call_text(alloc: Global, line: &str) -> Text {
    let mut text = Text::new(alloc);
    let few = line.split_whitespace().count() <= 5;
    for word in line.split_whitespace().skip(2) {
        if !text.is_empty() {
            if !few {
                return text;
            }
            text.put(" ");
        }
        text.put(word);
    }
    text
}

// Adds a text to what a lane says, if it isn't long already.
fn add_to_lane(lane: &mut Text, text: &Text) {
    if lane.len() < LONGEST_LANE {
        lane.add(text);
    } else if !lane.as_str().ends_with("..") {
        lane.put(" ..");
    }
}

/// Whether these lines say nothing but that the console sent bytes.
pub(crate) fn are_sent(lines: &str) -> bool {
    for line in lines.lines() {
        if !line.starts_with("con ") {
            return false;
        }
    }
    true
}

// The byte of a line `con`, as it is shown.
fn sent(alloc: Global, digits: &str) -> Text {
    let mut text = Text::new(alloc);
    match u8::from_str_radix(digits, 16) {
        Ok(byte) => add_character(&mut text, byte),
        Err(_) => text.put(digits),
    }
    text
}

impl Note {
    // Whether this is a call of a process.
    fn is_call_of(&self, process: usize) -> bool {
        matches!(self.mark, Mark::Call) && matches!(self.lane, Lane::Process(p) if p == process)
    }
}
