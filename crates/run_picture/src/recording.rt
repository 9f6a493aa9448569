//! What is kept of a run while its events are taken: what the picture shows.

use crate::bands::Band;
use crate::columns::Column;
use crate::labels::{Label, Lane, Link, Mark};
use crate::lines::{Note, Notes, are_sent, notes_of};
use crate::rows::Row;
use printed_runs::{ABSENT, Doing, Reader, Shown, Text};
use std::alloc::Global;
use xinu_base::{Event, State};

/// From how many characters of a text on the bytes that follow it have a column of their own.
const LONG: usize = 40;

/// How the picture ends.
#[derive(Clone, Copy)]
pub enum Ending {
    /// The run goes on after the last event that is drawn.
    GoesOn,
    /// All events of the schedule were taken.
    Schedule,
    /// No process but the null process is left.
    Done,
    /// The kernel panicked.
    Panic,
}

/// What the picture shows of a run.
pub struct Recording {
    pub(crate) alloc: Global,
    pub(crate) columns: Vec<Column>,
    pub(crate) rows: Vec<Row>,
    pub(crate) bands: Vec<Band>,
    pub(crate) labels: Vec<Label>,
    pub(crate) links: Vec<Link>,
    /// What each process is doing, by its number, and its row and its last band.
    pub(crate) shown: [Doing; 64],
    pub(crate) row_of: [usize; 64],
    pub(crate) band_of: [usize; 64],
    pub(crate) reader: Reader,
    /// How many events were drawn.
    drawn: u64,
    /// The tables after the last event that was looked at.
    pub(crate) tables: Text,
    /// How many events since the last column changed and printed nothing, and whether all were steps.
    quiet: u64,
    are_steps: bool,
    /// Whether memory never ran out for it.
    pub(crate) is_whole: bool,
}

impl Drop for Recording {
    fn drop(self) {
        let Recording {
            alloc: _alloc,
            columns: _columns,
            rows: _rows,
            bands: _bands,
            labels: _labels,
            links: _links,
            shown: _shown,
            row_of: _row_of,
            band_of: _band_of,
            reader: _reader,
            drawn: _drawn,
            tables: _tables,
            quiet: _quiet,
            are_steps: _are_steps,
            is_whole: _is_whole,
        } = self;
    }
}

impl Recording {
    /// A recording of nothing.
    pub fn new(alloc: Global) -> Recording {
        Recording {
            alloc,
            columns: Vec::new(alloc),
            rows: Vec::new(alloc),
            bands: Vec::new(alloc),
            labels: Vec::new(alloc),
            links: Vec::new(alloc),
            shown: [ABSENT; 64],
            row_of: [0; 64],
            band_of: [0; 64],
            reader: Reader::new(),
            drawn: 0,
            tables: Text::new(alloc),
            quiet: 0,
            are_steps: true,
            is_whole: true,
        }
    }

    /// Whether the picture has begun.
    pub fn has_begun(&self) -> bool {
        !self.columns.is_empty()
    }

    /// How many events are drawn.
    pub fn drawn(&self) -> u64 {
        self.drawn
    }

    /// Whether memory never ran out for it so far.
    pub fn is_whole(&self) -> bool {
        self.is_whole
    }

    /// Notes the lines of an event before the picture. Processes may still wait for what they asked for in it.
    pub fn pass(&mut self, lines: &str) {
        self.reader.note(lines);
    }

    /// Begins the picture after the event of this number, which printed these lines, with these tables.
    pub fn begin(&mut self, number: u64, lines: &str, tables: &str) {
        let mut column = Column::new(self.alloc, lines);
        if number == 0 {
            column.start();
        } else {
            column.number(number);
        }
        self.add_column(column);
        let shown = self.reader.read(tables);
        self.change(&shown, tables, None)
    }

    /// Notes an event that changed and printed nothing.
    pub fn quiet(&mut self, event: Event) {
        self.quiet = self.quiet.saturating_add(1);
        self.are_steps &= matches!(event, Event::Step);
    }

    /// Whether the tables after an event have to be looked at: not if it printed nothing and is one that then changes nothing.
    pub fn needs_tables(event: Event, lines: &str) -> bool {
        !lines.is_empty() || !matches!(event, Event::Step | Event::Tx)
    }

    /// Draws the event of this number, which printed these lines and left these tables. One that changed and printed nothing isn't drawn,
    /// unless it is a tick or a key. One that only moved a byte of the console goes into the column before it, if the events of that did
    /// the same.
    pub fn event(&mut self, number: u64, event: Event, lines: &str, tables: &str) {
        let is_drawn = !lines.is_empty() || matches!(event, Event::Tick | Event::Key(_));
        if is_drawn || tables != self.tables.as_str() {
            self.draw(number, event, lines, tables);
        } else {
            self.quiet(event);
        }
    }

    // Draws an event.
    fn draw(&mut self, number: u64, event: Event, lines: &str, tables: &str) {
        self.drawn = self.drawn.saturating_add(1);
        self.pass(lines);
        let shown = self.reader.read(tables);
        let is_burst = matches!(event, Event::Key(_) | Event::Tx)
            && are_sent(lines)
            && self.shows(&shown);
        self.place(number, lines, is_burst);
        let source = self.source_of(event);
        self.add_notes(notes_of(self.alloc, event, lines, shown.ticks));
        self.change(&shown, tables, Some(source));
    }

    /// Ends the picture.
    pub fn end(&mut self, ending: Ending) {
        let mut column = Column::new(self.alloc, "");
        column.end(ending, self.waiting());
        self.add_column(column);
    }

    // How many processes wait for something that no tick of the clock brings.
    fn waiting(&self) -> u64 {
        let mut waiting = 0u64;
        for doing in &self.shown {
            if matches!(
                doing.state,
                State::Receiving | State::Waiting | State::Suspended
            ) {
                waiting = waiting.saturating_add(1);
            }
        }
        waiting
    }

    // Whether each process does what these tables show.
    fn shows(&self, shown: &Shown) -> bool {
        for (was, is) in self.shown.iter().zip(shown.doings.iter()) {
            if was != is {
                return false;
            }
        }
        true
    }

    // Places the event of this number in a column: in the last one if both only move bytes of the console, and else in a new one.
    fn place(&mut self, number: u64, lines: &str, is_burst: bool) {
        let has_room = is_burst && self.has_room();
        if let Some(column) = self.columns.last_mut() {
            if let (Some(first), true) = (column.burst, has_room) {
                column.join(first, number, lines);
                self.quiet = 0;
                self.are_steps = true;
                return;
            }
        }
        let mut column = Column::new(self.alloc, lines);
        column.number(number);
        if is_burst {
            column.burst = Some(number);
        }
        self.add_column(column);
    }

    // Whether no text of the last column is long.
    fn has_room(&self) -> bool {
        let last = self.column();
        for label in self.labels.as_slice() {
            if label.column == last && label.text.as_str().chars().count() >= LONG {
                return false;
            }
        }
        true
    }

    // The column that is drawn now.
    pub(crate) fn column(&self) -> usize {
        self.columns.len().saturating_sub(1)
    }

    // Adds a column after the events that changed and printed nothing.
    fn add_column(&mut self, column: Column) {
        let mut column = column;
        column.leave(self.quiet, self.are_steps);
        self.is_whole = self.is_whole && self.columns.push(column).is_ok();
        self.quiet = 0;
        self.are_steps = true;
    }

    // Notes whether memory never ran out for something that is shown.
    pub(crate) fn note(&mut self, is_whole: bool) {
        self.is_whole = self.is_whole && is_whole;
    }

    // The lane in which an event happens.
    fn source_of(&self, event: Event) -> Lane {
        match event {
            Event::Step => Lane::Process(self.current_row()),
            Event::Tick | Event::Dump => Lane::Clock,
            Event::Key(_) => Lane::Typed,
            Event::Tx => Lane::Sent,
            Event::Disk0 | Event::Fail0 => Lane::Disk0,
            Event::Disk1 | Event::Fail1 => Lane::Disk1,
        }
    }

    // The row of the current process.
    fn current_row(&self) -> usize {
        for (doing, row) in self.shown.iter().zip(self.row_of.iter()) {
            if matches!(doing.state, State::Current) {
                return *row;
            }
        }
        0
    }

    // Adds the notes of an event.
    fn add_notes(&mut self, notes: Notes) {
        self.note(notes.is_whole);
        for note in notes.notes {
            self.add_note(note);
        }
    }

    // Adds a note, in the row that its process has.
    fn add_note(&mut self, note: Note) {
        let lane = match note.lane {
            Lane::Process(p) => match self.row_of.get(p) {
                Some(row) => Lane::Process(*row),
                None => return,
            },
            lane => lane,
        };
        self.add_label(lane, note.mark, note.text);
    }

    // Adds a label in the column that is drawn now. A byte of the console goes after those that came before it in the column.
    pub(crate) fn add_label(&mut self, lane: Lane, mark: Mark, text: Text) {
        let column = self.column();
        if self.is_burst() {
            for label in self.labels.iter_mut() {
                if label.column == column && label.lane == lane {
                    return label.text.add(&text);
                }
            }
        }
        let label = Label {
            column,
            lane,
            mark,
            text,
        };
        self.is_whole = self.is_whole && self.labels.push(label).is_ok();
    }

    // Whether the column that is drawn now only moves bytes of the console.
    fn is_burst(&self) -> bool {
        match self.columns.last() {
            Some(column) => column.burst.is_some(),
            None => false,
        }
    }
}
