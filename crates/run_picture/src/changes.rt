//! What each process does: the bands of its row, and what made it ready.

use crate::bands::Band;
use crate::labels::{Lane, Link, Mark};
use crate::recording::Recording;
use crate::rows::Row;
use printed_runs::{ABSENT, Doing, Shown, Text, User, made_as};
use xinu_base::State;

impl Recording {
    /// Notes what each process does now, and that the event is of this lane, unless this is the start.
    pub(crate) fn change(&mut self, shown: &Shown, tables: &str, source: Option<Lane>) {
        for (p, now) in shown.doings.iter().enumerate() {
            self.change_one(p, *now, tables, source);
        }
        let kept = Text::of(self.alloc, tables);
        self.note(kept.is_whole());
        self.tables = kept;
    }

    // Notes what the process of a number does now.
    fn change_one(&mut self, p: usize, now: Doing, tables: &str, source: Option<Lane>) {
        let was = self.shown.get(p).copied().unwrap_or(ABSENT);
        if was == now {
            return;
        }
        if was.lives() {
            self.end_band(p);
        } else {
            self.add_row(p, tables);
        }
        if now.lives() {
            self.add_band(p, now);
        } else {
            self.end_row(p);
        }
        if was.lives() && !was.is_ready() && now.is_ready() {
            self.add_link(self.row(p), source);
        }
        if let Some(place) = self.shown.get_mut(p) {
            *place = now;
        }
    }

    // The row of the process of a number.
    fn row(&self, p: usize) -> usize {
        self.row_of.get(p).copied().unwrap_or(0)
    }

    // Adds a row for the new process of a number.
    fn add_row(&mut self, p: usize, tables: &str) {
        if let Some(place) = self.row_of.get_mut(p) {
            *place = self.rows.len();
        }
        let row = Row {
            number: p,
            made: made_as(self.alloc, tables, u32::try_from(p).unwrap_or(0)),
            first: self.column(),
            last: usize::MAX,
        };
        self.note(row.made.name.is_whole());
        self.is_whole = self.is_whole && self.rows.push(row).is_ok();
    }

    // Ends the row of a process that died.
    fn end_row(&mut self, p: usize) {
        let column = self.column();
        let row = self.row(p);
        if let Some(place) = self.rows.get_mut(row) {
            place.last = column;
        }
        self.add_label(Lane::Process(row), Mark::Death, Text::new(self.alloc));
    }

    // Begins a band.
    fn add_band(&mut self, p: usize, doing: Doing) {
        if let Some(place) = self.band_of.get_mut(p) {
            *place = self.bands.len();
        }
        let band = Band {
            row: self.row(p),
            from: self.column(),
            to: usize::MAX,
            doing,
            is_idle: p == 0 && matches!(doing.state, State::Current),
            taker: self.taker(doing),
        };
        self.is_whole = self.is_whole && self.bands.push(band).is_ok();
    }

    // Who took the semaphore last for which a process waits, if it waits for one and somebody did.
    fn taker(&self, doing: Doing) -> Option<User> {
        match self.reader.usage(doing) {
            Some(usage) => usage.taker,
            None => None,
        }
    }

    // Ends the last band of a process.
    fn end_band(&mut self, p: usize) {
        let column = self.column();
        let band = self.band_of.get(p).copied().unwrap_or(0);
        if let Some(place) = self.bands.get_mut(band) {
            place.to = column;
        }
    }

    // Links the event to the row of a process that it made ready, unless it is of the same lane.
    fn add_link(&mut self, row: usize, source: Option<Lane>) {
        if let Some(from) = source {
            if from != Lane::Process(row) {
                let column = self.column();
                let link = Link { column, from, row };
                self.is_whole = self.is_whole && self.links.push(link).is_ok();
            }
        }
    }
}
