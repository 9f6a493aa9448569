//! Where the columns of the picture are: from left to right, in strips as a text has lines.

use crate::columns::Column;
use crate::ink::width_of;
use crate::labels::Label;
use printed_runs::Text;
use std::alloc::Global;

/// How wide the picture is.
pub(crate) const WIDTH: u32 = 880;
/// How much is left free at its edges.
pub(crate) const MARGIN: u32 = 20;
/// Where the columns of a strip begin.
pub(crate) const LEFT: u32 = 150;
/// Where they end at the latest.
pub(crate) const RIGHT: u32 = 860;
/// The tenths of a character of a label, of a word in a band and of a head, in their fonts.
pub(crate) const LABEL: u32 = 67;

pub(crate) const WORD: u32 = 61;

pub(crate) const HEAD: u32 = 60;
/// How far after its mark the text of a label begins.
pub(crate) const AFTER_MARK: u32 = 10;

/// Where a column is: the stretch of quiet events before it, and its left edge; and how wide the two are.
#[derive(Clone, Copy)]
pub(crate) struct Place {
    pub(crate) gap: u32,
    pub(crate) x: u32,
    gap_width: u32,
    width: u32,
}

/// The columns from `from` on and before `to`, and where the last one ends.
#[derive(Clone, Copy)]
pub(crate) struct Strip {
    pub(crate) from: usize,
    pub(crate) to: usize,
    pub(crate) end: u32,
}

impl Strip {
    /// Whether a column is one of it.
    pub(crate) fn has(&self, column: usize) -> bool {
        self.from <= column && column < self.to
    }
}

/// The places of all columns, and the strips.
#[derive(Drop)]
pub(crate) struct Layout {
    pub(crate) places: Vec<Place>,
    pub(crate) strips: Vec<Strip>,
    /// Whether memory never ran out.
    pub(crate) is_whole: bool,
}

/// Lays the columns out.
pub(crate) fn laid_out(alloc: Global, columns: &[Column], labels: &[Label]) -> Layout {
    let mut layout = Layout {
        places: Vec::new(alloc),
        strips: Vec::new(alloc),
        is_whole: true,
    };
    for column in columns {
        layout.add_place(column);
    }
    for label in labels {
        layout.widen(label);
    }
    layout.fill_strips();
    layout
}

impl Layout {
    // Adds a column, as wide as its head and a letter in a band.
    fn add_place(&mut self, column: &Column) {
        let head = width_of(column.head.len(), HEAD).saturating_add(9);
        let place = Place {
            gap: 0,
            x: 0,
            gap_width: gap_width(&column.gap),
            width: head.max(18),
        };
        self.note(column.is_whole());
        self.is_whole = self.is_whole && self.places.push(place).is_ok();
    }

    // Makes the column of a label as wide as it.
    fn widen(&mut self, label: &Label) {
        let characters = label.text.as_str().chars().count();
        let width = width_of(characters, LABEL).saturating_add(AFTER_MARK + 10);
        self.note(label.text.is_whole());
        if let Some(place) = self.places.get_mut(label.column) {
            place.width = place.width.max(width);
        }
    }

    // Puts as many columns into each strip as it has room for.
    fn fill_strips(&mut self) {
        let mut strip = Strip {
            from: 0,
            to: 0,
            end: LEFT,
        };
        for k in 0..self.places.len() {
            let room = self.room_of(k);
            if strip.end.saturating_add(room) > RIGHT && strip.to > strip.from {
                spread(self.places.as_mut_slice(), strip);
                strip.end = RIGHT;
                self.add_strip(strip);
                strip.from = strip.to;
                strip.end = LEFT;
            }
            self.put(k, strip.end);
            strip.to = strip.to.saturating_add(1);
            strip.end = strip.end.saturating_add(room).min(RIGHT);
        }
        self.add_strip(strip);
    }

    // How wide a column is with the stretch before it.
    fn room_of(&self, k: usize) -> u32 {
        match self.places.get(k) {
            Some(place) => place.gap_width.saturating_add(place.width),
            None => 0,
        }
    }

    // Puts a column at a place, with the stretch before it.
    fn put(&mut self, k: usize, at: u32) {
        if let Some(place) = self.places.get_mut(k) {
            place.gap = at;
            place.x = at.saturating_add(place.gap_width);
        }
    }

    // Notes whether memory never ran out for what is laid out.
    fn note(&mut self, is_whole: bool) {
        self.is_whole = self.is_whole && is_whole;
    }

    // Adds a strip.
    fn add_strip(&mut self, strip: Strip) {
        self.is_whole = self.is_whole && self.strips.push(strip).is_ok();
    }
}

// Moves the columns of a strip apart, so that it ends at the right edge.
fn spread(places: &mut [Place], strip: Strip) {
    let free = RIGHT.saturating_sub(strip.end) as u64;
    let count = strip.to.saturating_sub(strip.from).max(1);
    for (k, place) in places.iter_mut().skip(strip.from).take(count).enumerate() {
        let more = free.saturating_mul(k as u64) / count as u64;
        let more = u32::try_from(more).unwrap_or(0);
        place.gap = place.gap.saturating_add(more);
        place.x = place.x.saturating_add(more);
    }
}

// How wide a stretch of quiet events is with this above it.
fn gap_width(gap: &Text) -> u32 {
    if gap.is_empty() {
        return 0;
    }
    width_of(gap.len(), HEAD).saturating_add(6)
}
