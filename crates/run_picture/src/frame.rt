//! A strip with what the picture shows: which rows there are in it, and how far below its top each is.

use crate::bands::Band;
use crate::columns::Column;
use crate::labels::{DEVICES, Label, Lane, Link};
use crate::layout::{Place, Strip};
use crate::rows::Row;

/// How far below the top of a strip its rows begin.
pub(crate) const HEADS: u32 = 18;
/// How high the row of a process is, and how far below its top its band is.
pub(crate) const PROCESS: u32 = 34;

pub(crate) const BAND: u32 = 15;
/// How high a band is.
pub(crate) const BAND_HEIGHT: u32 = 13;
/// How high a lane of a device is.
pub(crate) const DEVICE: u32 = 17;
/// How far the rows of devices are below those of processes.
pub(crate) const BETWEEN: u32 = 6;

/// What the picture shows, and the strip of it that is drawn. The rows of a strip are those of the processes that live in it, and below them
/// the lanes of devices in which something happens in it.
#[derive(Clone, Copy)]
pub(crate) struct Frame<'a> {
    pub(crate) columns: &'a [Column],
    pub(crate) places: &'a [Place],
    pub(crate) rows: &'a [Row],
    pub(crate) bands: &'a [Band],
    pub(crate) labels: &'a [Label],
    pub(crate) links: &'a [Link],
    pub(crate) strip: Strip,
    /// Which lanes of devices there are, and how far below the top the first one begins.
    pub(crate) used: [bool; DEVICES],
    pub(crate) below: u32,
}

impl Frame<'_> {
    /// How far below the top of the strip a lane begins, if it is one of its lanes.
    pub(crate) fn top_of(&self, lane: Lane) -> Option<u32> {
        match lane {
            Lane::Process(row) => self.top_of_row(row),
            lane => self.top_of_device(lane.device()),
        }
    }

    /// How far below the top of the strip its rows end.
    pub(crate) fn bottom(&self) -> u32 {
        self.below.saturating_add(height_of(&self.used))
    }

    /// The left edge of a column, or where the strip ends if it isn't one of its columns.
    pub(crate) fn x_of(&self, column: usize) -> u32 {
        match self.places.get(column) {
            Some(place) if column < self.strip.to => place.x,
            _ => self.strip.end,
        }
    }

    // How far below the top of the strip the row of a process begins.
    fn top_of_row(&self, number: usize) -> Option<u32> {
        let row = self.rows.get(number)?;
        if row.is_in(self.strip) {
            Some(height_before(self.rows, number, self.strip))
        } else {
            None
        }
    }

    // How far below the top of the strip the lane of a device begins.
    fn top_of_device(&self, device: usize) -> Option<u32> {
        match self.used.get(device) {
            Some(true) => {
                let before = height_of(self.used.get(..device).unwrap_or(&[]));
                Some(self.below.saturating_add(before))
            }
            _ => None,
        }
    }
}

/// How far below the top of a strip the row of this number begins, or would begin.
pub(crate) fn height_before(rows: &[Row], number: usize, strip: Strip) -> u32 {
    let mut height = HEADS;
    for row in rows.iter().take(number) {
        if row.is_in(strip) {
            height = height.saturating_add(PROCESS);
        }
    }
    height
}

/// The lanes of devices in which something happens in a strip.
pub(crate) fn used_in(labels: &[Label], strip: Strip) -> [bool; DEVICES] {
    let mut used = [false; DEVICES];
    for label in labels {
        if strip.has(label.column) {
            if let Some(is_used) = used.get_mut(label.lane.device()) {
                *is_used = true;
            }
        }
    }
    used
}

// How high the used ones of these lanes of devices are.
fn height_of(used: &[bool]) -> u32 {
    let mut height = 0u32;
    for is_used in used {
        if *is_used {
            height = height.saturating_add(DEVICE);
        }
    }
    height
}
