//! The whole document.

use crate::frame::{BETWEEN, Frame, height_before, used_in};
use crate::ink::{at, title, words};
use crate::layout::{Layout, MARGIN, Strip, WIDTH, laid_out};
use crate::legend::{LEGEND, draw_legend};
use crate::recording::Recording;
use crate::strips::draw_strip;
use crate::style::STYLE;
use printed_runs::Text;
use std::alloc::AllocError;

/// How far from the top the heading, the legend and the first strip are.
const HEADING: u32 = 32;

const TOP: u32 = 48;
/// The most bytes of the strips. With what is before and after them, the document has at most 1000000.
const MOST_BYTES: usize = 990_000;
/// How much is left free between two strips.
const FREE: u32 = 22;

impl Recording {
    /// The picture, with this heading.
    ///
    /// # Errors
    /// Out of memory, also if it ran out while the events were told.
    pub fn picture(&self, heading: &Text) -> Result<String, AllocError> {
        let mut body = Text::new(self.alloc);
        words(&mut body, "h", MARGIN, HEADING, heading.as_str());
        draw_legend(&mut body, TOP);
        let layout = laid_out(self.alloc, self.columns.as_slice(), self.labels.as_slice());
        let height = self.draw_strips(&mut body, &layout, TOP + LEGEND + FREE);
        let mut ink = Text::new(self.alloc);
        begin_document(&mut ink, height, heading.as_str());
        ink.add(&body);
        ink.put("</svg>\n");
        ink.note(self.is_whole && layout.is_whole && heading.is_whole());
        ink.whole()
    }

    // Draws the strips below each other, as far as the document has room, and answers how high the picture is.
    fn draw_strips(&self, ink: &mut Text, layout: &Layout, top: u32) -> u32 {
        let mut y = top;
        for strip in layout.strips.as_slice() {
            let frame = self.frame(layout, *strip);
            let mut drawn = Text::new(self.alloc);
            draw_strip(&mut drawn, &frame);
            if ink.len().saturating_add(drawn.len()) > MOST_BYTES {
                let line = y.saturating_add(8);
                words(ink, "s", MARGIN, line, "The picture has no room for more.");
                return y.saturating_add(FREE);
            }
            at(ink, "<g transform=\"translate(0 ", y);
            ink.put(")\">\n");
            ink.add(&drawn);
            ink.put("</g>\n");
            y = y.saturating_add(frame.bottom()).saturating_add(FREE);
        }
        y
    }

    // What is shown, with a strip.
    fn frame<'a>(&'a self, layout: &'a Layout, strip: Strip) -> Frame<'a> {
        let rows = self.rows.as_slice();
        Frame {
            columns: self.columns.as_slice(),
            places: layout.places.as_slice(),
            rows,
            bands: self.bands.as_slice(),
            labels: self.labels.as_slice(),
            links: self.links.as_slice(),
            strip,
            used: used_in(self.labels.as_slice(), strip),
            below: height_before(rows, rows.len(), strip).saturating_add(BETWEEN),
        }
    }
}

// Writes what is ahead of the body of a document of this height.
fn begin_document(ink: &mut Text, height: u32, heading: &str) {
    ink.put("<svg xmlns=\"http://www.w3.org/2000/svg\" viewBox=\"0 0 ");
    at(ink, "", WIDTH);
    at(ink, " ", height);
    at(ink, "\" width=\"", WIDTH);
    ink.put("\" style=\"max-width:100%;height:auto\">\n");
    title(ink, heading, "");
    ink.put(STYLE);
    at(ink, "<path fill=\"#fff\" d=\"M0 0h", WIDTH);
    at(ink, "v", height);
    at(ink, "h-", WIDTH);
    ink.put("z\"/>\n");
}
