//! A strip of the picture: its rows, and what happens in its columns.

use crate::bands::Band;
use crate::frame::{BAND, BAND_HEIGHT, DEVICE, Frame, HEADS, PROCESS};
use crate::ink::{
    END, arrow, at, bar, begin_words, content, event_of, outline, path, place_words, title,
    width_of, words,
};
use crate::labels::{Label, Lane, Link, Mark};
use crate::layout::{AFTER_MARK, LEFT, MARGIN, WORD};
use crate::rows::Row;
use printed_runs::Text;

/// The lanes of the devices, with the name of each device, and of a part of it.
const DEVICE_NAMES: [(Lane, &str, &str); 5] = [
    (Lane::Typed, "console", "typed"),
    (Lane::Sent, "console", "sent"),
    (Lane::Disk0, "disk 0", ""),
    (Lane::Disk1, "disk 1", ""),
    (Lane::Clock, "clock", ""),
];

/// Draws a strip.
pub(crate) fn draw_strip(ink: &mut Text, frame: &Frame<'_>) {
    draw_gaps(ink, frame);
    draw_heads(ink, frame);
    let mut lines = Text::new(ink.alloc());
    draw_processes(ink, &mut lines, frame);
    draw_devices(ink, &mut lines, frame);
    outline(ink, "k", &lines);
    for band in frame.bands {
        if band.is_kept_in(frame.strip) {
            draw_kept(ink, *band, frame);
        }
    }
    for column in frame.strip.from..frame.strip.to {
        draw_column(ink, column, frame);
    }
    for link in frame.links {
        if frame.strip.has(link.column) {
            draw_link(ink, *link, frame);
        }
    }
}

// Draws the stretches of quiet events, each with their number.
fn draw_gaps(ink: &mut Text, frame: &Frame<'_>) {
    let bottom = frame.bottom();
    let mut gaps = Text::new(ink.alloc());
    ink.put("<g class=\"q\">");
    for k in frame.strip.from..frame.strip.to {
        if let (Some(column), Some(place)) = (frame.columns.get(k), frame.places.get(k)) {
            if !column.gap.is_empty() {
                at(&mut gaps, "M", place.gap);
                at(&mut gaps, " ", HEADS);
                at(&mut gaps, "H", place.x);
                at(&mut gaps, "V", bottom);
                at(&mut gaps, "H", place.gap);
                gaps.put("z");
                words(
                    ink,
                    "",
                    place.gap.saturating_add(3),
                    12,
                    column.gap.as_str(),
                );
            }
        }
    }
    ink.put("</g>\n");
    outline(ink, "g", &gaps);
}

// Draws the heads of the columns, and a line below each.
fn draw_heads(ink: &mut Text, frame: &Frame<'_>) {
    let bottom = frame.bottom();
    let mut lines = Text::new(ink.alloc());
    ink.put("<g class=\"a\">");
    for k in frame.strip.from..frame.strip.to {
        if let (Some(column), Some(place)) = (frame.columns.get(k), frame.places.get(k)) {
            at(&mut lines, "M", place.x);
            at(&mut lines, " ", HEADS);
            at(&mut lines, "V", bottom);
            let class = if column.is_alarm { "z" } else { "" };
            ink.put("<text");
            event_of(ink, column.event);
            place_words(ink, class, place.x.saturating_add(3), 12);
            content(ink, column.head.as_str());
            ink.put(END);
        }
    }
    ink.put("</g>\n");
    outline(ink, "k", &lines);
}

// Draws the names of the processes, and adds the line below each row.
fn draw_processes(ink: &mut Text, lines: &mut Text, frame: &Frame<'_>) {
    for (number, row) in frame.rows.iter().enumerate() {
        if let Some(top) = frame.top_of(Lane::Process(number)) {
            draw_process(ink, row, top, row.first >= frame.strip.from);
            add_line(lines, top.saturating_add(PROCESS), frame.strip.end);
        }
    }
}

// Draws the name of a process, and its priority if its row begins here.
fn draw_process(ink: &mut Text, row: &Row, top: u32, is_new: bool) {
    begin_words(ink, "n", MARGIN, top.saturating_add(13));
    ink.number(row.number as u64);
    ink.put(" ");
    content(ink, row.made.name.as_str());
    ink.put(END);
    if is_new {
        begin_words(ink, "q", MARGIN, top.saturating_add(26));
        at(ink, "priority ", row.made.priority);
        ink.put(END);
    }
}

// Draws the names of the devices, and adds the line below each row.
fn draw_devices(ink: &mut Text, lines: &mut Text, frame: &Frame<'_>) {
    for (lane, name, part) in DEVICE_NAMES {
        if let Some(top) = frame.top_of(lane) {
            let y = top.saturating_add(12);
            if lane != Lane::Sent || frame.top_of(Lane::Typed).is_none() {
                words(ink, "n", MARGIN, y, name);
            }
            if !part.is_empty() {
                words(ink, "e", LEFT - 8, y, part);
            }
            add_line(lines, top.saturating_add(DEVICE), frame.strip.end);
        }
    }
}

// Adds the line below a row.
fn add_line(lines: &mut Text, y: u32, end: u32) {
    at(lines, "M", MARGIN);
    at(lines, " ", y);
    at(lines, "H", end);
}

// Draws the line from an event to a process that it made ready.
fn draw_link(ink: &mut Text, link: Link, frame: &Frame<'_>) {
    let from = frame.top_of(link.from);
    let to = frame.top_of(Lane::Process(link.row));
    if let (Some(from), Some(row)) = (from, to) {
        let x = frame.x_of(link.column);
        let band = row.saturating_add(BAND);
        if from < row {
            let start = from.saturating_add(BAND + BAND_HEIGHT);
            arrow(ink, (x, start), band, "l-3 -5h6l-3 5");
        } else {
            let start = from.saturating_add(5);
            arrow(
                ink,
                (x, start),
                band.saturating_add(BAND_HEIGHT),
                "l-3 5h6l-3 -5",
            );
        }
    }
}

// Draws a band that began in an earlier strip, with the title of its first column.
fn draw_kept(ink: &mut Text, band: Band, frame: &Frame<'_>) {
    if let Some(column) = frame.columns.get(band.from) {
        ink.put("<g class=\"b\">");
        title(ink, column.title.as_str(), column.lines.as_str());
        draw_band(ink, band, LEFT, frame);
        ink.put("</g>\n");
    }
}

// Draws what happens in a column: the bands that begin, and the marks.
fn draw_column(ink: &mut Text, k: usize, frame: &Frame<'_>) {
    let Some(column) = frame.columns.get(k) else {
        return;
    };
    let x = frame.x_of(k);
    ink.put("<g");
    event_of(ink, column.event);
    ink.put(">");
    title(ink, column.title.as_str(), column.lines.as_str());
    for band in frame.bands {
        if band.from == k {
            draw_band(ink, *band, x, frame);
        }
    }
    for label in frame.labels {
        if label.column == k {
            draw_label(ink, label, x, frame);
        }
    }
    ink.put("</g>\n");
}

// Draws a band from a place on, with its word or letter if there is room for it.
fn draw_band(ink: &mut Text, band: Band, x: u32, frame: &Frame<'_>) {
    if let Some(top) = frame.top_of(Lane::Process(band.row)) {
        let y = top.saturating_add(BAND);
        let width = frame.x_of(band.to).saturating_sub(x);
        bar(ink, band.letter(), (x, y), (width, BAND_HEIGHT));
        let text = band_text(ink, band, width);
        if !text.is_empty() {
            let class = if band.is_dark() { "v" } else { "w" };
            begin_words(ink, class, x.saturating_add(5), y.saturating_add(10));
            ink.add(&text);
            ink.put(END);
        }
    }
}

// The longest text for a band that it has room for: its word with more, its word, its letter, or none.
fn band_text(ink: &Text, band: Band, width: u32) -> Text {
    let long = band.long_word(ink.alloc());
    if !long.is_empty() && has_room(width, &long) {
        return long;
    }
    let word = band.word(ink.alloc());
    if has_room(width, &word) {
        return word;
    }
    let mut letter = Text::new(ink.alloc());
    if width >= 14 {
        letter.put(band.letter());
    }
    letter
}

// Whether a band of a width has room for a text.
fn has_room(width: u32, text: &Text) -> bool {
    width_of(text.len(), WORD).saturating_add(8) <= width
}

// Draws the mark of a label, and its text.
fn draw_label(ink: &mut Text, label: &Label, x: u32, frame: &Frame<'_>) {
    if let Some(top) = frame.top_of(label.lane) {
        draw_mark(ink, label.mark, x, top.saturating_add(4));
        if !label.text.is_empty() {
            let class = if matches!(label.mark, Mark::Trap) {
                "z"
            } else {
                ""
            };
            let x = x.saturating_add(AFTER_MARK);
            words(ink, class, x, top.saturating_add(11), label.text.as_str());
        }
    }
}

// Draws a mark.
fn draw_mark(ink: &mut Text, mark: Mark, x: u32, y: u32) {
    let x1 = x.saturating_add(1);
    match mark {
        Mark::Call => path(ink, "c", x1, y, "l5 3.5-5 3.5z"),
        Mark::Reply => path(ink, "r", x.saturating_add(6), y, "l-5 3.5 5 3.5z"),
        Mark::Trap => path(ink, "t", x.saturating_add(4), y, "l-3 4h2l-1 4 4-5h-2l2-3z"),
        Mark::Death => path(
            ink,
            "d",
            x.saturating_sub(4),
            y.saturating_add(13),
            "l8 8m0-8l-8 8",
        ),
        Mark::Device => path(ink, "m", x1, y, "v8"),
    }
}
