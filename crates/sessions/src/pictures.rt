//! What a picture shows, event by event: each text with the name of its row.

use std::alloc::{AllocError, Global};

/// The name of a row, and where it is written.
#[derive(Clone, Copy)]
struct Row<'a> {
    y: u32,
    name: &'a str,
}

/// What was read of a picture.
#[derive(Drop)]
struct Reader<'a> {
    /// The rows of the strip.
    rows: Vec<Row<'a>>,
    /// The title of the event.
    event: &'a str,
    /// Whether a text of the event was read.
    has_text: bool,
    /// The events so far, a line each.
    events: String,
}

/// The events of a picture, a line each: its title, and its texts with the names of their rows.
pub(crate) fn events_of(alloc: Global, picture: &str) -> Result<String, AllocError> {
    let mut reader = Reader {
        rows: Vec::new(alloc),
        event: "",
        has_text: false,
        events: String::new(alloc),
    };
    for line in picture.lines() {
        reader.read(line)?;
    }
    Ok(reader.events)
}

impl<'a> Reader<'a> {
    // Reads a line of the picture.
    fn read(&mut self, line: &'a str) -> Result<(), AllocError> {
        if let Some(title) = title_of(line) {
            self.event = title;
        } else if line.starts_with("<g transform") {
            self.event = "";
            self.rows.clear();
        } else if line.starts_with("<text class=\"n\"") {
            self.rows.push(Row {
                y: y_of(line),
                name: content(line),
            })?;
        } else if line.starts_with("<text") && !self.event.is_empty() {
            self.add_text(line)?;
        } else if line == "</g>" && self.has_text {
            self.events.push_str("\n")?;
            self.has_text = false;
        }
        Ok(())
    }

    // Adds a text with the name of its row.
    fn add_text(&mut self, line: &str) -> Result<(), AllocError> {
        if self.has_text {
            self.events.push_str(", ")?;
        } else {
            self.events.push_str(self.event)?;
            self.events.push_str(": ")?;
            self.has_text = true;
        }
        self.events
            .push_str(name_at(self.rows.as_slice(), y_of(line)))?;
        self.events.push_str(" ")?;
        self.events.push_str(content(line))
    }
}

// The title of the column that a line begins.
fn title_of(line: &str) -> Option<&str> {
    let (group, rest) = line.split_once("><title>")?;
    if group == "<g" || group.starts_with("<g data-event=") {
        Some(before(rest, "</title>"))
    } else {
        None
    }
}

// The name of the lowest row that begins above a height.
fn name_at<'a>(rows: &[Row<'a>], y: u32) -> &'a str {
    let mut name = "";
    for row in rows {
        if row.y <= y.saturating_add(3) {
            name = row.name;
        }
    }
    name
}

// What comes before an end, or all.
fn before<'a>(text: &'a str, end: &str) -> &'a str {
    match text.split_once(end) {
        Some((front, _)) => front,
        None => text,
    }
}

// The content of a text.
fn content(line: &str) -> &str {
    match line.split_once(">") {
        Some((_, rest)) => before(rest, "</text>"),
        None => "",
    }
}

// The height at which a text is written.
fn y_of(line: &str) -> u32 {
    match line.split_once("y=\"") {
        Some((_, rest)) => before(rest, "\"").parse::<u32>().unwrap_or(0),
        None => 0,
    }
}
