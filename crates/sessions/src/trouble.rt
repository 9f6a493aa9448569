//! Where a session isn't as it is written, and how that is told.

use std::alloc::{AllocError, Global};

/// A command and where it stands: the name of its text, the heading of its session, and the number of its line.
#[derive(Clone, Copy)]
pub(crate) struct Place<'a> {
    pub(crate) name: &'a str,
    pub(crate) heading: &'a str,
    pub(crate) line: u64,
    /// What it says after its `$`; nothing before the first one of a session.
    pub(crate) command: &'a str,
}

impl<'a> Place<'a> {
    /// The place so many lines below.
    pub(crate) fn below(self, lines: u64) -> Place<'a> {
        Place {
            line: self.line.saturating_add(lines),
            ..self
        }
    }

    /// The path of the file of this name in the folder of the text.
    pub(crate) fn beside(&self, alloc: Global, name: &str) -> Result<String, AllocError> {
        match self.name.rsplit_once("/") {
            Some((folder, _)) => format!(in alloc; "{folder}/{name}"),
            None => String::from_str(alloc, name),
        }
    }

    /// What is told of the place.
    pub(crate) fn told(&self, alloc: Global, what: &str) -> Result<String, AllocError> {
        format!(in alloc;
            "{}:{} ({})\n  {what}\n",
            self.name, self.line, self.heading
        )
    }
}

/// The first line in which what was printed isn't what was wanted.
#[derive(Clone, Copy)]
pub(crate) struct Difference<'a> {
    /// Its number among the lines that were wanted, from 1.
    pub(crate) line: u64,
    /// The line that was wanted, if there is one more.
    wanted: Option<&'a str>,
    /// The line that came.
    came: Option<&'a str>,
}

impl Difference<'_> {
    /// What was wanted, and what came.
    pub(crate) fn text(&self, alloc: Global) -> Result<String, AllocError> {
        let wanted = self.wanted.unwrap_or("(nothing more)");
        let came = self.came.unwrap_or("(nothing more)");
        format!(in alloc; "wanted: {wanted}\n  came:   {came}")
    }
}

/// The first difference of two texts, if their lines aren't the same.
pub(crate) fn first_difference<'a>(wanted: &'a str, came: &'a str) -> Option<Difference<'a>> {
    let mut came_lines = came.lines();
    let mut line: u64 = 0;
    for next in wanted.lines() {
        line = line.saturating_add(1);
        let came = came_lines.next();
        if !is_line(came, next) {
            return Some(Difference {
                line,
                wanted: Some(next),
                came,
            });
        }
    }
    match came_lines.next() {
        Some(more) => Some(Difference {
            line: line.saturating_add(1),
            wanted: None,
            came: Some(more),
        }),
        None => None,
    }
}

// Whether a line came, and it is this one.
fn is_line(came: Option<&str>, wanted: &str) -> bool {
    match came {
        Some(came) => came == wanted,
        None => false,
    }
}
