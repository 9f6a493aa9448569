//! The sessions of texts, played one after another.

use crate::bytes::bytes_of;
use crate::images::{calling, image};
use crate::session::Session;
use crate::trouble::{Place, first_difference};
use std::alloc::Global;
use std::rt::Files;
use std::{fs, io};

/// With what the line of a command begins.
const COMMAND: &str = "    $ ";

/// The sessions that were played so far.
#[derive(Drop)]
pub(crate) struct Player {
    alloc: Global,
    session: Session,
    /// How many programs were run.
    runs: u64,
    /// How many of them printed what is written.
    as_written: u64,
    /// How many of them printed the transcript of a whole run.
    transcripts: u64,
    /// How many of these `check` accepts.
    accepted: u64,
    /// Where something else came, and what.
    troubles: String,
}

impl Player {
    /// Before the first session.
    pub(crate) fn new(alloc: Global) -> Player {
        Player {
            alloc,
            session: Session::new(alloc),
            runs: 0,
            as_written: 0,
            transcripts: 0,
            accepted: 0,
            troubles: String::new(alloc),
        }
    }

    /// Plays the sessions of the text of this name.
    ///
    /// # Errors
    /// Out of memory, or a file that a session needs can't be read.
    pub(crate) fn play<'a, R: Files + AllocGlobal>(
        &mut self,
        rt: &R,
        name: &'a str,
        text: &'a str,
    ) -> io::Result<()> {
        let mut place = Place {
            name,
            heading: "",
            line: 0,
            command: "",
        };
        let mut lines = String::new(self.alloc);
        let mut number: u64 = 0;
        for line in text.lines() {
            number = number.saturating_add(1);
            if let Some(below) = line_below(line) {
                lines.push_str(below)?;
                lines.push_str("\n")?;
            } else {
                self.carry_out(rt, place, lines.as_str())?;
                lines.clear();
                let heading = heading_of(line);
                if heading.is_some() {
                    self.session.clear();
                }
                place = Place {
                    name,
                    heading: heading.unwrap_or(place.heading),
                    line: number,
                    command: line.strip_prefix(COMMAND).unwrap_or(""),
                };
            }
        }
        self.carry_out(rt, place, lines.as_str())
    }

    /// Prints how many commands printed what is written, how many transcripts are accepted, and where it was otherwise.
    ///
    /// # Errors
    /// A failure of the output.
    pub(crate) fn report<R: Print>(&self, rt: &R) -> io::Result<()> {
        rt.print(self.as_written)?;
        rt.print(" of ")?;
        rt.print(self.runs)?;
        rt.println(" commands printed what is written")?;
        rt.print(self.accepted)?;
        rt.print(" of ")?;
        rt.print(self.transcripts)?;
        rt.println(" transcripts are accepted")?;
        rt.print(self.troubles.as_str())
    }

    // Carries out the command at a place, if there is one, with the lines below it.
    fn carry_out<R: Files + AllocGlobal>(
        &mut self,
        rt: &R,
        place: Place<'_>,
        lines: &str,
    ) -> io::Result<()> {
        let (word, rest) = place.command.split_once(" ").unwrap_or((place.command, ""));
        match word {
            "" => Ok(()),
            "file" => self.session.add_file(rest, lines.as_bytes()),
            "bytes" => self.add_bytes(place, rest, lines),
            "stored" => self.add_stored(rt, place, rest),
            "calls" => {
                let text = calling(self.alloc, lines)?;
                self.add_image(place, rest, text.as_str())
            }
            "program" => self.add_image(place, rest, lines),
            _ => self.run(place, word, rest, lines),
        }
    }

    // Adds a file of the bytes that lines say, or tells that they say none.
    fn add_bytes(&mut self, place: Place<'_>, name: &str, lines: &str) -> io::Result<()> {
        match bytes_of(self.alloc, lines)? {
            Some(bytes) => self.session.add_file(name, bytes.as_slice()),
            None => self.tell(place, "these aren't bytes"),
        }
    }

    // Adds a file that lies beside the text.
    fn add_stored<R: Files + AllocGlobal>(
        &mut self,
        rt: &R,
        place: Place<'_>,
        name: &str,
    ) -> io::Result<()> {
        let path = place.beside(self.alloc, name)?;
        let bytes = fs::read(rt, path.as_str())?;
        self.session.add_file(name, bytes.as_slice())
    }

    // Adds the next image, of a text of assembler, or tells that it has a fault.
    fn add_image(&mut self, place: Place<'_>, priority: &str, text: &str) -> io::Result<()> {
        let at = self.session.next_place();
        match image(self.alloc, at, priority, text)? {
            Some(bytes) => self.session.add_image(bytes.as_slice()),
            None => self.tell(place, "the process can't be assembled"),
        }
    }

    // Runs a program with these arguments, and compares what it prints with the lines below the command.
    fn run(
        &mut self,
        place: Place<'_>,
        program: &str,
        arguments: &str,
        lines: &str,
    ) -> io::Result<()> {
        let Some(outcome) = self.session.run(program, arguments, lines)? else {
            return self.tell(place, "unknown command");
        };
        if let Some(is_accepted) = outcome.is_accepted {
            self.judge(place, is_accepted)?;
        }
        self.compare(place, lines, outcome.printed.as_str())
    }

    // Notes whether the transcript of a command is accepted.
    fn judge(&mut self, place: Place<'_>, is_accepted: bool) -> io::Result<()> {
        self.transcripts = self.transcripts.saturating_add(1);
        if is_accepted {
            self.accepted = self.accepted.saturating_add(1);
            Ok(())
        } else {
            self.tell(place, "its transcript isn't accepted")
        }
    }

    // Notes whether a command printed what is written.
    fn compare(&mut self, place: Place<'_>, wanted: &str, printed: &str) -> io::Result<()> {
        self.runs = self.runs.saturating_add(1);
        match first_difference(wanted, printed) {
            None => {
                self.as_written = self.as_written.saturating_add(1);
                Ok(())
            }
            Some(difference) => {
                let text = difference.text(self.alloc)?;
                self.tell(place.below(difference.line), text.as_str())
            }
        }
    }

    // Notes a trouble at a place.
    fn tell(&mut self, place: Place<'_>, what: &str) -> io::Result<()> {
        let text = place.told(self.alloc, what)?;
        self.troubles.push_str(text.as_str())?;
        Ok(())
    }
}

// What a line says below a command, if it is one.
fn line_below(line: &str) -> Option<&str> {
    if line.starts_with(COMMAND) {
        return None;
    }
    line.strip_prefix("    ")
}

// What a line of a text is the heading of, if it is one.
fn heading_of(line: &str) -> Option<&str> {
    if !line.starts_with("#") {
        return None;
    }
    match line.split_once(" ") {
        Some((_, heading)) => Some(heading),
        None => Some(""),
    }
}
