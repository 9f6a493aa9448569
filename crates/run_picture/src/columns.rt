//! The columns of the picture.

use crate::recording::Ending;
use printed_runs::Text;
use std::alloc::Global;

/// An event that is drawn, or several that only moved bytes of the console, or the start or the end of the picture.
#[derive(Drop)]
pub(crate) struct Column {
    /// The number of its first event, 0 at the start of the run, if it has one.
    pub(crate) event: Option<u64>,
    /// What stands above it.
    pub(crate) head: Text,
    /// What its title begins with.
    pub(crate) title: Text,
    /// What stands above the stretch of events before it that changed and printed nothing.
    pub(crate) gap: Text,
    /// Its lines.
    pub(crate) lines: Text,
    /// The number of its first event, if its events only moved bytes of the console.
    pub(crate) burst: Option<u64>,
    /// Whether its head tells that the run ended badly.
    pub(crate) is_alarm: bool,
}

impl Column {
    /// A column of these lines.
    pub(crate) fn new(alloc: Global, lines: &str) -> Column {
        Column {
            event: None,
            head: Text::new(alloc),
            title: Text::new(alloc),
            gap: Text::new(alloc),
            lines: Text::of(alloc, lines),
            burst: None,
            is_alarm: false,
        }
    }

    /// Makes it the column of the start of the run.
    pub(crate) fn start(&mut self) {
        self.event = Some(0);
        self.name("start");
    }

    // Makes this its head, which is also what its title begins with.
    fn name(&mut self, head: &str) {
        self.head.put(head);
        self.title.put(head);
    }

    /// Makes it the column of the event of this number.
    pub(crate) fn number(&mut self, number: u64) {
        self.event = Some(number);
        self.head.number(number);
        self.title.numbered("event ", number);
    }

    /// Makes it the column of the picture's end, after which so many processes wait.
    pub(crate) fn end(&mut self, ending: Ending, waiting: u64) {
        match ending {
            Ending::GoesOn => self.name("and so on"),
            Ending::Done => self.name("done: no process is left"),
            Ending::Panic => {
                self.name("panic");
                self.is_alarm = true;
            }
            Ending::Schedule => self.end_schedule(waiting),
        }
    }

    // Makes it the column of the end of the schedule.
    fn end_schedule(&mut self, waiting: u64) {
        self.is_alarm = waiting > 0;
        self.head.put("end of the schedule");
        if waiting == 1 {
            self.head.put(": 1 process waits");
        } else if waiting > 1 {
            self.head.numbered(": ", waiting);
            self.head.put(" processes wait");
        }
        self.title.add(&self.head);
    }

    /// So many events before it changed and printed nothing.
    pub(crate) fn leave(&mut self, quiet: u64, are_steps: bool) {
        if quiet > 0 {
            self.gap.numbered("+", quiet);
            self.gap.put(if are_steps { "" } else { "*" });
        }
    }

    /// Whether memory never ran out for its texts.
    pub(crate) fn is_whole(&self) -> bool {
        self.head.is_whole()
            && self.title.is_whole()
            && self.gap.is_whole()
            && self.lines.is_whole()
    }

    /// Adds the event of this number to a column whose first event has the number `first`.
    pub(crate) fn join(&mut self, first: u64, number: u64, lines: &str) {
        self.head = Text::new(self.head.alloc());
        self.head.number(first);
        self.head.numbered("-", number);
        self.title = Text::new(self.head.alloc());
        self.title.numbered("events ", first);
        self.title.numbered(" to ", number);
        self.lines.put(lines);
    }
}
