//! Schedules: the reading of a text, and the events one by one.

ghost use Rattle.std.specs.Prelude.{◌≡◌, ◌+◌, ◌≤◌, ◌<◌, ◌++◌, false, List, [], ◌∷◌, length, drop, replicate, slice_get, Some, None, MatchOption, IfOk, IfErr, MatchResult, OnOk};
ghost use Rattle.std.specs.List.{All};
ghost use Rattle.schedule_file.specs.ScheduleFiles.{reading, events_in, Names, is_bad, events_at};
ghost use Rattle.schedule_file.specs.ScheduleFiles as files;
ghost use Rattle.schedule_file.specs.Repeats.{IsRepeat, IsFaultOf, repeats_events};

use crate::faults::ScheduleFault;
use crate::line_events::line_events_of;
use crate::numbers::MOST_EVENTS;
use crate::repeats::Repeat;
use std::alloc::{AllocError, Global};
use std::marker::Model;
use text_lines::first_line;
use xinu_base::Event;

/// The events of a schedule that are still to come. A clause sees their list.
pub struct Schedule {
    /// The event that comes next, if any are left of it.
    event: Event,
    /// How many times it comes before the events of the repeats.
    left: u32,
    /// What the lines asked for, in their order.
    repeats: Vec<Repeat>,
    /// The repeat whose events come then.
    at: usize,
    /// How many events of this repeat were taken.
    taken: u32,
}

impl Drop for Schedule {
    fn drop(self) {
        let Schedule {
            event: _event,
            left: _left,
            repeats: _repeats,
            at: _at,
            taken: _taken,
        } = self;
    }
}

impl Model for Schedule {
    ghost use Rattle.std.specs.Prelude.{List, ◌++◌, replicate};
    ghost use Rattle.xinu_base.specs.declared.events.Event.{Event};
    ghost use Rattle.schedule_file.specs.Repeats.{to_come, IsCursor};

    ghost Value = { List Event };

    ghost view = { λ s. replicate s.left s.event ++ to_come s.repeats.items s.at s.taken };

    ghost invariant = { λ s. IsCursor s.repeats.items s.at s.taken };
}

impl Schedule {
    /// Reads a text of at most 4294967294 bytes. The events are those of its lines, one after another, and at most 1000000000.
    ///
    /// Lines end with a line feed, which the last one may lack; a carriage return before a line feed is left out. A line of
    /// blanks (spaces and tabs), and one whose first other byte is `#`, asks for no event. Each other line is tokens with blanks between them:
    /// `step`, `tick`, `tx`, `disk0`, `disk1` or `round` with a count after it, `type` with 1 to 64 tokens of two hexadecimal
    /// digits, or `fail0`, `fail1` or `dump` alone. A count has 1 to 10 decimal digits and a value from 1 to 1000000000. A round is
    /// 1000 steps, 64 transmissions, 8 completions of the file system's disk, 8 of the raw disk and a tick, in this order.
    ///
    /// # Errors
    /// `BadLine` names the first line that is of none of these forms, `TooMany` the first with which there are more than 1000000000
    /// events; if both come, the lower line is named. `NoMemory` says nothing of the text.
    pub fn read(alloc: Global, text: &[u8]) -> Result<Schedule, ScheduleFault>
        requires { length text.now ≤ 4294967294 }
        ensures read { MatchResult result (λ events. reading text.now ≡ files.Reads events) (λ fault. Names fault text.now) }
        ensures events { IfOk result (λ events. events_in text.now ≡ Some events) }
        ensures most { IfOk result (λ events. length events ≤ 1000000000) }
    {
        let repeats = repeats_in(alloc, text)?;
        Ok(Schedule {
            event: Event::Step,
            left: 0,
            repeats,
            at: 0,
            taken: 0,
        })
    }

    /// A schedule of the same events.
    ///
    /// # Errors
    /// Out of memory.
    pub fn copy(&self, alloc: Global) -> Result<Schedule, AllocError>
        ensures copy { IfOk result (λ events. events ≡ self.now) }
    {
        let repeats = Vec::from_slice(alloc, self.repeats.as_slice())?;
        Ok(Schedule {
            event: self.event,
            left: self.left,
            repeats,
            at: self.at,
            taken: self.taken,
        })
    }

    /// Takes the next event off the schedule; `None` if and only if it is at its end. It takes no memory.
    pub fn next_event(&mut self) -> Option<Event>
        ensures next { MatchOption result ((self.old ≡ []) × (self.new ≡ [])) (λ event. self.old ≡ event ∷ self.new) }
    {
        if self.left > 0 {
            self.left -= 1;
            return Some(self.event);
        }
        if self.at == self.repeats.len() {
            return None;
        }
        let repeat = self.repeats[self.at];
        let (event, more) = repeat.stretch_at(self.taken);
        self.event = event;
        self.left = more;
        self.taken += 1 + more;
        if self.taken as u64 == repeat.length() {
            self.at += 1;
            self.taken = 0;
        }
        Some(event)
    }

    /// The event that [`Schedule::next_event`] would take, which stays; `None` if and only if the schedule is at its end.
    pub fn peek(&self) -> Option<Event>
        ensures next { result ≡ slice_get self.now 0 }
    {
        if self.left > 0 {
            return Some(self.event);
        }
        if self.at == self.repeats.len() {
            return None;
        }
        Some(self.repeats[self.at].stretch_at(self.taken).0)
    }

    /// How many steps come next at least. What is at hand is counted, nothing is looked for.
    #[inline]
    pub fn steps_ahead(&self) -> u32
        ensures ahead { self.now ≡ replicate result Event.Step ++ drop result self.now }
        ensures within { result ≤ length self.now }
    {
        match self.event {
            Event::Step => self.left,
            _ => 0,
        }
    }

    /// Takes so many events off the schedule; all, if there are no more.
    #[inline]
    pub fn skip(&mut self, count: u32)
        ensures skips { self.new ≡ drop count self.old }
    {
        if count <= self.left {
            self.left -= count;
        } else {
            self.skip_each(count);
        }
    }

    // Takes so many events off the schedule, one by one.
    #[cold]
    fn skip_each(&mut self, count: u32)
        ensures skips { self.new ≡ drop count self.old }
    {
        for _ in 0..count {
            self.next_event();
        }
    }
}

// The repeats that the lines of a text ask for.
fn repeats_in(alloc: Global, text: &[u8]) -> Result<Vec<Repeat>, ScheduleFault>
    requires { length text.now ≤ 4294967294 }
    ensures read { MatchResult result (λ repeats. reading text.now ≡ files.Reads (repeats_events repeats.items)) (λ fault. Names fault text.now) }
    ensures most { IfOk result (λ repeats. length (repeats_events repeats.items) ≤ 1000000000) }
    ensures repeats { IfOk result (λ repeats. All IsRepeat repeats.items) }
{
    let mut repeats = Vec::new(alloc);
    let mut events = 0;
    let mut line = 0;
    let mut rest = text;
    while !rest.is_empty() {
        let (first, next) = first_line(rest);
        line += 1;
        events = take_line(&mut repeats, events, line, first)?;
        rest = next;
    }
    Ok(repeats)
}

// Appends the events of a line to those of the lines before it, and answers how many there are then.
fn take_line(
    repeats: &mut Vec<Repeat>,
    events: u32,
    number: u32,
    line: &[u8],
) -> Result<u32, ScheduleFault>
    requires repeats { All IsRepeat repeats.old.items }
    requires most { events ≤ 1000000000 }
    ensures form { OnOk result (is_bad line.now ≡ false) }
    ensures sum { IfOk result (λ sum. sum ≡ events + length (events_at line.now)) }
    ensures most { IfOk result (λ sum. sum ≤ 1000000000) }
    ensures events { OnOk result (repeats_events repeats.new.items ≡ repeats_events repeats.old.items ++ events_at line.now) }
    ensures repeats { OnOk result (All IsRepeat repeats.new.items) }
    ensures fault { IfErr result (λ fault. IsFaultOf fault number line.now events) }
{
    let Some(found) = line_events_of(line) else {
        return Err(ScheduleFault::BadLine(number));
    };
    let sum = events as u64 + found.count();
    if sum > MOST_EVENTS as u64 {
        return Err(ScheduleFault::TooMany(number));
    }
    match found.push_to(repeats) {
        Ok(()) => Ok(sum as u32),
        Err(_) => Err(ScheduleFault::NoMemory),
    }
}
