//! The tables of the machine, as it prints them, read for what each process is doing.

use crate::doings::{ABSENT, Awaited, Doing};
use crate::notes::Asked;
use crate::text::Text;
use std::alloc::Global;
use xinu_base::State;

/// How many process numbers there are.
pub const PROCESSES: usize = 64;

/// What the tables show.
#[derive(Clone, Copy)]
pub struct Shown {
    /// What each process is doing, by its number.
    pub doings: [Doing; 64],
    /// The ticks so far.
    pub ticks: u32,
}

/// A process as it was made.
#[derive(Drop)]
pub struct Made {
    /// Its priority.
    pub priority: u32,
    /// Its name.
    pub name: Text,
}

/// What the tables show, if the processes asked for these things last.
pub(crate) fn read_tables(tables: &str, asked: &[Asked; 64]) -> Shown {
    let mut shown = Shown {
        doings: [ABSENT; 64],
        ticks: 0,
    };
    for line in tables.lines() {
        read_line(&mut shown, line, asked);
    }
    shown
}

// Reads a line of the tables.
fn read_line(shown: &mut Shown, line: &str, asked: &[Asked; 64]) {
    let mut words = line.split_whitespace();
    let kind = words.next().unwrap_or("");
    let first = number_of(words.next());
    let second = words.next();
    match kind {
        "now" => shown.ticks = first,
        "proc" => put(shown, first, Doing::plain(state_of(second))),
        "wait" => put(
            shown,
            number_of(second),
            waiting(first, number_of(second), asked),
        ),
        "sleep" => put_sleeper(shown, first, number_of(second)),
        _ => {}
    }
}

// Says what a process is doing.
fn put(shown: &mut Shown, process: u32, doing: Doing) {
    if let Some(place) = shown.doings.get_mut(process as usize) {
        *place = doing;
    }
}

// Says at which tick a process wakes.
fn put_sleeper(shown: &mut Shown, process: u32, wake: u32) {
    if let Some(place) = shown.doings.get_mut(process as usize) {
        place.awaited = Awaited::Tick;
        place.number = wake;
    }
}

// What a process is doing that waits on a semaphore: one that a process made is its own, a pool's or a port's.
fn waiting(semaphore: u32, process: u32, asked: &[Asked; 64]) -> Doing {
    let asked = asked.get(process as usize).copied();
    let (awaited, number) = match (semaphore, asked.unwrap_or(Asked::Other)) {
        (0, _) => (Awaited::Input, 0),
        (1, _) => (Awaited::Room, 1),
        (2, _) => (Awaited::Disk, 2),
        (3, _) => (Awaited::Files, 3),
        (_, Asked::Buffer(pool)) => (Awaited::Pool, pool),
        (_, Asked::Message(port)) => (Awaited::Port, port),
        _ => (Awaited::Semaphore, semaphore),
    };
    Doing {
        state: State::Waiting,
        awaited,
        number,
    }
}

// The state of a word of the tables.
fn state_of(word: Option<&str>) -> State {
    match word.unwrap_or("") {
        "current" => State::Current,
        "ready" => State::Ready,
        "receive" => State::Receiving,
        "timed" => State::Timed,
        "wait" => State::Waiting,
        "sleep" => State::Sleeping,
        "suspend" => State::Suspended,
        _ => State::Free,
    }
}

/// The number that a word is; 0 if it is none.
pub fn number_of(word: Option<&str>) -> u32 {
    match word {
        Some(word) => word.parse::<u32>().unwrap_or(0),
        None => 0,
    }
}

/// The priority and the name of a process in the tables; 0 and nothing if it isn't in them.
pub fn made_as(alloc: Global, tables: &str, process: u32) -> Made {
    for line in tables.lines() {
        let mut words = line.split_whitespace();
        if words.next().unwrap_or("") == "proc" && number_of(words.next()) == process {
            let priority = number_of(words.nth(1));
            let name = text_of(alloc, words.nth(2).unwrap_or(""));
            return Made { priority, name };
        }
    }
    Made {
        priority: 0,
        name: Text::new(alloc),
    }
}

// The text of bytes in hexadecimal digits; a byte that isn't a printable character is shown as a dot.
fn text_of(alloc: Global, digits: &str) -> Text {
    let mut text = Text::new(alloc);
    let mut high = None;
    for digit in digits.chars() {
        let Some(value) = digit.to_digit(16) else {
            return text;
        };
        match high {
            None => high = Some(value),
            Some(front) => {
                text.character(shown_character(front, value));
                high = None;
            }
        }
    }
    text
}

// The character of two hexadecimal digits, or a dot.
fn shown_character(high: u32, low: u32) -> char {
    let code = high.saturating_mul(16).saturating_add(low);
    match u8::try_from(code) {
        Ok(byte) if (b' '..=b'~').contains(&byte) => char::from(byte),
        _ => '.',
    }
}
