//! The processes of a run: when each began and died, its name, and its stack.

ghost use Rattle.std.specs.Prelude.{◌<◌};

use kernel_state::KernelState;
use printed_runs::{PROCESSES, Text};
use std::alloc::{AllocError, Global};
use xinu_base::{Pid, Process, State, before_zero};

/// The number of an event after all others.
const NEVER: u32 = u32::MAX;

/// A process, from its birth to its death.
#[derive(Clone, Copy)]
pub(crate) struct Life {
    /// Its number.
    pub(crate) process: u8,
    name: [u8; 15],
    // In which event it began, 0 if it was there before the first.
    born: u32,
    // In which event it died.
    died: u32,
    /// The lowest address of its stack.
    pub(crate) low: u32,
    /// The first address after its stack.
    pub(crate) end: u32,
}

impl Life {
    // Whether a byte is in its stack.
    fn has(&self, byte: u32) -> bool {
        self.low <= byte && byte < self.end
    }

    // Whether it lived when an event came.
    fn lived_at(&self, event: u32) -> bool {
        self.born < event && event <= self.died
    }

    /// Adds its number, and its name if it has one. A byte that isn't a printable character is shown as a dot.
    pub(crate) fn add_who(&self, text: &mut Text) {
        text.number(self.process as u64);
        let name = before_zero(&self.name);
        if !name.is_empty() {
            text.put(" ");
        }
        for byte in name {
            text.character(if byte.is_ascii_graphic() {
                *byte as char
            } else {
                '.'
            });
        }
    }
}

/// The processes of a run, in the order of their births.
#[derive(Drop)]
pub(crate) struct Lives {
    lives: Vec<Life>,
    // For each number the place of the process that has it.
    living: [Option<usize>; PROCESSES],
}

impl Lives {
    /// None so far.
    pub(crate) fn new(alloc: Global) -> Lives {
        Lives {
            lives: Vec::new(alloc),
            living: [None; PROCESSES],
        }
    }

    /// Notes who lives after an event.
    ///
    /// # Errors
    /// Out of memory.
    pub(crate) fn note(&mut self, k: &KernelState, event: u32) -> Result<(), AllocError> {
        for number in 1..PROCESSES {
            self.note_one(number, k.tables.process(Pid::at(number)), event)?;
        }
        Ok(())
    }

    // Notes whether the process of a number lives after an event.
    fn note_one(&mut self, number: usize, process: &Process, event: u32) -> Result<(), AllocError>
        requires below { number < 64 }
    {
        let lives = !matches!(process.state, State::Free);
        let known = self.living[number];
        match known {
            None if lives => self.begin(number, process, event)?,
            Some(at) if !lives => self.end(number, at, event),
            _ => {}
        }
        Ok(())
    }

    // A process began in an event.
    fn begin(&mut self, number: usize, process: &Process, event: u32) -> Result<(), AllocError>
        requires below { number < 64 }
    {
        let end = process.stack.saturating_add(4);
        self.living[number] = Some(self.lives.len());
        self.lives.push(Life {
            process: number as u8,
            name: process.name,
            born: event,
            died: NEVER,
            low: end.saturating_sub(process.stack_size),
            end,
        })?;
        Ok(())
    }

    // A process died in an event.
    fn end(&mut self, number: usize, at: usize, event: u32)
        requires below { number < 64 }
    {
        self.living[number] = None;
        if let Some(life) = self.lives.get_mut(at) {
            life.died = event;
        }
    }

    /// The process that had a number in an event.
    pub(crate) fn who(&self, process: u8, event: u32) -> Option<usize> {
        let mut found = None;
        for (at, life) in self.lives.iter().enumerate() {
            if life.process == process && life.lived_at(event) {
                found = Some(at);
            }
        }
        found
    }

    /// The process in whose stack a byte was when an event came.
    pub(crate) fn owner(&self, byte: u32, event: u32) -> Option<usize> {
        let mut found = None;
        for (at, life) in self.lives.iter().enumerate() {
            if life.has(byte) && life.lived_at(event) {
                found = Some(at);
            }
        }
        found
    }

    /// The last process in whose stack a byte was at any time.
    pub(crate) fn former_owner(&self, byte: u32) -> Option<usize> {
        let mut found = None;
        for (at, life) in self.lives.iter().enumerate() {
            if life.has(byte) {
                found = Some(at);
            }
        }
        found
    }

    /// Whether a process died in an event and had a byte in its stack.
    pub(crate) fn is_death(&self, process: u8, event: u32, byte: u32) -> bool {
        for life in &self.lives {
            if life.process == process && life.died == event && life.has(byte) {
                return true;
            }
        }
        false
    }

    /// The process at a place.
    pub(crate) fn at(&self, at: usize) -> Option<&Life> {
        self.lives.get(at)
    }
}
