//! What each process does, and its name.

use printed_runs::{ABSENT, Doing, PROCESSES, Shown, Text, made_as};
use std::alloc::Global;

/// The processes by their numbers, and their names.
#[derive(Drop)]
pub(crate) struct Lives {
    alloc: Global,
    doings: [Doing; PROCESSES],
    names: Vec<Text>,
    /// Whether memory never ran out for the names.
    pub(crate) is_whole: bool,
}

impl Lives {
    /// No process lives.
    pub(crate) fn new(alloc: Global) -> Lives {
        let mut lives = Lives {
            alloc,
            doings: [ABSENT; PROCESSES],
            names: Vec::new(alloc),
            is_whole: true,
        };
        for _ in 0..PROCESSES {
            lives.add_name();
        }
        lives
    }

    // Adds the name of no process.
    fn add_name(&mut self) {
        let name = Text::new(self.alloc);
        self.is_whole = self.is_whole && self.names.push(name).is_ok();
    }

    /// Notes what the processes do, as these tables show it.
    pub(crate) fn change(&mut self, shown: &Shown, tables: &str) {
        for (p, doing) in shown.doings.iter().enumerate() {
            if self.doing(p) != *doing {
                self.change_one(p, *doing, tables);
            }
        }
    }

    // Notes what the process of a number does now.
    fn change_one(&mut self, p: usize, doing: Doing, tables: &str) {
        if !self.doing(p).lives() {
            self.name(p, tables);
        }
        if let Some(place) = self.doings.get_mut(p) {
            *place = doing;
        }
    }

    // Notes the name of a new process.
    fn name(&mut self, p: usize, tables: &str) {
        let made = made_as(self.alloc, tables, u32::try_from(p).unwrap_or(0));
        if let Some(place) = self.names.get_mut(p) {
            *place = made.name;
        }
    }

    /// What the process of a number does.
    pub(crate) fn doing(&self, p: usize) -> Doing {
        self.doings.get(p).copied().unwrap_or(ABSENT)
    }

    /// Adds the number and the name of a process, as `2 alice`.
    pub(crate) fn add_who(&self, text: &mut Text, p: usize) {
        text.number(p as u64);
        self.add_name_of(text, p);
    }

    /// Adds the name of a process after a blank, if it has one.
    pub(crate) fn add_name_of(&self, text: &mut Text, p: usize) {
        if let Some(name) = self.names.get(p) {
            if !name.is_empty() {
                text.put(" ");
                text.add(name);
            }
        }
    }
}
