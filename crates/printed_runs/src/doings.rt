//! What a process is doing, as the tables show it, and the words for it.

use crate::text::Text;
use xinu_base::State;

/// What a process waits for.
#[derive(Clone, Copy, PartialEq, Eq)]
pub enum Awaited {
    /// Nothing that has a name of its own.
    Nothing,
    /// A semaphore that processes made.
    Semaphore,
    /// Something typed.
    Input,
    /// Room for output of the console.
    Room,
    /// The raw disk.
    Disk,
    /// The disk of the files.
    Files,
    /// A buffer of a pool.
    Pool,
    /// A port: a message, or room for one.
    Port,
    /// A tick of the clock.
    Tick,
}

/// What a process is doing: its state, and what it waits for, with its number.
#[derive(Clone, Copy, PartialEq, Eq)]
pub struct Doing {
    pub state: State,
    pub awaited: Awaited,
    pub number: u32,
}

/// There is no process.
pub const ABSENT: Doing = Doing {
    state: State::Free,
    awaited: Awaited::Nothing,
    number: 0,
};

impl Doing {
    /// In this state, and waiting for nothing that has a name.
    pub fn plain(state: State) -> Doing {
        Doing {
            state,
            awaited: Awaited::Nothing,
            number: 0,
        }
    }

    /// Whether there is a process.
    pub fn lives(&self) -> bool {
        !matches!(self.state, State::Free)
    }

    /// Whether it runs or is in the ready list.
    pub fn is_ready(&self) -> bool {
        matches!(self.state, State::Current | State::Ready)
    }

    /// Adds the word for it to a text, as `semaphore 5` or `tick 12`.
    pub fn add_word(&self, text: &mut Text) {
        let number = self.number as u64;
        match self.state {
            State::Free => {}
            State::Current => text.put("current"),
            State::Ready => text.put("ready"),
            State::Receiving => text.put("message"),
            State::Sleeping => text.numbered("tick ", number),
            State::Timed => text.numbered("timed to ", number),
            State::Suspended => text.put("suspended"),
            State::Waiting => self.add_awaited(text),
        }
    }

    // Adds the word for what is waited for.
    fn add_awaited(&self, text: &mut Text) {
        let number = self.number as u64;
        match self.awaited {
            Awaited::Input => text.put("console input"),
            Awaited::Room => text.put("room"),
            Awaited::Disk => text.put("disk"),
            Awaited::Files => text.put("files"),
            Awaited::Pool => text.numbered("pool ", number),
            Awaited::Port => text.numbered("port ", number),
            Awaited::Nothing | Awaited::Semaphore | Awaited::Tick => {
                text.numbered("semaphore ", number)
            }
        }
    }
}
