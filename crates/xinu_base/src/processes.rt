//! Processes: their states, and what is left of a call that waited (book, chapter 5, `process.h`).

ghost use Rattle.std.specs.Prelude.{◌≡◌, ◌≤◌, length};
ghost use Rattle.xinu_base.specs.Names.{state_name};

use crate::numbers::{Pid, PoolId, Port, Sem};

/// What a process is doing.
#[derive(Clone, Copy, PartialEq, Eq)]
pub enum State {
    /// The number has no process.
    Free,
    /// It runs.
    Current,
    /// It is in the ready list.
    Ready,
    /// It waits for a message.
    Receiving,
    /// It is among the sleepers.
    Sleeping,
    /// It is in no list until it is resumed.
    Suspended,
    /// It is among the waiters of a semaphore.
    Waiting,
    /// It waits for a message, and is among the sleepers too.
    Timed,
}

impl State {
    /// The word that stands for the state in a transcript.
    pub fn name(self) -> &'static str
        ensures word { result.now ≡ state_name self }
        ensures short { length result.now ≤ 7 }
    {
        match self {
            State::Free => "free",
            State::Current => "current",
            State::Ready => "ready",
            State::Receiving => "receive",
            State::Sleeping => "sleep",
            State::Suspended => "suspend",
            State::Waiting => "wait",
            State::Timed => "timed",
        }
    }
}

/// A range of RAM that a console call works through, in bytes.
#[derive(Clone, Copy, PartialEq, Eq)]
pub struct Span {
    /// The address of the first byte.
    pub at: u32,
    /// How many bytes are done.
    pub done: u32,
    /// How many bytes are wanted.
    pub want: u32,
}

/// A port as a call found it when it began: the port may be renewed while the call waits.
#[derive(Clone, Copy, PartialEq, Eq)]
pub struct PortTicket {
    /// The port.
    pub port: Port,
    /// The port's sequence number when the call began.
    pub seq: u32,
    /// The semaphore on which the call waits.
    pub sem: Sem,
}

/// What is left of a call that waited: the process's next step does it, once the process is current again.
#[derive(Clone, Copy, PartialEq, Eq)]
pub enum Rest {
    /// Nothing: the next step is an instruction.
    Nothing,
    /// Take the message.
    Receive,
    /// Take the message, if one came in time.
    Timed,
    /// Answer the priority.
    SelfSuspend,
    /// Take a buffer of the pool.
    GetBuf(PoolId),
    /// Append the message to the port.
    PtSend(PortTicket, u32),
    /// Take the port's first message.
    PtRecv(PortTicket),
    /// Take a character from the console.
    TtyGet,
    /// Put a character to the console; whether the carriage return of a newline was put.
    TtyPut(u8, bool),
    /// Read from the console.
    TtyRead(Span),
    /// Write to the console; whether the carriage return of a newline was put.
    TtyWrite(Span, bool),
    /// Answer the reply of a disk, which is kept here once it came.
    Disk(Option<i32>),
}

/// An entry of the process table.
#[derive(Clone, Copy, PartialEq, Eq)]
pub struct Process {
    /// What it is doing.
    pub state: State,
    /// The scheduling priority.
    pub priority: i16,
    /// The process that made it.
    pub parent: Pid,
    /// The name, with zeros after its end.
    pub name: [u8; 15],
    /// The address of the stack's highest word, as `getstk` gave it.
    pub stack: u32,
    /// The size of the stack in bytes, a multiple of 8; 0 if there is none.
    pub stack_size: u32,
    /// What is left of a call that waited.
    pub rest: Rest,
}
