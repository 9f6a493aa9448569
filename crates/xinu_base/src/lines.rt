//! The lines of a transcript, as data.

ghost use Rattle.std.specs.Prelude.{◌≡◌, ◌≤◌, length};
ghost use Rattle.xinu_base.specs.Names.{moment_name};

use crate::console::TtyMode;
use crate::events::End;
use crate::numbers::{Dev, Pid, PoolId, Port, Sem};
use crate::processes::State;
use crate::registers::Cause;
use crate::syscalls::Call;

/// What becomes of a file call at a completion of its disk, or when it is made.
#[derive(Clone, Copy, PartialEq, Eq)]
pub enum FileMoment {
    /// It is still the first, and not done.
    Turn,
    /// It took effect: when it was made, or at a completion at whose start it was the first.
    Finished,
    /// It took effect at the completion at which it became the first.
    Next,
}

impl FileMoment {
    /// The word that stands for the moment in a transcript.
    pub fn name(self) -> &'static str
        ensures word { result.now ≡ moment_name self }
        ensures short { length result.now ≤ 4 }
    {
        match self {
            FileMoment::Turn => "turn",
            FileMoment::Finished => "done",
            FileMoment::Next => "next",
        }
    }
}

/// One line of a transcript.
#[derive(Clone, Copy)]
pub enum TranscriptLine {
    /// A process made a call.
    Call(Pid, Call),
    /// A process was trapped.
    Trap(Pid, Cause),
    /// What became of a file call; the process is 0 if its caller was killed.
    File(Pid, FileMoment),
    /// A process got a reply.
    Return(Pid, i32),
    /// The console transmitted a byte.
    Con(u8),
    /// Another process became current.
    Switch(Pid),
    /// The ticks so far, and the ticks that are left of the quantum.
    Now(u32, u8),
    /// An entry of the process table.
    Process {
        /// The number of the process.
        process: Pid,
        /// What it is doing.
        state: State,
        /// Its priority.
        priority: i16,
        /// The process that made it.
        parent: Pid,
        /// The message that it holds.
        message: Option<u32>,
        /// Its name, with zeros after its end.
        name: [u8; 15],
    },
    /// A process in the ready list, with its key.
    Ready(Pid, i16),
    /// A semaphore, with its count: its tokens, or the number of its waiters as a negative number.
    Semaphore(Sem, i32),
    /// A process that waits on a semaphore.
    Waiter(Sem, Pid),
    /// A process among the sleepers, with the tick at which it wakes.
    Sleeper(Pid, u32),
    /// A free block of the heap: its address and its size in bytes.
    Free(u32, u32),
    /// A buffer pool.
    Pool {
        /// The number of the pool.
        pool: PoolId,
        /// The size of its buffers in bytes.
        size: u32,
        /// How many of them are free.
        free: u32,
        /// How many are held.
        held: u32,
    },
    /// A free buffer of a pool, by its address.
    Buffer(PoolId, u32),
    /// A port in use.
    Port {
        /// The number of the port.
        port: Port,
        /// Its sequence number.
        seq: u32,
        /// How many messages it holds.
        messages: u32,
    },
    /// A message that a port holds.
    Node(Port, u32),
    /// The console.
    Console {
        /// How it treats characters.
        mode: TtyMode,
        /// How many items can be taken.
        committed: u32,
        /// How many bytes the line has that is being typed.
        line: u32,
        /// How many bytes of output it will send.
        output: u32,
        /// How many bytes of echo it will send.
        echo: u32,
        /// Whether output is held.
        held: bool,
    },
    /// The raw disk, with how many requests wait for it.
    Disk0(u32),
    /// A device that has a file open, with the position in the file and its size.
    OpenFile(Dev, u32, u32),
    /// The file system's disk, and whether it is busy: a file is open, or a call on files is under way.
    Disk1(bool),
    /// The end of the run.
    End(End),
}

impl Default for TranscriptLine {
    ghost use Rattle.xinu_base.specs.declared.lines.TranscriptLine.TheVariants as line;

    ghost is_default = { λ l. l ≡ line.Disk0 0 };

    fn default() -> Self {
        TranscriptLine::Disk0(0)
    }
}
