//! The data that every layer of the kernel speaks of: numbers below a bound, processes and what is left of their calls,
//! registers, events, calls, the kinds of devices and what they offer, the console's modes and items, the modes of files, and the lines of
//! a transcript.
//!
//! A clause sees a [`Below`] as its number. All other types are plain data, of which it sees the fields.
//!
//! `specs/Insert.antt` has the two insertions of the kernel's lists, `specs/Constants.antt` the constants by the book's names,
//! `specs/Syscalls.antt` the table of the calls (`syscalls`), `specs/Names.antt` the words of a transcript, `specs/Hexadecimal.antt` bytes
//! as digits. The crate depends on nothing.
#![tactic(auto)]

mod console;
mod constants;
mod devices;
mod events;
mod files;
mod lines;
mod numbers;
mod processes;
mod registers;
mod semaphores;
mod syscalls;
mod texts;

pub use console::{Item, TtyMode};
pub use constants::{DISK0, EOF, INITRET, LFILE0, MINSTK, QUANTUM, RAM_SIZE, SYSERR, TIMEOUT};
pub use devices::{Kind, Op};
pub use events::{End, Event};
pub use files::OpenMode;
pub use lines::{FileMoment, TranscriptLine};
pub use numbers::{Below, Dev, Pid, PoolId, Port, Sem};
pub use processes::{PortTicket, Process, Rest, Span, State};
pub use registers::{Cause, Hart, Outcome};
pub use semaphores::Owner;
pub use syscalls::{CALLS, Call, Family, Next, call_args, call_name, family_of, is_call};
pub use texts::before_zero;

/// The answer of a call that found no memory.
#[derive(Clone, Copy, PartialEq, Eq)]
pub struct NoMemory;
