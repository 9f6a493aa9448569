//! The reference machine's state inside an event, part by part as plain data, and the moves that several families of calls make.
//!
//! A clause sees a [`Machine`] as the record `CallState` of `specs/Machine.antt` in `xinu_model`: the whole state, the replies to released
//! processes so far, and whether a resched is owed. Each part is a plain value with public fields, so a program can show it; each function
//! is the definition's of the same name, changed in place. All that is kept true of a machine are bounds of its parts, by their types: the
//! heap, the pools and the bytes of requests lie in RAM, and no count is above the greatest of a semaphore. The one condition is that an
//! event begins with no replies and no resched owed (`start`: `IsStart`), which is how the event before left it.
//!
//! A call answers an [`Answer`]; `came_to` in `specs/Answers.antt` is the definition's result of that and of the state that it left. What
//! an event printed is [`Happened`]. Out of memory is the only refusal. A signal has the condition `room`: the count of the semaphore
//! stays within the greatest.
#![tactic(auto)]

mod answers;
mod bytes;
mod console;
mod ending;
mod files;
mod heap;
mod machine;
mod messages;
mod names;
mod pools;
mod ports;
mod raw_disk;
mod waiting;

pub use answers::Answer;
pub use bytes::Bytes;
pub use console::Console;
pub use ending::Happened;
pub use files::{FileCall, FileRequest, FileSystem, FileWork, OpenFile, StoredFile};
pub use heap::Heap;
pub use machine::Machine;
pub use names::NameRow;
pub use pools::BufferPool;
pub use ports::{MessagePort, PortQueue};
pub use raw_disk::{RawDisk, Request};
