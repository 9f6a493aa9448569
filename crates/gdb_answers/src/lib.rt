//! What a debugger is told of a run that stands still: registers, RAM and processes, as the bytes of an answer to each packet that looks.
//!
//! Each answer is a function of the state, defined in `specs/` (`answer` in `specs/Answers.antt`), and [`answer`] is the call. A process is
//! a thread: that of process p has the number p + 1, and the null process is one only if no other is left. Nothing here changes the state,
//! and a packet that would is refused.
//!
//! The crate depends on `gdb_packets` for the commands, on `kernel_state` for the state and its parts, and on `process_waits` for what a process
//! waits for.
#![tactic(auto)]

mod answers;
mod checksums;
mod descriptions;
mod fixed;
mod registers;
mod stops;
mod threads;

pub use answers::answer;
pub use stops::{Stop, stop_text};
pub use threads::{process_of, shown_process, thread_text};
