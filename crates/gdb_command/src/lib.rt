//! The command `gdb`, a run under a debugger: packets are answered from the state of the run after so many events, and the run goes on, and
//! back. In gdb it is `target remote | xinu_run gdb --schedule FILE IMAGE ..`.
//!
//! [`debug`] is the call. The arguments are those of `run` without what concerns its output. The run is a `Replay`, so its state after any
//! number of its events can be had again, and nothing that the debugger asks for changes it: it stays the same run (`IsSameRun`). What is
//! answered to a packet that looks is `answer` of `gdb_answers` in the state of the replay, to which a run of so many events leads
//! (`IsObeyed`).
//!
//! Which process is looked at, what `monitor` shows, acknowledgements, and what is sent again are part of it (`IsServed`). A packet that moves the
//! run is answered with the stop at which `go_on` or `go_back` of `watched_run` stopped, for the goal that it names, and with the process of that
//! stop (`IsMovedOn`, `IsMovedBack`). What the console sent on the way is shown by sessions (`debugger.md`); no clause says it.
#![tactic(auto)]

mod asked;
mod command;
mod deeds;
mod lines_so_far;
mod looking;
mod monitor;
mod named_lines;
mod output;
mod refusing;
mod serving;
mod session;
mod units;

pub use command::debug;
