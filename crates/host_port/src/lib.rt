//! The outside of the machine, and the printer of its transcript.
//!
//! [`Host`] is all that a run asks of the world: files by name, and bytes appended to five channels. [`QuietMemoryHost`] and
//! [`MemoryHost`] keep it in memory, the second with calls that fail on demand; [`RealHost`] is the world of the program.
//! [`Line`] makes a line of the transcript and [`Printer`] sends it. The crate depends on `xinu_base` alone.
//!
//! # What a host shows
//!
//! The ghost member `view` shows a host as a record `Outside`: the bytes of each `file`, the bytes on each channel, the `calls` of
//! `fetch` and `name_out` so far, and the count of `faults`. All but the count are an `Option`: `None` says that this part isn't observable.
//! Each contract is one equation between the outside before and after the call, so what the equation doesn't name was left alone:
//! `MakesCall` of a `fetch`, `NamesFile` of a `name_out`, `Emits` of an `emit`, and of each `HasCause`.
//!
//! `NoMemory` is an answer of its own, and no clause says when it comes.
//!
//! # The hosts
//!
//! - `QuietMemoryHost` is seen as `quiet_view`: every name is a file, empty until it is added; all parts are observable; the count is 0, so no
//!   call fails. `add_file` is `AddsFile`, and at a refusal `Stays`.
//! - `MemoryHost` is seen as `memory_view`, in which only the added files are observable. `fail_call` adds a number to those of the calls
//!   that are to fail (`fails_at`). Each call has the clause `counts` (`CountsCall`): it was counted, it was refused if it was to fail, it
//!   answers `Failed` only then, and each failure adds 1 to the count of faults. An `emit` or a `name_out` that is to fail leaves the
//!   channel (`kept`), and such an `emit` answers `Failed` and nothing else (`certain`).
//! - `RealHost` is seen as `unobservable`: the count of faults alone. Its loops over std's `read` and `write` are proved for readers and writers
//!   whose bytes are observable: `read_front` reads exactly the first bytes (`bytes`, `read`), `write_whole` writes all bytes, and a
//!   prefix of them if it fails (`whole`, `part`). What the system does with them is trusted, and tested.
//!
//! # Lines and the printer
//!
//! A `Line` is seen as its bytes, at most 160; the condition `fits` of each call is that the result fits. A `Printer` is seen as `Printing`:
//! whether it is plain, and its first failure. `line` and `con` promise `Prints` of their bytes: all of them if there is no failure afterwards
//! (`whole`), always a prefix of them and nothing else (`part`), nothing after an earlier failure (`stays`); the failure turns to
//! `Failed` only if the count rose (`cause`). `proofs/Prints.antt` composes such calls: `prints_both`, `prints_nothing`, `prints_leaves`.
//!
//! Tested, not proved: that calls succeed with ample memory; that `RealHost` reads back what it wrote, of more than one buffer and on each
//! channel, empties a named file before it writes it, and reports a missing file, a channel without a file, a missing folder and a full
//! device.
#![tactic(auto)]

mod front;
mod host;
mod line;
mod memory;
mod printer;
mod quiet;
mod real;
mod recorded;
mod streams;

pub use host::{Channel, Host, HostFault};
pub use line::Line;
pub use memory::MemoryHost;
pub use printer::Printer;
pub use quiet::QuietMemoryHost;
pub use real::RealHost;
