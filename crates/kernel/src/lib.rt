//! The kernel: which family a call is of, a death, a tick, the interrupts of devices, and the end of an event.
//!
//! A clause sees of a [`Kernel`] what an event came to so far, `came`, a `CallResult` of the abstract machine: its state inside an event, the
//! replies to released processes, whether a resched is owed, and how the event's call went. Beside it are the bytes of the disk with files,
//! `image`, which no call but `on_files` changes. Between events a kernel is idle: `came` is `idle s` in `specs/Results` of `kernel_state`.
//! A call, what is left of one, a death or a tick makes of an idle kernel what the abstract machine's own row or step gives, and
//! `close_event` makes it the idle kernel of the event's end. Replies are written into registers there, those of released processes first.
//!
//! That a kernel stands for a state that is sound, inside an event or between two, is kept by the type: the invariant of `Kernel` is what
//! each call keeps (`KeepsAll` of `part_laws`). So no call has a condition on lists or states, and the crates above name none.
//! The crate depends on `kernel_boot`, `core_calls` and `io_calls`.
#![tactic(auto)]

mod copies;
mod kernel;
mod steps;

pub use kernel::Kernel;
pub use kernel_boot::BootFault;
