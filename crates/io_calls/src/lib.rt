//! The calls on devices and names, what is left of them, and the interrupts of devices (book, chapters 14, 15, 18 and 21).
//!
//! [`begin`] begins a call, and [`go_on`] does what is left of one that waited. The interrupts are [`on_type`] and [`on_tx`] of the
//! console, [`on_disk`] of the raw disk, and [`on_files`] of the disk with files.
//!
//! Each call is a function over a `KernelState` in which nothing was done yet in this event, and its clause is the abstract machine's own.
//! Its clause `image` says that no byte of the disk with files changes; only [`on_files`] changes any. The crate depends on `kernel_state`,
//! `device_switch`, `tty_driver`, `disk_driver`, `file_server` and `name_space`; it doesn't know `core_calls`.
#![tactic(auto)]

mod console_reads;
mod console_signals;
mod console_tokens;
mod console_writes;
mod device_calls;
mod disk_calls;
mod dispatch;
mod file_calls;
mod file_texts;
mod name_calls;
mod open_calls;
mod texts;

pub use console_signals::{on_tx, on_type};
pub use disk_calls::on_disk;
pub use dispatch::{begin, go_on};
pub use file_calls::on_files;
