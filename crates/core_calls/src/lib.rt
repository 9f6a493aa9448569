//! The calls on processes, memory, semaphores, messages, the clock, buffer pools and ports, what is left of them, and a tick (book,
//! chapters 4 to 13).
//!
//! [`begin`] and [`go_on`] take a call by its number or by what is left of it, [`tick`] is a tick of the clock, and [`exit`] the death of
//! the caller.
//!
//! Each call is a function over a `KernelState`, and its clause is the abstract machine's own call of that name. None changes the disk with
//! files: `image`. The crate depends on `kernel_state` and, for the types of its parts, on the crates below that.
#![tactic(auto)]

mod clock_calls;
mod creation;
mod dispatch;
mod memory_calls;
mod message_calls;
mod pool_calls;
mod port_calls;
mod process_calls;
mod semaphore_calls;

pub use dispatch::{begin, go_on, tick};
pub use process_calls::exit;
