//! The kernel's state inside an event, and the moves that several families of calls make.
//!
//! A clause sees a [`KernelState`] as the abstract machine's `CallState`, `call`: its state inside an event, the replies to released processes
//! so far, and whether a resched is owed; and beside it the bytes of the disk with files, `image`. No fact is kept of it, so its parts are
//! public: whoever changes one owes the clause of the call that does, and `kernel` keeps what holds of all of it.
//!
//! The crate depends on `kernel_tables`, `freelist_memory`, `buffer_pools`, `ports`, `tty_driver`, `disk_driver`, `name_space`, `file_server`
//! and `rv_hart`, whose values are its parts. Of a `FileServer` the state has the file work and the bytes of the disk.
#![tactic(auto)]

mod begun;
mod copies;
mod death;
mod new_process;
mod releases;
mod replies;
mod state;

pub use begun::Begun;
pub use new_process::{Creation, make_on_stack};
pub use replies::{Replies, answer_released, owes_after};
pub use state::{KernelState, half, signed};
