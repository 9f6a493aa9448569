//! What a process waits for: a semaphore, or a tick of the clock.
//!
//! The tables keep the waiters of each semaphore and the sleepers, and no process knows in which list it is. The searches [`awaited`] and
//! [`wake_of`] say it of one process; `specs/Waiting.antt` defines them.
#![tactic(auto)]

mod waiting;

pub use waiting::{awaited, wake_of};
