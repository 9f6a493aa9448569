//! Why calls are answered -1: for each call of the kernel its causes in order, as the book gives them, and the proof that it is answered -1 in
//! its event if and only if one of them holds.
//!
//! `specs/` has a file for each chapter: a row for each call, whose causes are tests of its arguments and of the state, each with its
//! [`Reason`]. The reason of a call (`reason`, `specs/Reasons.antt`) is that of the first of its row's causes that holds. A value that is -1, a
//! priority, a count or a message, is a reason of its own.
//!
//! [`reason_of`] and [`later_reason_of`] compute the reasons in a state of the kernel, and [`laws`] has the proof.
//!
//! A call that waits is answered later: it has no reason in its event. The later reasons are in `specs/Later.antt`.
#![tactic(auto)]

mod asked;
mod clock_causes;
mod device_causes;
mod file_causes;
mod later_causes;
pub mod laws;
mod looks;
mod memory_causes;
mod message_causes;
mod name_causes;
mod numbers;
mod pool_causes;
mod port_causes;
mod process_causes;
mod reasons;
mod semaphore_causes;
mod words;

pub use asked::reason_of;
pub use later_causes::later_reason_of;
pub use reasons::{Cause, Reason};
