//! Which calls are refused in a run, and why: those that the kernel answers with -1.
//!
//! | A call is refused | In the event |
//! |---|---|
//! | as it is made | of the step that makes it |
//! | after its caller waited | of the step in which it goes on |
//! | of one who waits on a semaphore that is deleted | of the call that deletes it |
//! | on the raw disk, whose completion fails | of that completion |
//!
//! A value that is -1, a priority, a count or a message, is no refusal. A call on files that is refused as it takes effect is told as its caller
//! goes on; one that takes effect as it is made isn't told.
//!
//! A clause sees [`RefusedCalls`] as the list of the refused calls so far. That of a run is `refusals_of` in `specs/Refusals.antt`, by the
//! states ahead of its events. The reasons are those of `refusal_reasons`.
#![tactic(auto)]

mod kinds;
mod reasons;
mod refused;
mod steps;
mod waiters;

pub use kinds::{Kind, each_of, kinds_of};
pub use refused::{Refused, RefusedCalls};
