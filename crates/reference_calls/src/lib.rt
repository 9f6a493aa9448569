//! The reference machine's calls on processes, memory, semaphores, messages and the clock, what is left of those that waited, a tick, and
//! the steps that make calls.
//!
//! A call is a function over the state inside an event, named as its definition and in the definition's order; its promise is that
//! what it came to is the definition's result: `came_to m.new answer`. A call that the book says is refused answers -1 and changes
//! nothing. The words of a call are as the process gave them, signed or not as the definition reads them. [`dispatch`] finds a call by its
//! number.
//!
//! Each call begins as an event does (`start`: `IsStart`). Two conditions hold in each run: a tick to come fits its word (`few`,
//! `few_ticks`), as the ticks so far are at most 2147483647; and at most 64 processes wait on a semaphore whose count is asked for
//! (`few_waiters`). Out of memory is the only refusal by the code, and it comes only from lists of processes: a call that takes no memory of
//! the host, as those on the heap, always answers (`answers`). The heap lies in RAM, so each address of it is a word.
//!
//! The calls on pools and ports are in `reference_ports`, those on devices in `reference_switch`, `reference_devices` and `reference_files`.
#![tactic(auto)]

mod cells;
pub mod clock;
pub mod creation;
pub mod death;
pub mod dispatch;
mod harts;
mod heap;
pub mod memory_calls;
pub mod messages;
pub mod processes;
mod requests;
pub mod semaphores;
pub mod steps;
pub mod words;
