//! The reference machine's devices: the console, the raw disk and the name space, as processes call them, and their interrupts.
//!
//! A call is a function over the state inside an event, named as its definition and in the definition's order; its promise is that
//! what it came to is the definition's result: `came_to m.new answer`. An event is a function that answers what is printed, and its promise
//! is the definition's `EventResult`. A call that the book says is refused answers -1 and changes nothing.
//!
//! Each call and each event begins as an event does (`start`: `IsStart`). What else one needs holds in each run: the console fits those
//! who wait for it (`console`), a span that is left of a call lies in RAM (`span`), the raw disk is sound (`sound`). Out of memory is the
//! only refusal by the code.
#![tactic(auto)]

pub mod console_reads;
pub mod console_signals;
pub mod console_writes;
mod constants;
mod controls;
pub mod disk;
mod echo;
pub mod names;
mod ranges;
mod receiving;
mod silence;
pub mod texts;
mod transmitting;
