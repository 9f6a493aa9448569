//! The reference machine's calls on buffer pools and ports, and what is left of those that waited.
//!
//! A call is a function over the state inside an event, named as its definition and in the definition's order; its promise is that
//! what it came to is the definition's result: `came_to m.new answer`. A call that the book says is refused answers -1 and changes nothing.
//!
//! The calls are in [`new_pools`], [`pools`] and [`ports`], and [`dispatch`] finds them by their numbers.
//!
//! Each call begins as an event does (`start`: `IsStart`). What else a call needs holds in each run: the tables, the pools or the ports are
//! sound as the laws on the abstract machine say (`sound`, `pools`, `ports`), and no port has the greatest number (`numbers`), as a port is
//! renewed at most once in an event. Out of memory is the only refusal by the code; `ptcreate` takes none and always answers (`answers`).
#![tactic(auto)]

mod buffers;
pub mod dispatch;
pub mod new_pools;
pub mod pools;
mod port_changes;
pub mod ports;
mod queues;
