//! Ports: queues of messages with a bound on how many wait in each (book, chapter 11).
//!
//! A clause sees [`Ports`] as a `PortTable`: the abstract machine's ports, and the number at which the next search begins. Each call is an
//! equation with the machine's own definitions (`specs/Calls.antt`). The messages of all ports lie in a hundred nodes, which are linked
//! in a table of queues, one list for each port and one for the free nodes: to send and to receive makes no search. Who waits on the
//! two semaphores of a port is the business of the crates above. No call takes memory but [`Ports::new`] and `clone`.
//!
//! The crate depends on `queue_table`, and on `process_core` for the laws of its search.
#![tactic(auto)]

mod moves;
mod nodes;
mod table;

pub use moves::{Received, Sent};
pub use table::{PortEntry, PortHead, Ports};
