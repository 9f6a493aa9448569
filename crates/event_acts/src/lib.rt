//! What the events of a run do with memory, and what they change, as a detector of data races is told of it.
//!
//! [`begin_event`] tells the deeds of an event that the state ahead of it tells, and [`end_event`] the others once it was taken, by what an
//! [`Ahead`] keeps of the state ahead of it.
//!
//! The deeds are those of `deeds_of` in `data_races`, and the changes those of its `specs/Changes.antt`; that isn't proved here.
#![tactic(auto)]

mod acts;
mod ahead;
mod changes;
mod consoles;
mod disks;
mod events;
mod instructions;
mod memory;
mod texts;

pub use acts::Acts;
pub use ahead::{Ahead, PoolAhead, PortAhead, SemaphoreAhead, port_of, semaphore_of};
pub use changes::{absent, begins, dies, is_remade, is_renewed, is_sent, takes_message, wakes};
pub use events::{begin_event, end_event};
