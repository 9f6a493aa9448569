//! The kernel's tables: processes, the ready list, waiters, sleepers, semaphores, messages and the ticks, as one value (book, chapters 4 to
//! 8 and 13).
//!
//! A clause sees a `KernelTables` as the abstract machine's `Tables`. That they are as at each moment of an event is kept by the type, so no
//! call has a condition on lists or counts, and the crates above name none. Ready processes, waiters and sleepers are in one table of lists:
//! the abstract machine's lists are read off it (`specs/KernelTables.antt`). There is one small method for each move of the abstract
//! machine. Each says that the new tables are those of the model's move on the old ones, and what it answers. `new` and `clone` alone take
//! memory. The crate depends on `process_core`, `semaphores`, `delta_clock`, `messages` and `queue_table`, and on the laws of `table_laws`.
#![tactic(auto)]

mod clock_moves;
mod current;
mod equality;
mod leaving;
mod message_moves;
mod process_moves;
mod semaphore_moves;
mod sending;
mod tables;
mod waking;
mod walks;

pub use tables::KernelTables;
