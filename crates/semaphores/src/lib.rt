//! Counting semaphores: tokens, and the processes that wait for one (book, chapter 7).
//!
//! A clause sees a `Sems` as a `SemaphoreTable`: owner and signed count of each semaphore, and the last number given. A count above 0
//! says how many tokens there are, one below 0 how many processes wait; who waits is in the list of the queue of the semaphore's number.
//! Lists, processes and semaphores together stand for the abstract machine's tables: `tables_of lists procs (beside sems messages ticks)`.
//! Each call is an equation with the machine's own step, for all messages and ticks. Calls that take lists require that these fit the
//! counts (`Counts` in `specs/Counts.antt`) and the processes (`Fits` of `process_core`), and ensure it again.
//!
//! The clause `others` says which queues stay. For the crates above `proofs/Counting` has what is read off the entries (`seen_at`,
//! `count_at`, `owner_at`). The crate depends on `process_core` and `queue_table`.
#![tactic(auto)]

mod sems;
mod waiting;

pub use sems::{SemaphoreEntry, Sems};
pub use waiting::Signalled;
