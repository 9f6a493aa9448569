//! The kernel's lists of processes in one array of linked entries: the ready list, the waiters of each semaphore and the
//! sleepers (book, chapter 4, `queue.h`).
//!
//! Contracts speak of `lists t`, one list of (process, key) for each queue, which the crates above cite and never unfold. The words on
//! lists are in `specs/Lists.antt`: `place` (the queue of a process), `IsByKey` (kept by key), `IsDelta` (a delta list, whose keys are the
//! differences of the delays), `delays`. The insertion by key is `ready_insert` of `xinu_base`, the abstract machine's own.
//!
//! In each call a process `p` is below P and a queue `q` below Q. [`QueueTable`] has the calls.
//!
//! After each call the entries are *linked* (clause `linked`): followed from a queue's head they give exactly its list of processes and keys,
//! followed back from its tail the same list reversed, and no process is met in two lists. The table keeps this as a ghost fact.
//! `proofs/Laws.antt` has the laws for callers; none names an entry. It holds for every P and Q with P + 2Q at most 65535. The test
//! `a_removal_makes_no_search` shows that a removal makes no search. The crate depends on `xinu_base`.
//!
//! # Example
//!
//! Four processes and one queue, which is a delta list: process 2 has 5 ticks left and process 0 has 3, so process 0 is first, with key 3,
//! and the key of process 2 is what it has left after that, 2. After a tick the first key is 2. Each process is in at most one list.
//!
//!     use queue_table::QueueTable;
//!     use std::io;
//!
//!     fn main(rt: HostRuntime) -> io::Result<()> {
//!         let Ok(mut timers) = QueueTable::<4, 1>::new(rt.alloc()) else {
//!             return println!(rt; "no memory");
//!         };
//!         timers.insert_delta(2, 0, 5);
//!         timers.insert_delta(0, 0, 3);
//!         timers.lower_first(0);
//!         let first = timers.first(0);
//!         let left = timers.first_key(0);
//!         println!(rt; "{first:?} {left:?}")
//!     }
#![tactic(auto)]

mod comparing;
mod delays;
mod links;
mod order;
mod table;

pub use links::Links;
pub use table::QueueTable;

/// The kernel's table: 64 processes; queues 0 to 127 are for the semaphores, 128 is the ready list, 129 the sleepers.
pub type Lists = QueueTable<64, 130>;
