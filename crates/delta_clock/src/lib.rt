//! The clock: ticks, and who sleeps until when (book, chapter 13).
//!
//! A clause sees a `Clock` as the number of ticks since the start, and the sleepers with the ticks at which they wake: `sleepers_of ticks l`
//! of the list of queue 129, in `process_core`. The list holds differences. Each call is an equation with the machine's own step, for all
//! processes and for everything else that the tables have. Calls that take lists require that the queue is a delta list in which nobody
//! was to wake by now (`WakesLater` in `specs/Wakeups.antt`), and ensure it again.
//!
//! `lists` and `others` say which queues change; `fits` that lists and processes go on fitting. For the crates above `proofs/Ready` has the
//! law `ready_due`: that the due become ready is the machine's step, whether or not they have left the sleepers before. The crate depends on
//! `process_core` and `queue_table`.
#![tactic(auto)]

mod clock;

pub use clock::Clock;
