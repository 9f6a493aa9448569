//! The processes: their table, who runs, and who becomes ready (book, chapters 4 to 6).
//!
//! A clause sees a [`Procs`] as a `ProcessTable`: the processes by number, the current one, what is left of the quantum, and the last
//! number given. Together with the lists of a queue table it stands for the abstract machine's tables: `tables_of lists procs beside`
//! in `specs/Tables.antt`, where `beside` is everything else that the tables have. Each call that takes lists is an equation with the
//! machine's own step, for every `beside`; it requires that lists and processes fit (`Fits` in `specs/Fits.antt`) and ensures it again.
//! Queue 128 is the ready list, queue 129 has the sleepers.
//!
//! Beside the equation the clause `procs` has the whole table after the call, `lists` all lists, and `others` the queues that stay.
//!
//! For the crates above `proofs/` has the laws of moves: out of a list (`Removals`), then to a place (`Moves`), two calls that are one move
//! of the machine (`Steps`), the sleepers as the calls on a delta list leave them (`Sleepers`); how lists and processes go on fitting
//! (`Fitting`); and what follows from what always holds of the tables: the fit (`Inside`), and in which queue a process is (`Placed`).
//! `Starts` says that new lists and a new table stand for the machine's start. The crate depends on `queue_table` and the definitions of
//! `xinu_model`.
#![tactic(auto)]

mod creation;
mod equality;
mod procs;
mod scheduling;

pub use procs::Procs;
pub use scheduling::{READY, SLEEPERS};
