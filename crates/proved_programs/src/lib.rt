//! Programs that are proved for every schedule, and one without a lock that is not.
//!
//! Nothing of it runs: each of the [`laws`] is the contract of a function that does nothing, proved for all disks and schedules.
//!
//! Two processes add 1 to one word of RAM over and over, each between `wait` and `signal` on one semaphore, which the first of them makes
//! (`specs/Counting`); three add 3 (`specs/Adding`); two sleep between the load and the store, with the token (`specs/Sleeping`); two add 1 ten
//! times each, in a subroutine (`specs/Tens`). Their outlines say what is known at each word (`specs/Outlining`). That each word obeys is checked
//! by computing (`program_logic`), and all else follows.
#![tactic(auto)]

pub mod laws;
