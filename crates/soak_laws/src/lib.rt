//! What comes of soak tests: each takes all the events of its schedule, and ends with it.
//!
//! Nothing of it runs: each law is the contract of a function that does nothing, proved for all disks and numbers.
//!
//! The four programs of a number load registers, make one of sixteen calls, and jump back to their first word. No such call ends a process or
//! makes the kernel panic, whatever its arguments, and none writes to RAM below the heap. So after each event of the schedule each process is
//! still within its program (`specs/Running`), and the run is never over before its events are.
//!
//! [`laws`] has what is proved.
#![tactic(auto)]

pub mod laws;
