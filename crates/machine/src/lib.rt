//! The machine: it is booted with images and disks, takes one event after another, and prints what happens.
//!
//! A [`Machine`] is seen as `Booted`: the `state` of the abstract machine for which it stands, the bytes of the disk with files (`image`),
//! the number of `events` that it took, and whether one of them ended the run (`over`). Between any two events, also after the run has
//! ended, the state is sound: that is part of what a `Machine` stands for (`specs/Machines.antt`).
//!
//! Printing is `Prints` of `host_port`: all bytes unless the printer fails, else a prefix of them; if the output is plain, of the bytes
//! that the console sent (`shown`). No call but [`Machine::boot`] and `clone` takes memory, and no list of lines is collected. The kernel
//! is `kernel`, and a line as its bytes `transcript`.
#![tactic(auto)]

mod boot;
mod copies;
mod events;
mod machine;
mod printing;
mod steps;
mod tables;

pub use kernel::BootFault;
pub use kernel_state::KernelState;
pub use machine::{Go, Machine};
pub use xinu_base::Event;
