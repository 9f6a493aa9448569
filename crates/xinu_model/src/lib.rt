//! The abstract machine: definitions, and the laws on its outcomes. That one text has one outcome is a law of `xinu_laws`.
//!
//! Nothing of it runs. `specs/` has a file or a folder for each subject: `Process`, `Semaphores`, `Messages`, `Clock`, `Heap`, `Pools`,
//! `Ports`, `Console`, `RawDisk`, `Files`, `Names`, `Devices` (what each device offers), `Isa` (the instructions), then `Machine` (the
//! state, and the end of an event), `Calls` (the table of calls), `Events`, `Boot`, `Runs`, `Steps` (many steps that print nothing),
//! `Text`, and `Sound` (what always holds). The contracts of all other crates cite these definitions. `docs/KERNEL.md` says them in words.
//! [`laws`] has the laws on outcomes, each the contract of a function that does nothing.
#![tactic(auto)]

pub mod laws;
