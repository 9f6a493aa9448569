//! Messages: each process has a slot for one word (book, chapter 8, `send.c`, `receive.c`).
//!
//! A clause sees `Slots` as the abstract machine's messages: a list by process number of what each process holds (`held` in
//! `specs/Held.antt`). Who waits for a message, and becomes ready when it is sent one, is the business of the crates above.
//!
//! No call has a condition. The crate depends on `xinu_base`.
#![tactic(auto)]

mod slots;

pub use slots::Slots;
