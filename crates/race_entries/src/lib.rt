//! The last load and the last store of each byte of RAM by each process, since the byte was given last: what a detector of data races
//! compares the next access with.
//!
//! A clause sees [`Entries`] as the list of entries of each byte, and `last` of `specs/Entries.antt` reads it as the detector of
//! `happens_before` does. The module [`laws`] says that both go the same way, and that what is last is listed.
//!
//! A byte has a list of its own: an access to a byte of one process looks at two entries at most. The list keeps the memory that it
//! took after its byte is given.
#![tactic(auto)]

mod byte;
mod entries;
mod entry;
pub mod laws;

pub use entries::Entries;
pub use entry::Entry;
