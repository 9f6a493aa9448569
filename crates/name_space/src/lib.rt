//! The name space: mounted prefixes, and what they make of a name (book, chapter 21).
//!
//! A clause sees [`Names`] as the abstract machine's rows (`NameRow` in `xinu_model/specs/Names/Mounting`), in the order in which they
//! were mounted. Each call is the definition of that machine: `mounted` mounts a prefix, and `map_name` maps a name.
//!
//! No call has a condition, and none takes memory: the rows are part of the value. What is opened under a mapped name is the business
//! of the crates above. The crate depends on `xinu_model`; the lists are the kit's `arrayvec`.
#![tactic(auto)]

mod mapping;
mod names;
mod rows;
mod texts;

pub use mapping::{MappedName, NoMap};
pub use names::Names;
pub use xinu_base::Dev;
