//! The reference machine's files: the files by their names, the open devices, the effect of each call on files, and the calls under way,
//! as plain lists.
//!
//! The files of the abstract machine once more, as code to be read beside the definitions of `xinu_model` (`specs/Files`): the same names
//! in the same order. A file is its name and its bytes, the files are a list in the order of their names, and no block of a disk is named;
//! whether there is room is told by sizes. A clause sees a [`FileSystem`](reference_state::FileSystem) as the record of the definitions, and
//! each function's promise is that it is the definition's function, with the system changed in place.
//!
//! How many calls take effect at a completion, and whether one takes effect as it is made, is the machine's one free choice; here it is an
//! argument, so whoever runs the machine chooses, or reads the choice from a transcript. A clause sees the calls, RAM and what has happened
//! in the event as the record `FileStep` of the definitions (`step_of`). [`issued`] makes a call, [`calls_completed`] is a completion of
//! the disk, and [`file_effect`] is the effect of each of the ten calls.
//!
//! Out of memory is the only refusal (`NoMemory`). What counts has a condition that holds in each run: `small`, that files are as few and as
//! small as on a disk and that no position is beyond the end of its file; `few`, that the bytes of a write are no more than RAM has;
//! `sound`, that the calls under way are sound; and `disk`, that the disk has at most 65542 blocks.
#![tactic(auto)]

mod bounds;
mod calls;
mod first;
pub mod laws;
mod opening;
mod reading;
mod room;
mod stored;
mod systems;
mod work;
mod writing;

pub use bounds::{least_effects, most_turns};
pub use calls::file_effect;
pub use first::FileNote;
pub use opening::{close_file, delete_file, open_file};
pub use reading::{getc_file, read_file, seek_file, size_of_file};
pub use systems::FileAnswer;
pub use work::{calls_completed, issued};
pub use writing::{putc_file, truncate_file, write_file};
