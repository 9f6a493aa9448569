//! What a machine prints of a run, read back: what each process does, what it asked for, and how each semaphore was used.
//!
//! Of semaphores a [`Reader`] tells what the lines say: `knows` of [`Reader::new`] and [`Reader::note`], and `usage` of [`Reader::usage`],
//! by the definitions `note_of`, the words of a line (`specs/Notes.antt`), and `usage`, what follows from all lines so far
//! (`specs/Semaphores.antt`). What [`push_named`] appends is `named_line` (`specs/Names.antt`). The other calls have no contract: each is
//! safe and returns, and only [`Text::whole`] refuses, if memory ran out. What pictures and texts show of runs is tested.
#![tactic(auto)]

mod doings;
mod names;
mod notes;
mod reader;
mod tables;
mod text;
mod usages;

pub use doings::{ABSENT, Awaited, Doing};
pub use names::push_named;
pub use reader::Reader;
pub use tables::{Made, PROCESSES, Shown, made_as, number_of};
pub use text::Text;
pub use usages::{Usage, User};
