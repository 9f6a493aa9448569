//! What is told of the processes that are left in a state: of each a line that says what it does, and a line that says where it is.
//!
//! [`left_text`] tells of all of them (`AreTold` in `specs/Left.antt`), and [`process_text`] of one (`IsTold` there).
//!
//! Of a process is told what its state says that it does (`left_line` in `specs/Lines.antt`), its name (`name_of` in `specs/Names.antt`),
//! for whose semaphore it waits (`awaited_of` in `specs/Awaited.antt`), since which event it does so, by the lives of `process_lives`, when it
//! wakes and how long it is ready (`more_text` in `specs/More.antt`), and where it is: the call that its registers ask for, the
//! address, the function that has it, and the instruction there (`whereabouts_text` in `specs/Whereabouts.antt`). How the semaphore was
//! used on which it waits is what the story of the run knows.
#![tactic(auto)]

mod awaited;
mod calls;
mod left;
mod lines;
mod more;
mod names;
mod whereabouts;

pub use left::{head_of, left_text, process_text};
pub use whereabouts::place_of;
