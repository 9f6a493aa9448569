//! The inputs of a run: a schedule, two disks and images. They are fetched over any host and judged, and refused for the first fault.
//!
//! [`fetch_inputs`] fetches the files in order, and judges each before the next is fetched. What the inputs are judged to be is a
//! definition over their bytes (`judged` in `specs/Judging.antt`): accepted, as events, disks and images, or refused for a cause. Running
//! out of memory is free.
#![tactic(auto)]

mod booting;
mod causes;
mod copies;
mod fetching;
mod input_disks;
mod inputs;
mod numbers;
mod refusals;
mod words;

pub use causes::Cause;
pub use input_disks::{clean_disk, raw_disk};
pub use inputs::{InputFiles, Inputs, fetch_inputs, fetch_named, images_of};
pub use numbers::{MOST_EVENTS, number};
pub use refusals::{Refusal, refuse};
pub use words::{fetch_words, read_words};
