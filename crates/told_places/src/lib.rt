//! Places of a program, as the commands tell them: by functions and variables of the files of its images.
//!
//! `specs/Places.antt` defines what is told. What a file says of an address is `elf_symbols`'. [`add_function`] and [`nearest_variable`]
//! have no contract: each is safe and returns.
#![tactic(auto)]

mod places;

pub use elf_symbols::Place;
pub use places::{add_function, nearest_function, nearest_variable, push_function, shown};
