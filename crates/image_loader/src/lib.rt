//! The reader of image files: programs as they are stored in a file, and the image that is loaded from one.
//!
//! An image file is a header of seven words of 32 bits, the lowest byte first, and the content after it. It loads as `image_in` in
//! `specs/ImageFiles.antt` says, which also names the first field that doesn't hold (`first_fault`). [`read_image`] answers the image, or
//! that field.
//!
//! Several images go into one RAM: [`first_overlap`], [`end_of_all`] and [`load_all`] go by the definitions of boot in the abstract
//! machine.
#![tactic(auto)]

mod faults;
mod header;
mod images;
mod loading;
mod memory_map;
mod parts;
mod reader;

pub use faults::ImageFault;
pub use images::Image;
pub use loading::{end_of_all, first_overlap, load_all};
pub use parts::Part;
pub use reader::read_image;
