//! ELF files for RV32: the reader, the writer, and the reader of image files of either kind.
//!
//! An ELF file loads as `elf_image` in `specs/ElfFiles.antt` says, which also names the first test that fails (`elf_fault`). Its loaded
//! segments are the parts of the image; a note named `XINU` may give the priority and the stack. An image file is an ELF file if it
//! begins with the letters of one, and else an image file of `image_loader`. [`load`] reads both kinds.
#![tactic(auto)]

mod faults;
mod files;
mod header;
pub mod laws;
mod notes;
mod parts;
mod reader;
mod segments;
mod writer;

pub use faults::{ElfFault, LoadFault};
pub use files::load;
pub use reader::read_elf;
pub use writer::write_elf;
