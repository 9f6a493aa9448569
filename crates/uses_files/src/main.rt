//! A log in a file: each line is on the disk once it is added.
//!
//! The layer is `local_files`, the kernel's file engine. It has no disk: it says which block it wants, and its caller reads or writes that
//! (`src/call.rt`). Its contract is the abstract machine's `file_effect`, over the files as they are read off the disk's bytes. So there is
//! nothing to flush, and the log can be read while it is open.
#![tactic(auto)]

mod call;
mod log;

use lfs_layout::CleanImage;
use local_files::Files;
use log::add_lines;
use std::alloc::Global;
use std::io;

/// How many blocks the disk has.
const BLOCKS: u32 = 20;

/// What the calls answered, and the disk that they left.
struct Written {
    replies: [i32; 3],
    disk: Vec<u8>,
}

impl Drop for Written {
    fn drop(self) {
        let Written {
            replies: _replies,
            disk: _disk,
        } = self;
    }
}

fn main(rt: HostRuntime) -> io::Result<()> {
    let alloc = rt.alloc();
    match new_log(alloc) {
        Some(log) => print_written(&rt, alloc, &log),
        None => println!(rt; "no memory"),
    }
}

// Adds two lines to a log on an empty disk. `None` if there is no memory.
fn new_log(alloc: Global) -> Option<Written> {
    match CleanImage::empty(alloc, BLOCKS) {
        Ok(image) => log_on(alloc, image),
        Err(_) => None,
    }
}

// Adds two lines to a log on a disk of which no file is open. `None` if there is no memory.
fn log_on(alloc: Global, image: CleanImage) -> Option<Written> {
    let blocks = image.blocks();
    match Files::new(alloc, blocks) {
        Ok(mut files) => {
            let mut disk = image.into_bytes();
            let replies = add_lines(&mut files, &mut disk);
            Some(Written { replies, disk })
        }
        Err(_) => None,
    }
}

// Prints the replies, takes the disk as it is, and prints the log that is read from it.
fn print_written<R: Print>(rt: &R, alloc: Global, log: &Written) -> io::Result<()> {
    for reply in &log.replies {
        println!(rt; "{reply}")?;
    }
    match log_of(alloc, &log.disk) {
        Some(bytes) => print_text(rt, &bytes),
        None => println!(rt; "no log"),
    }
}

// The bytes of the log on a disk. `None` if the disk isn't clean, if there is no log, or if there is no memory.
fn log_of(alloc: Global, disk: &[u8]) -> Option<Vec<u8>> {
    match CleanImage::new(alloc, Vec::from_slice(alloc, disk).ok()?) {
        Ok(image) => match image.read_file(alloc, b"log") {
            Ok(bytes) => bytes,
            Err(_) => None,
        },
        Err(_) => None,
    }
}

// Prints a text.
fn print_text<R: Print>(rt: &R, bytes: &[u8]) -> io::Result<()> {
    match std::str::from_utf8(bytes) {
        Ok(text) => print!(rt; "{text}"),
        Err(_) => println!(rt; "not a text"),
    }
}
