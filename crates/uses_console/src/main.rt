//! A line reader: bytes are typed, and finished lines come out.
//!
//! The layer is `tty_driver`, the kernel's console. In cooked mode it keeps the line that is being typed, so that a wrong byte can be erased
//! and the line begun anew, and commits it at the newline. It knows no process: who waits for a line is the business of its caller, here a
//! loop over the typed bytes. The layer's echo, the bytes for the screen, isn't used: what has no room is dropped.
#![tactic(auto)]

mod lines;

use lines::type_byte;
use std::io;
use tty_driver::Tty;

/// What is typed: 8 erases a byte, 21 the line, and 4 on an empty line is the end.
const TYPED: [u8; 25] = *b"lime\x08\x08ne\nno\x15second line\n\x04";

fn main(rt: HostRuntime) -> io::Result<()> {
    match Tty::new(rt.alloc()) {
        Ok(mut tty) => run(&rt, &mut tty),
        Err(_) => println!(rt; "no memory"),
    }
}

// Types all bytes, and prints each line.
fn run<R: Print>(rt: &R, tty: &mut Tty) -> io::Result<()> {
    for b in &TYPED {
        if let Some(line) = type_byte(tty, *b) {
            print_line(rt, &line)?;
        }
    }
    Ok(())
}

// Prints a line, and the end as what it is.
fn print_line<R: Print>(rt: &R, line: &[u8]) -> io::Result<()> {
    match std::str::from_utf8(line) {
        Ok("\x04") => println!(rt; "end"),
        Ok(text) => print!(rt; "line: {text}"),
        Err(_) => println!(rt; "not a text"),
    }
}
