//! The console's driver: what is received and edited, what is echoed and sent (book, chapter 15).
//!
//! A clause sees a [`Tty`] as the abstract machine's console (`Console` in `xinu_model/specs/Console/State`): mode, whether echo is on,
//! whether output is held, the items that can be taken, the line, the output and the echo. The code has three rings, and each call is the
//! step of that definition.
//!
//! The items and the line are one ring in which the last bytes are the line (`specs/Input`); erasing takes the last byte of the line, so it
//! never takes a committed item. Who waits for an item or for room is the business of the crates above. The crate depends on
//! `xinu_model`; the rings are the kit's `circular_buffer`.
//!
//! # Example
//!
//! A console in cooked mode: nothing can be taken until the line ends. Of `hi`, a wrong letter, its erasure (8) and a newline, three items
//! are committed at the newline: `h`, `i` and the newline itself. What `transmit` answers is the echo, the erasure as three bytes.
//!
//!     use std::io;
//!     use tty_driver::Tty;
//!
//!     fn main(rt: HostRuntime) -> io::Result<()> {
//!         let Ok(mut tty) = Tty::new(rt.alloc()) else {
//!             return println!(rt; "no memory");
//!         };
//!         for b in [b'h', b'i', b'x', 8, 10] {
//!             tty.receive(b);
//!         }
//!         let items = tty.sizes().committed;
//!         println!(rt; "{items}")?;
//!         for _ in 0..tty.sizes().echo {
//!             if let Some((b, _)) = tty.transmit() {
//!                 println!(rt; "{b}")?;
//!             }
//!         }
//!         Ok(())
//!     }
#![tactic(auto)]

mod constants;
mod controls;
mod echoing;
mod input;
mod receiving;
mod rings;
mod transmitting;
mod tty;

pub use tty::{Tty, TtySizes};
pub use xinu_base::{Item, TtyMode};
