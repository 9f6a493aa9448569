//! Which of the program's streams are terminals.

use std::path::Path;
use std::rt::Runtime;

/// The files of two streams (Linux, proc(5)).
pub(crate) const STANDARD_INPUT: &str = "/proc/self/fd/0";

pub(crate) const STANDARD_ERROR: &str = "/proc/self/fd/2";

/// Whether a stream is a terminal, by the file that it is.
pub(crate) fn is_terminal<R: Runtime>(rt: &R, stream: &str) -> bool {
    match Path::new(stream).read_link(rt) {
        Ok(file) => file.starts_with("/dev/pts") || file.starts_with("/dev/tty"),
        Err(_) => false,
    }
}
