//! Lines of tables with the names of processes as texts.

ghost use Rattle.std.specs.Prelude.{◌≡◌, ◌++◌, IfOk};
ghost use Rattle.gdb_command.specs.Monitor as spec;

use printed_runs::push_named;
use std::alloc::{AllocError, Global};
use text_lines::first_line;

/// The lines of a text, each with the name of a process as a text after it if it tells one of printable characters.
///
/// # Errors
/// Out of memory.
pub(crate) fn named_lines(alloc: Global, text: &[u8]) -> Result<Vec<u8>, AllocError>
    ensures named { IfOk result (λ named. named.items ≡ spec.named_lines text.now) }
{
    let mut named = Vec::new(alloc);
    let mut rest = text;
    while !rest.is_empty() {
        let (line, next) = first_line(rest);
        push_named(&mut named, line)?;
        named.extend_from_slice(b"\n")?;
        rest = next;
    }
    Ok(named)
}
