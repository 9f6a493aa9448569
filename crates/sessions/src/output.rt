//! What a command prints, as it is written in a session.

use std::alloc::{AllocError, Global};

/// What was sent on a channel. A last line that doesn't end has a `\` there.
pub(crate) fn shown(alloc: Global, bytes: &[u8]) -> Result<String, AllocError> {
    let mut text = String::new(alloc);
    add_bytes(alloc, &mut text, bytes, '\n')?;
    if bytes.last().is_some_and(|byte| *byte != b'\n') {
        text.push_str("\\\n")?;
    }
    Ok(text)
}

/// Adds bytes: the end of a line as this character, printable characters as they are, and others by their number.
pub(crate) fn add_bytes(
    alloc: Global,
    text: &mut String,
    bytes: &[u8],
    line_end: char,
) -> Result<(), AllocError> {
    for byte in bytes {
        match *byte {
            b'\n' => text.push(line_end)?,
            b'\\' => text.push_str("\\x5c")?,
            b' '..=b'~' => text.push(char::from(*byte))?,
            _ => text.push_str(format!(in alloc; "\\x{byte:02x}")?.as_str())?,
        }
    }
    Ok(())
}
