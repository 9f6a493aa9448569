//! The images of a session's processes.

use rv_asm::assemble;
use std::alloc::{AllocError, Global};
use std::io;

/// How many bytes the header of an image file has.
const HEADER: usize = 28;
/// How many bytes the content of each image has.
const CONTENT: u32 = 4096;
/// The registers of the arguments of a call.
const ARGUMENTS: [&str; 6] = ["a0", "a1", "a2", "a3", "a4", "a5"];

/// A text of assembler that makes these calls, a line each, and then loops.
pub(crate) fn calling(alloc: Global, calls: &str) -> Result<String, AllocError> {
    let mut text = String::new(alloc);
    for call in calls.lines() {
        add_call(alloc, &mut text, call)?;
    }
    text.push_str("end: j end\n")?;
    Ok(text)
}

// Adds a call: its arguments, which follow the name, go into a0 and the registers after it.
fn add_call(alloc: Global, text: &mut String, call: &str) -> Result<(), AllocError> {
    let mut words = call.split_whitespace();
    let name = words.next();
    for (register, argument) in ARGUMENTS.into_iter().zip(words) {
        text.push_str(format!(in alloc; "li {register}, {argument}\n")?.as_str())?;
    }
    if let Some(name) = name {
        text.push_str(format!(in alloc; "sys {name}\n")?.as_str())?;
    }
    Ok(())
}

/// The image file of a text of assembler at a place, of this priority; none if the text has a fault or is too long.
///
/// # Errors
/// Out of memory.
pub(crate) fn image(
    alloc: Global,
    place: u32,
    priority: &str,
    text: &str,
) -> io::Result<Option<Vec<u8>>> {
    let source = format!(in alloc; ".place {place}\n.priority {priority}\n{text}")?;
    if source.len() > 65_536 {
        return Ok(None);
    }
    let Ok(mut file) = assemble(alloc, source.as_bytes()) else {
        return Ok(None);
    };
    if file.len() > HEADER + CONTENT as usize {
        return Ok(None);
    }
    file.resize(HEADER + CONTENT as usize, 0)?;
    // The length of the content is at byte 12.
    file.as_mut_slice()[12..16].copy_from_slice(&CONTENT.to_le_bytes());
    Ok(Some(file))
}
