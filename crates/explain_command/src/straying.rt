//! Strays: what is told of the first of each kind.

use crate::places::{add_function, shown};
use crate::sights::place_line;
use memory_strays::{Stray, Strays};
use printed_runs::Text;
use run_story::Story;

/// Adds a line for each kind of which the first stray is in the step after so many events.
pub(crate) fn add_strays(
    text: &mut Text,
    strays: &Strays,
    taken: u32,
    story: &Story,
    files: &[Vec<u8>],
) {
    if let Some(stray) = new_in(strays.below(), taken) {
        begin(text, &stray, story);
        text.numbered("'s stack pointer is ", stray.bytes);
        text.put(if stray.bytes == 1 {
            " byte below its stack"
        } else {
            " bytes below its stack"
        });
        end(text, &stray, files);
    }
    if let Some(stray) = new_in(strays.stack(), taken) {
        begin(text, &stray, story);
        add_store(text, &stray);
        text.put(", in the stack of ");
        story.add_who(text, stray.owner.index());
        end(text, &stray, files);
    }
    let code = new_in(strays.code(), taken);
    add_stored(text, code, ", over an instruction", story, files);
    let free = new_in(strays.free(), taken);
    add_stored(text, free, ", in memory that is free", story, files);
    let null = new_in(strays.null(), taken);
    add_stored(
        text,
        null,
        ", through a null pointer or near it",
        story,
        files,
    );
}

// The stray, if it is in the step after so many events.
fn new_in(stray: Option<Stray>, taken: u32) -> Option<Stray> {
    let stray = stray?;
    if stray.taken == taken {
        Some(stray)
    } else {
        None
    }
}

// Adds the line of a store, and where it is, if there is one.
fn add_stored(
    text: &mut Text,
    stray: Option<Stray>,
    place: &str,
    story: &Story,
    files: &[Vec<u8>],
) {
    if let Some(stray) = stray {
        begin(text, &stray, story);
        add_store(text, &stray);
        text.put(place);
        end(text, &stray, files);
    }
}

// Adds its event, and whose it is.
fn begin(text: &mut Text, stray: &Stray, story: &Story) {
    text.numbered("Event ", stray.taken as u64 + 1);
    text.put(": ");
    story.add_who(text, stray.process.index());
}

// Adds the bytes that are stored.
fn add_store(text: &mut Text, stray: &Stray) {
    text.numbered(" stores ", stray.bytes);
    text.put(if stray.bytes == 1 {
        " byte at 0x"
    } else {
        " bytes at 0x"
    });
    text.hex_word(stray.address);
}

// Adds the place of the instruction.
fn end(text: &mut Text, stray: &Stray, files: &[Vec<u8>]) {
    text.put("; ");
    text.put(shown(place_line(stray.pc).bytes()));
    add_function(text, ", ", files, stray.pc);
    text.put("\n");
}
