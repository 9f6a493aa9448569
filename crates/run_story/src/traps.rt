//! Traps in words.

use crate::lives::Lives;
use printed_runs::{Text, number_of};

/// Tells of the trap in an event, by what its line has after `trap`: the process and the cause.
pub(crate) fn add_trap(text: &mut Text, event: u64, lives: &Lives, rest: &str) {
    let mut words = rest.split_whitespace();
    let process = number_of(words.next());
    let cause = words.next().unwrap_or("");
    text.numbered("Trap in event ", event);
    text.put(": ");
    lives.add_who(text, process as usize);
    text.put(" was ended (");
    text.put(cause);
    text.put("): ");
    text.put(meaning(cause));
    text.put(".\n");
}

// What a cause of a trap means.
fn meaning(cause: &str) -> &'static str {
    match cause {
        "fetch" => "its pc isn't a multiple of 4, or is outside RAM",
        "illegal" => "the word at its pc isn't an instruction",
        "break" => "it executed ebreak",
        "target" => "it jumped to an address that isn't a multiple of 4",
        "load" => "it loaded from an address that isn't in RAM, or not a multiple of the width",
        "store" => "it stored to an address that isn't in RAM, or not a multiple of the width",
        _ => "",
    }
}
