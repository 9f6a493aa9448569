//! An access, as it is told.

use crate::calls::makes_call;
use crate::history::History;
use printed_runs::Text;
use race_entries::Entry;
use replayed_run::Replay;
use told_places::add_function;
use xinu_base::call_name;

/// Adds an access to a byte.
pub(crate) fn add_access(
    text: &mut Text,
    access: &Entry,
    byte: u32,
    history: &History,
    replay: &Replay,
) {
    text.numbered("  event ", access.event as u64);
    text.put(": ");
    add_who(text, access, history);
    if access.stores && history.lives.is_death(access.process, access.event, byte) {
        text.put(" dies, its stack is given back\n");
        return;
    }
    text.put(if access.stores { " stores" } else { " loads" });
    if makes_call(replay.state(), access.place) {
        text.put(" (in ");
        text.put(call_name(history.calls.number_in(access.process, access.event)));
        text.put(")");
    }
    text.put(" at 0x");
    text.hex_word(access.place);
    add_function(text, ", ", replay.files(), access.place);
    text.put("\n");
}

/// Says so if the process of an access is another one than that at a place, whose stack it is in.
pub(crate) fn add_visitor(text: &mut Text, access: &Entry, owner: usize, history: &History) {
    let is_own = match history.lives.who(access.process, access.event) {
        Some(at) => at == owner,
        None => false,
    };
    if !is_own {
        if let Some(life) = history.lives.at(owner) {
            text.put("  ");
            add_who(text, access, history);
            text.put(" is in the stack of ");
            life.add_who(text);
            text.put("\n");
        }
    }
}

// Adds the number and the name of the process of an access.
fn add_who(text: &mut Text, access: &Entry, history: &History) {
    if let Some(at) = history.lives.who(access.process, access.event) {
        if let Some(life) = history.lives.at(at) {
            life.add_who(text);
        }
    } else {
        text.number(access.process as u64);
    }
}
