//! The list of events: what each step changed.

use crate::changes::Changes;
use printed_runs::Text;
use rv_disasm::register_name;

/// Adds what a step changed.
pub(crate) fn add_changes(text: &mut Text, changes: &Changes) {
    if let Some((number, now)) = changes.register {
        text.put(" (");
        text.put(if number < 32 {
            register_name(number)
        } else {
            ""
        });
        add_value(text, now);
    }
    if let Some((address, now)) = changes.stored {
        text.put(" (0x");
        text.hex_word(address);
        add_value(text, now);
    }
}

// Adds what a place holds now.
fn add_value(text: &mut Text, now: u32) {
    text.put(" = ");
    text.hex_word(now);
    text.put(")");
}
