//! What the console sent and what was typed, as lines.

use printed_runs::Text;
use std::alloc::Global;

/// A stream of bytes as lines: each begins with `  | `. A line feed ends one; a printable character is shown as it is, others as in C.
#[derive(Drop)]
pub(crate) struct Stream {
    text: Text,
    /// Whether the last line hasn't ended.
    is_begun: bool,
}

impl Stream {
    /// Of no byte.
    pub(crate) fn new(alloc: Global) -> Stream {
        Stream {
            text: Text::new(alloc),
            is_begun: false,
        }
    }

    /// Adds a byte.
    pub(crate) fn add(&mut self, byte: u8) {
        if !self.is_begun {
            self.text.put("  | ");
        }
        add_byte(&mut self.text, byte);
        self.is_begun = byte != b'\n';
    }

    /// Adds a byte that was typed. A carriage return ends a line.
    pub(crate) fn add_typed(&mut self, byte: u8) {
        self.add(if byte == b'\r' { b'\n' } else { byte });
    }

    /// Adds the bytes that lines say that the console sent.
    pub(crate) fn add_sent(&mut self, lines: &str) {
        for line in lines.lines() {
            if let Some(digits) = line.strip_prefix("con ") {
                if let Ok(byte) = u8::from_str_radix(digits, 16) {
                    self.add(byte);
                }
            }
        }
    }

    /// Tells it below a head, unless it has no byte.
    pub(crate) fn tell(&self, text: &mut Text, head: &str) {
        if !self.text.is_empty() {
            text.put(head);
            text.add(&self.text);
            if self.is_begun {
                text.put("\n");
            }
        }
    }
}

// Adds a byte as it is shown. A carriage return isn't.
fn add_byte(text: &mut Text, byte: u8) {
    match byte {
        b'\r' => {}
        b'\n' => text.put("\n"),
        b' '..=b'~' => text.character(char::from(byte)),
        b'\t' => text.put("\\t"),
        8 => text.put("\\b"),
        _ => {
            text.put("\\x");
            text.byte(byte);
        }
    }
}
