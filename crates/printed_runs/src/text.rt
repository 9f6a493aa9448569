//! A text while it is written.

use std::alloc::{AllocError, Global};

/// A text while it is written, which remembers if memory ran out. So what writes it has no errors: who takes the text asks once.
#[derive(Drop)]
pub struct Text {
    text: String,
    is_whole: bool,
}

impl Text {
    /// Nothing so far.
    pub fn new(alloc: Global) -> Text {
        Text {
            text: String::new(alloc),
            is_whole: true,
        }
    }

    /// This text so far.
    pub fn of(alloc: Global, text: &str) -> Text {
        let mut made = Text::new(alloc);
        made.put(text);
        made
    }

    /// What takes its memory.
    pub fn alloc(&self) -> Global {
        *self.text.allocator()
    }

    /// Adds a text.
    pub fn put(&mut self, text: &str) {
        self.is_whole = self.is_whole && self.text.push_str(text).is_ok();
    }

    /// Adds a character.
    pub fn character(&mut self, character: char) {
        self.is_whole = self.is_whole && self.text.push(character).is_ok();
    }

    /// Adds a number.
    pub fn number(&mut self, number: u64) {
        self.is_whole = self.is_whole && write!(self.text, "{number}").is_ok();
    }

    /// Adds the two hexadecimal digits of a byte.
    pub fn byte(&mut self, byte: u8) {
        self.is_whole = self.is_whole && write!(self.text, "{byte:02x}").is_ok();
    }

    /// Adds the eight hexadecimal digits of a word.
    pub fn hex_word(&mut self, word: u32) {
        self.is_whole = self.is_whole && write!(self.text, "{word:08x}").is_ok();
    }

    /// Adds a text, and a number after it.
    pub fn numbered(&mut self, text: &str, number: u64) {
        self.put(text);
        self.number(number);
    }

    /// Adds what another text has. If memory ran out for that, this one isn't whole either.
    pub fn add(&mut self, other: &Text) {
        self.put(other.as_str());
        self.note(other.is_whole);
    }

    /// Notes whether memory never ran out for something that the text shows.
    pub fn note(&mut self, is_whole: bool) {
        self.is_whole = self.is_whole && is_whole;
    }

    /// Whether memory never ran out for it.
    pub fn is_whole(&self) -> bool {
        self.is_whole
    }

    /// The text so far.
    pub fn as_str(&self) -> &str {
        self.text.as_str()
    }

    /// How many bytes it has so far.
    pub fn len(&self) -> usize {
        self.text.len()
    }

    /// Whether nothing was added so far.
    pub fn is_empty(&self) -> bool {
        self.is_whole && self.text.is_empty()
    }

    /// The text.
    ///
    /// # Errors
    /// Out of memory, if it ever ran out.
    pub fn whole(self) -> Result<String, AllocError> {
        if self.is_whole {
            Ok(self.text)
        } else {
            Err(AllocError)
        }
    }
}
