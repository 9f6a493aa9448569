//! The short texts of a row, each in its place.

ghost use Rattle.std.specs.Prelude.{◌≡◌, ◌↔◌, IsTrue, ◌≤◌, [], length};

use std::marker::Model;

/// At most 31 bytes.
#[derive(Clone, Drop)]
pub(crate) struct Text {
    bytes: [u8; 31],
    length: u8,
}

impl Model for Text {
    ghost use Rattle.std.specs.Prelude.{◌≤◌, ℕ, List, take};

    ghost Value = { List ℕ };

    ghost view = { λ t. take t.length t.bytes };

    ghost invariant = { λ t. t.length ≤ 31 };
}

impl Text {
    // No bytes.
    pub(crate) fn empty() -> Self
        ensures empty { result ≡ [] }
    {
        Text {
            bytes: [0; 31],
            length: 0,
        }
    }

    // Whether another text is equal.
    pub(crate) fn equals(&self, other: &Self) -> bool
        ensures equal { IsTrue result ↔ (self.now ≡ other.now) }
    {
        self.bytes() == other.bytes()
    }

    // A copy of bytes.
    pub(crate) fn new(text: &[u8]) -> Self
        requires short { length text.now ≤ 31 }
        ensures same { result ≡ text.now }
    {
        let mut bytes = [0; 31];
        bytes[..text.len()].copy_from_slice(text);
        Text {
            bytes,
            length: text.len() as u8,
        }
    }

    // The bytes that are in use.
    pub(crate) fn bytes(&self) -> &[u8]
        ensures same { result.now ≡ self.now }
        ensures short { length result.now ≤ 31 }
    {
        &self.bytes[..self.length as usize]
    }
}
