//! Bytes that an entry of a list holds.

ghost use Rattle.std.specs.Prelude.{ℕ, List};

use std::marker::Model;

/// Some bytes; a clause sees the list of them.
#[derive(Drop)]
pub struct Bytes {
    /// The bytes.
    pub bytes: Vec<u8>,
}

impl Model for Bytes {
    ghost Value = { List ℕ };

    ghost view = { λ b. b.bytes.items };
}
