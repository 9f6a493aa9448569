//! The name space (book, chapter 21).

use std::marker::Model;
use xinu_base::Dev;

/// A mounted prefix: what takes its place, and which device.
#[derive(Drop)]
pub struct NameRow {
    /// The prefix.
    pub prefix: Vec<u8>,
    /// What takes its place.
    pub replacement: Vec<u8>,
    /// The device.
    pub device: Dev,
}

impl Model for NameRow {
    ghost use Rattle.xinu_model.specs.Names.Mounting as model;

    ghost Value = { model.NameRow };

    ghost view = { λ r. record { prefix = r.prefix.items; replacement = r.replacement.items; device = r.device } };
}
