//! The heap and the stacks as cells of eight bytes (book, chapter 9).

use std::marker::Model;

/// The heap: where it begins, and of each cell whether it is free. It lies in RAM, so an address in it is a word.
#[derive(Drop)]
pub struct Heap {
    /// The address of the first cell.
    pub low: u32,
    /// The cells.
    pub cells: Vec<bool>,
}

impl Model for Heap {
    ghost use Rattle.std.specs.Prelude.{◌+◌, ◌*◌, ◌≤◌, length};
    ghost use Rattle.xinu_model.specs.Heap.Cells as model;

    ghost Value = { model.Heap };

    ghost view = { λ h. record { low = h.low; cells = h.cells.items } };

    ghost invariant = { λ h. h.low + 8 * length h.cells.items ≤ 1048576 };
}
