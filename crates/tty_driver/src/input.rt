//! What the console has received: the items that can be taken and, after them, the line that is being typed, in one ring.

ghost use Rattle.std.specs.Prelude.{◌≡◌, ◌↔◌, IsTrue, ◌+◌, ◌<◌, ◌≤◌, [], ◌∷◌, ◌++◌, length, map, IfOk};
ghost use Rattle.xinu_base.specs.declared.console.Item.TheVariants.{Char};
ghost use Rattle.xinu_model.specs.Console.Rows.{last_or, without_last};

use crate::constants::TY_IBUFLEN;
use crate::rings::{are_same_items, copy_of};
use circular_buffer::HeapCircularBuffer;
use std::alloc::{AllocError, Global};
use std::marker::Model;
use xinu_base::Item;

/// The items that were received and not taken. The last `typed` of them are the line.
pub struct Input {
    ring: HeapCircularBuffer<Item>,
    typed: usize,
}

impl Drop for Input {
    fn drop(self) {
        let Input {
            ring: _ring,
            typed: _typed,
        } = self;
    }
}

impl Model for Input {
    ghost use Rattle.tty_driver.specs.Input.{Received, received_of, IsInput};

    ghost Value = { Received };

    ghost view = { received_of };

    ghost invariant = { IsInput };
}

impl Input {
    /// Nothing is received.
    pub fn new(alloc: Global) -> Result<Self, AllocError>
        ensures starts { IfOk result (λ i. i ≡ record { committed = []; line = [] }) }
    {
        let ring = HeapCircularBuffer::with_capacity(alloc, TY_IBUFLEN)?;
        Ok(Input { ring, typed: 0 })
    }

    /// Whether the same was received elsewhere.
    pub fn equals(&self, other: &Self) -> bool
        ensures equal { IsTrue result ↔ (self.now ≡ other.now) }
    {
        self.typed == other.typed && are_same_items(&self.ring, &other.ring)
    }

    /// How many items can be taken.
    pub fn committed(&self) -> usize
        ensures count { result ≡ length self.now.committed }
        ensures range { result + length self.now.line ≤ TY_IBUFLEN }
    {
        self.ring.len() - self.typed
    }

    /// How many bytes the line has.
    pub fn line(&self) -> usize
        ensures count { result ≡ length self.now.line }
        ensures range { result ≤ TY_IBUFLEN }
    {
        self.typed
    }

    /// How many items and bytes of the line there are.
    pub fn size(&self) -> usize
        ensures count { result ≡ length self.now.committed + length self.now.line }
        ensures range { result ≤ TY_IBUFLEN }
    {
        self.ring.len()
    }

    /// An item is committed. There is no line.
    pub fn commit(&mut self, item: Item)
        requires room { length self.old.committed < TY_IBUFLEN }
        requires no_line { self.old.line ≡ [] }
        ensures committed { self.new ≡ record self.old { committed = self.old.committed ++ item ∷ [] } }
    {
        self.ring.push_back(item);
    }

    /// A byte joins the line.
    pub fn join(&mut self, b: u8)
        requires room { length self.old.committed + length self.old.line < TY_IBUFLEN }
        ensures joined { self.new ≡ record self.old { line = self.old.line ++ b ∷ [] } }
    {
        self.ring.push_back(Item::Char(b));
        self.typed += 1;
    }

    /// The whole line is committed. Answers how many bytes it had.
    pub fn commit_line(&mut self) -> u32
        ensures committed { self.new ≡ record { committed = self.old.committed ++ map Char self.old.line; line = [] } }
        ensures count { result ≡ length self.old.line }
    {
        let count = self.typed;
        self.typed = 0;
        count as u32
    }

    /// The last byte leaves the line.
    pub fn erase(&mut self) -> u8
        requires typed { 0 < length self.old.line }
        ensures erased { self.new ≡ record self.old { line = without_last self.old.line } }
        ensures byte { result ≡ last_or 0 self.old.line }
    {
        self.typed -= 1;
        match self.ring.pop_back() {
            Some(Item::Char(b)) => b,
            Some(Item::End) | None => 0,
        }
    }

    /// The line is emptied.
    pub fn kill(&mut self)
        ensures emptied { self.new ≡ record self.old { line = [] } }
    {
        let committed = self.ring.len() - self.typed;
        self.ring.truncate_back(committed);
        self.typed = 0;
    }

    /// Takes the first committed item.
    pub fn take(&mut self) -> Item
        requires item { 0 < length self.old.committed }
        ensures taken { self.old ≡ record self.new { committed = result ∷ self.new.committed } }
    {
        match self.ring.pop_front() {
            Some(item) => item,
            None => Item::End,
        }
    }
}

impl Clone for Input {
    ghost is_clone = { λ v w. w ≡ v };

    fn clone(&self) -> Result<Self, AllocError> {
        let ring = copy_of(&self.ring)?;
        Ok(Input {
            ring,
            typed: self.typed,
        })
    }
}
