//! The slots, in an array by process number.

ghost use Rattle.std.specs.Prelude.{◌≡◌, ◌↔◌, IsTrue, not, is_some, replicate, slice_set, Some, None, IfOk, IfErr, if◌then◌else◌};
ghost use Rattle.messages.specs.Held.{held};
ghost use Rattle.xinu_base.specs.Constants.{NPROC};

use std::alloc::Global;
use std::marker::Model;
use xinu_base::{NoMemory, Pid};

/// The message of each process, if it holds one.
#[derive(Clone, Drop)]
pub struct Slots {
    // The messages, by process number.
    messages: [Option<u32>; 64],
}

impl Model for Slots {
    ghost use Rattle.std.specs.Prelude.{ℕ, List, Option};

    ghost Value = { List (Option ℕ) };

    ghost view = { λ s. s.messages };
}

impl Slots {
    /// Slots that are all empty. They are part of the value, so there is always room for them.
    pub fn new(_alloc: Global) -> Result<Self, NoMemory>
        ensures starts { IfOk result (λ s. s ≡ replicate NPROC None) }
        ensures never { IfErr result (λ _. ⊥) }
    {
        Ok(Slots {
            messages: [None; 64],
        })
    }

    /// Whether each process holds the same message in other slots.
    pub fn equals(&self, other: &Self) -> bool
        ensures equal { IsTrue result ↔ (self.now ≡ other.now) }
    {
        self.messages == other.messages
    }

    /// Puts a word into the slot of `p`. False, and nothing changes, if and only if the slot holds one.
    pub fn send(&mut self, p: Pid, m: u32) -> bool
        ensures sends { result ≡ not (is_some (held self.old p)) }
        ensures slots { self.new ≡ (if is_some (held self.old p) then self.old else slice_set self.old p (Some m)) }
    {
        if self.messages[p.index()].is_some() {
            return false;
        }
        self.messages[p.index()] = Some(m);
        true
    }

    /// Takes the word out of the slot of `p`. `None` if and only if it holds none.
    pub fn take(&mut self, p: Pid) -> Option<u32>
        ensures takes { result ≡ held self.old p }
        ensures slots { self.new ≡ slice_set self.old p None }
    {
        let message = self.messages[p.index()];
        self.messages[p.index()] = None;
        message
    }

    /// The word in the slot of `p`, which stays there. `None` if and only if it holds none.
    pub fn peek(&self, p: Pid) -> Option<u32>
        ensures holds { result ≡ held self.now p }
    {
        self.messages[p.index()]
    }

    /// Empties the slot of `p`.
    pub fn clear(&mut self, p: Pid)
        ensures slots { self.new ≡ slice_set self.old p None }
    {
        self.messages[p.index()] = None;
    }
}
