//! All placements, one after another.

ghost use Rattle.std.specs.Prelude.{◌≡◌, ◌≤◌, ◌<◌, [], ◌∷◌, drop, MatchOption, MatchResult};
ghost use Rattle.preemptions.specs.Placements as spec;

use crate::next::next_places;
use crate::stretches::Stretch;
use std::alloc::Global;
use std::marker::Model;
use xinu_base::NoMemory;

/// The placements that are still to come. A clause sees their list.
#[derive(Drop)]
pub struct Placements {
    /// The one that comes first, unless none is left.
    places: Vec<u32>,
    /// Whether none is left.
    has_ended: bool,
    /// How many places a placement has at most.
    most: u32,
    /// Where the places lie.
    stretch: Stretch,
}

impl Model for Placements {
    ghost use Rattle.std.specs.Prelude.{ℕ, ◌≤◌, ◌<◌, List, [], ◌∷◌, length, if◌then◌else◌};
    ghost use Rattle.preemptions.specs.Placements.{placements_after};

    ghost Value = { List (List ℕ) };

    ghost view = { λ p. if p.has_ended then [] else (p.places.items ∷ placements_after p.most p.stretch p.places.items) };

    ghost invariant = { λ p. length p.places.items ≤ p.most };
}

impl Placements {
    /// All placements with at most so many places in a stretch, each once: those with fewer places first, and of as many places the
    /// earlier ones.
    pub fn new(alloc: Global, most: u32, stretch: Stretch) -> Placements
        ensures all { result ≡ spec.placements most stretch }
    {
        Placements {
            places: Vec::new(alloc),
            has_ended: false,
            most,
            stretch,
        }
    }

    /// The first one that is still to come; `None` if and only if there is none.
    pub fn first(&self) -> Option<&[u32]>
        ensures first { MatchOption result (self.now ≡ []) (λ places. self.now ≡ places.now ∷ drop 1 self.now) }
    {
        if self.has_ended {
            None
        } else {
            Some(self.places.as_slice())
        }
    }

    /// Takes the first one off, if there is one.
    ///
    /// # Errors
    /// `NoMemory`: all are still to come.
    pub fn advance(&mut self) -> Result<(), NoMemory>
        ensures next { MatchResult result (λ _. self.new ≡ drop 1 self.old) (λ _. self.new ≡ self.old) }
    {
        if self.has_ended {
            return Ok(());
        }
        match next_places(&mut self.places, self.most, self.stretch) {
            Ok(is_more) => {
                self.has_ended = !is_more;
                Ok(())
            }
            Err(_) => Err(NoMemory),
        }
    }
}
