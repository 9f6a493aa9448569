//! The numbers that are drawn.

ghost use Rattle.std.specs.Prelude.{◌≡◌, ◌<◌};
ghost use Rattle.workload.specs.Draws as spec;

use std::marker::Model;

/// A linear congruential generator. A clause sees its state.
#[derive(Drop)]
pub struct Draws {
    state: u32,
}

impl Model for Draws {
    ghost use Rattle.std.specs.Prelude.{ℕ};

    ghost Value = { ℕ };

    ghost view = { λ d. d.state };
}

impl Draws {
    /// The draws that a number gives.
    pub fn new(seed: u32) -> Self
        ensures state { result ≡ seed }
    {
        Draws { state: seed }
    }

    /// Draws a number below a bound, which isn't 0.
    #[tactic(auto, unfolding(crate::specs::Draws::next))]
    pub(crate) fn draw(&mut self, bound: u32) -> u32
        requires some { 0 < bound }
        ensures drawn { result ≡ spec.drawn bound self.old }
        ensures below { result < bound }
        ensures state { self.new ≡ spec.next self.old }
    {
        let next = (1_664_525 * self.state as u64 + 1_013_904_223) % 4_294_967_296;
        self.state = next as u32;
        self.state / 65_536 % bound
    }
}
