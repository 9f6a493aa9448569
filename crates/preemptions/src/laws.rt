//! Laws of the definitions: which placements there are, in which order, and when the preemptions of one come.

ghost use Rattle.std.specs.Prelude.{◌≡◌, ◌≢◌, ◌<◌, ℕ, List, [], ◌∷◌, drop};
ghost use Rattle.std.specs.List.{All, AllPairs, Contains, count_by};
ghost use Rattle.preemptions.specs.Moments.{Preempts, moments};
ghost use Rattle.preemptions.specs.Placements.{IsAscending, IsPlacement, placements};
ghost use Rattle.preemptions.specs.Preempted.{is_step, preempted_at};
ghost use Rattle.preemptions.specs.declared.stretches.Stretch.{Stretch};
ghost use Rattle.xinu_base.specs.declared.events.Event.{Event};

/// A list is among the placements if and only if it is a placement.
pub fn placements_are_all()
    ensures to { (most : ℕ) (stretch : Stretch) (places : List ℕ) → IsPlacement most stretch places → Contains (placements most stretch) places }
    ensures from { (most : ℕ) (stretch : Stretch) (places : List ℕ) → Contains (placements most stretch) places → IsPlacement most stretch places }
{}

/// No two of the placements are equal.
pub fn placements_differ()
    ensures { (most : ℕ) (stretch : Stretch) → AllPairs (λ one other. one ≢ other) (placements most stretch) }
{}

/// The first of the placements has no place.
pub fn first_is_empty()
    ensures { (most : ℕ) (stretch : Stretch) → placements most stretch ≡ [] ∷ drop 1 (placements most stretch) }
{}

/// The preemptions of a placement within the steps of a schedule come at its moments: so many events come before each, then two ticks and its step.
pub fn preemptions_come_at_their_moments()
    ensures { (places : List ℕ) (base : List Event) → IsAscending places → All (λ k. k < count_by is_step base) places →
        All (λ n. Preempts n (preempted_at places base)) (moments places base) }
{}
