//! The clocks go as those of a detector (`specs/Clocks.antt` of `happens_before`) do.

ghost use Rattle.std.specs.Prelude.{◌≡◌, ◌++◌, ◌∷◌, [], ◌==◌, ℕ, List, if◌then◌else◌};
ghost use Rattle.happens_before.specs.Clocks.{Clock, join, knows_after, learnt};
ghost use Rattle.happens_before.specs.Histories.{Edge, Moment, is_stepper};
ghost use Rattle.race_clocks.specs.Edges.{edges_past, edges_to};
ghost use Rattle.race_clocks.specs.Rows.{Held, kept, knows};

/// If the processes have learnt of some edges, and what `learn` promises is done for the target of the next one, with the kept clock of
/// its source, they have learnt of that one, too.
pub fn edges_are_learnt_one_by_one()
    ensures { (before : ℕ → Clock) (parts : ℕ → ℕ → Clock) (edges : List Edge) (e : Edge) (old new : Held) (name : ℕ) →
        ((w u : ℕ) → knows old w u ≡ learnt parts edges w (before w) u) →
        ((u : ℕ) → kept old name u ≡ parts e.event e.source u) →
        ((w u : ℕ) → knows new w u ≡ (if w == e.target then join (knows old e.target) (kept old name) u else knows old w u)) →
        (w u : ℕ) → knows new w u ≡ learnt parts (edges ++ e ∷ []) w (before w) u }
{}

/// Of the edges of an event, those to the process that steps are learnt first, and the others after its deeds, with the clocks of the parts
/// of this event kept: both are what a detector does with all of them at once (`knows_in` and `knows_after`).
pub fn the_stepper_learns_first()
    ensures first { (m : Moment) (parts : ℕ → ℕ → Clock) (before : ℕ → Clock) (w : ℕ) →
        learnt parts (edges_to m) w (before w) ≡ (if is_stepper m.stepper w then learnt parts m.edges w (before w) else before w) }
    ensures after { (m : Moment) (parts : ℕ → ℕ → Clock) (before : ℕ → Clock) (w : ℕ) →
        learnt parts (edges_past m) w (before w) ≡ knows_after m parts before w }
{}
