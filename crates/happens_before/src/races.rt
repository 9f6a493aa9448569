//! What a detector tells of races: what it tells is a race, and each race is told by the last access that conflicts.

ghost use Rattle.std.specs.Prelude.{◌≡◌, List};
ghost use Rattle.happens_before.specs.Histories.{IsHistory, Moment};
ghost use Rattle.happens_before.specs.Races.{IsLastConflict, IsRace, Made};
ghost use Rattle.happens_before.specs.Told.{IsTold};

/// No false report: what is told is a race.
pub fn told_pairs_are_races()
    ensures { (h : List Moment) (x y : Made) → IsHistory h → IsTold h x y → IsRace h x y }
{}

/// No race is missed: if x and y are one, the last access of x's process that conflicts with y is told as y is made. So if nothing is told
/// there is no race.
pub fn races_are_told()
    ensures last { (h : List Moment) (x y : Made) → IsHistory h → IsRace h x y →
        (z : Made) × IsLastConflict h z y × (z.access.process ≡ x.access.process) × IsTold h z y }
    ensures none { (h : List Moment) → IsHistory h → ((x y : Made) → IsTold h x y → ⊥) → (x y : Made) → IsRace h x y → ⊥ }
{}
