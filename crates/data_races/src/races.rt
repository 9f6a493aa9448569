//! The races of a run, and what a detector tells of them.

ghost use Rattle.std.specs.Prelude.{◌≡◌, List};
ghost use Rattle.happens_before.specs.Histories.{Moment};
ghost use Rattle.happens_before.specs.Races.{IsLastConflict, IsRace, Made};
ghost use Rattle.happens_before.specs.Told.{IsTold};
ghost use Rattle.xinu_base.specs.declared.events.Event.{Event};
ghost use Rattle.xinu_model.specs.Machine.{Xinu};
ghost use Rattle.data_races.specs.Runs.{HasHistory};

/// No false report and no missed race: what is told of a run is a race of it; if x and y are one, the last access of x's process that conflicts
/// with y is told; and if nothing is told the run has no race.
pub fn races_of_runs_are_told()
    ensures told { (start : Xinu) (events : List Event) (h : List Moment) (last : Xinu) (x y : Made) → HasHistory start events h last →
        IsTold h x y → IsRace h x y }
    ensures races { (start : Xinu) (events : List Event) (h : List Moment) (last : Xinu) (x y : Made) → HasHistory start events h last →
        IsRace h x y → (z : Made) × IsLastConflict h z y × (z.access.process ≡ x.access.process) × IsTold h z y }
    ensures none { (start : Xinu) (events : List Event) (h : List Moment) (last : Xinu) → HasHistory start events h last →
        ((x y : Made) → IsTold h x y → ⊥) → (x y : Made) → IsRace h x y → ⊥ }
{}
