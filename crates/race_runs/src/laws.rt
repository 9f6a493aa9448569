//! Laws of the search: what its table says of every run of a placement.

ghost use Rattle.std.specs.Prelude.{◌≡◌, ℕ, true, List, [], ◌∷◌};
ghost use Rattle.preemptions.specs.Placements.{IsPlacement, placements};
ghost use Rattle.preemptions.specs.Preempted.{preempted_at};
ghost use Rattle.preemptions.specs.declared.stretches.Stretch.{Stretch};
ghost use Rattle.race_runs.specs.Explored.{Explores};
ghost use Rattle.race_runs.specs.Forced.{AreForced};
ghost use Rattle.race_runs.specs.Runs.{ComesTo};
ghost use Rattle.race_tables.specs.Outcomes.{Outcome};
ghost use Rattle.race_tables.specs.Rows.{HasRow, Row};
ghost use Rattle.xinu_base.specs.declared.events.Event.{Event};
ghost use Rattle.xinu_laws.specs.Outcomes.{ChoosesNothing};
ghost use Rattle.xinu_model.specs.Boot.{Boots, Disks, Loaded, boot_on};
ghost use Rattle.xinu_model.specs.Machine.{Xinu};

/// If nothing is chosen in the run of a placement, every run of it has its row: the table misses no outcome of it.
pub fn every_run_has_its_row()
    ensures { (disks : Disks) (images : List Loaded) (base : List Event) (most : ℕ) (stretch : Stretch) (table : List Row) (places : List ℕ) (start : Xinu) (outcome : Outcome) →
        Explores disks images base (placements most stretch) table → IsPlacement most stretch places → boot_on disks images ≡ Boots start →
        ChoosesNothing start (preempted_at places base) → ComesTo start (preempted_at places base) outcome →
        HasRow table (record { places = places; outcome = outcome }) }
{}

/// If one row is left, and nothing is chosen in the runs of all placements, as the search says it, every run of each has the row's outcome.
pub fn one_row_is_the_outcome_of_every_run()
    ensures { (disks : Disks) (images : List Loaded) (base : List Event) (most : ℕ) (stretch : Stretch) (row : Row) (places : List ℕ) (start : Xinu) (outcome : Outcome) →
        Explores disks images base (placements most stretch) (row ∷ []) → AreForced true disks images base (placements most stretch) →
        IsPlacement most stretch places → boot_on disks images ≡ Boots start → ComesTo start (preempted_at places base) outcome → outcome ≡ row.outcome }
{}
