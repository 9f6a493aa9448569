//! What is told is what a detector tells of a history.

ghost use Rattle.std.specs.Prelude.{◌≡◌, ◌↔◌, ◌++◌, ◌∷◌, [], ℕ, suc, length, List, Some, true};
ghost use Rattle.happens_before.specs.Histories.{Moment};
ghost use Rattle.happens_before.specs.Races.{IsMade, Made};
ghost use Rattle.happens_before.specs.Told.{IsTold, entries_at};
ghost use Rattle.race_entries.specs.Entries.{Holds, last, made_entry};
ghost use Rattle.race_entries.specs.declared.entry.Entry.{Entry};
ghost use Rattle.happens_before.specs.Clocks.{Clock, clocks_after, knows_in};
ghost use Rattle.race_detector.specs.Told.{Knows, is_told};

/// What a process knows once the edges to the one that steps are learnt is what its part of this event knows of the others, so it can be
/// compared with the entries of each access that it makes in the event.
pub fn what_is_learnt_is_known()
    ensures { (h : List Moment) (m : Moment) (y : Made) (clock : Clock) → y.time.event ≡ suc (length h) →
        ((u : ℕ) → clock u ≡ knows_in (suc (length h)) m (clocks_after h (length h)) y.access.process u) → Knows (h ++ m ∷ []) y clock }
{}

/// If an access of a history is made, an entry of its byte is told with it if and only if the history tells the access of the entry with it.
pub fn told_entries_are_told()
    ensures { (h : List Moment) (y : Made) (clock : Clock) (bytes : List (List Entry)) (e : Entry) → IsMade h y → Knows h y clock →
        Holds bytes (entries_at h y.time.event y.time.turn) → last bytes e.stores y.access.byte e.process ≡ Some e →
        (is_told clock (made_entry y) e ≡ true) ↔ ((x : Made) × (made_entry x ≡ e) × IsTold h x y) }
{}
