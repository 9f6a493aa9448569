//! How a detector goes through a run, of which it never knows more than the moments so far: later moments change nothing of what it found.

ghost use Rattle.std.specs.Prelude.{◌≡◌, ◌↔◌, ◌≤◌, ℕ, suc, List, [], ◌∷◌, ◌++◌, length};
ghost use Rattle.happens_before.specs.Clocks.{clock_of, clocks_after, clocks_next};
ghost use Rattle.happens_before.specs.Histories.{Moment};
ghost use Rattle.happens_before.specs.Races.{IsMade, Made};
ghost use Rattle.happens_before.specs.Told.{IsTold, entries_after, entries_at, entries_in};

/// One more moment is one more step, from the clocks and entries before it and the moment alone.
pub fn moments_come_one_by_one()
    ensures clocks { (h : List Moment) (m : Moment) →
        clocks_after (h ++ m ∷ []) (suc (length h)) ≡ clocks_next (suc (length h)) m (clocks_after h (length h)) }
    ensures entries { (h : List Moment) (m : Moment) (turn : ℕ) → entries_at (h ++ m ∷ []) (suc (length h)) turn ≡
        entries_in m.deeds (suc (length h)) (entries_after h (length h)) turn }
    ensures all { (h : List Moment) (m : Moment) → entries_after (h ++ m ∷ []) (suc (length h)) ≡
        entries_in m.deeds (suc (length h)) (entries_after h (length h)) (length m.deeds) }
{}

/// Later moments take nothing back and tell nothing more of earlier accesses.
pub fn later_moments_change_nothing()
    ensures clocks { (h : List Moment) (m : Moment) (n : ℕ) → n ≤ length h → clocks_after (h ++ m ∷ []) n ≡ clocks_after h n }
    ensures entries { (h : List Moment) (m : Moment) (n : ℕ) → n ≤ length h → entries_after (h ++ m ∷ []) n ≡ entries_after h n }
    ensures told { (h : List Moment) (m : Moment) (x y : Made) → IsMade h y → IsTold (h ++ m ∷ []) x y ↔ IsTold h x y }
{}

/// The clock of a part stays as it was in its event, so it can be kept with a token, a message or a buffer.
pub fn kept_clocks_stay()
    ensures { (h : List Moment) (n k v : ℕ) → k ≤ n → (clocks_after h n).kept k v ≡ clock_of h k v }
{}
