//! What is told, deed by deed and moment by moment, is what the history tells (`specs/Finds.antt`).

ghost use Rattle.std.specs.Prelude.{◌≡◌, ◌++◌, ◌∷◌, [], ℕ, suc, length, List, Some, slice_get};
ghost use Rattle.happens_before.specs.Clocks.{Clock};
ghost use Rattle.happens_before.specs.Histories.{Access, Accessed, Given, Moment, moment_of};
ghost use Rattle.happens_before.specs.Races.{Made, deed_at, time};
ghost use Rattle.happens_before.specs.Told.{entries_at};
ghost use Rattle.race_detector.specs.Finds.{Finds, FindsAll};
ghost use Rattle.race_detector.specs.Told.{Knows, pairs_of};
ghost use Rattle.race_detector.specs.declared.pair.Pair.{Pair};
ghost use Rattle.race_entries.specs.Entries.{Holds, entries_of, last, made_entry};
ghost use Rattle.race_entries.specs.declared.entry.Entry.{Entry};

/// Before the first event nothing is told.
pub fn nothing_is_told_at_first()
    ensures { (told : List Pair) → told ≡ [] → Finds [] (time 1 0) told }
{}

/// What `tell` promises as an access is made is what the history tells with it, if the clock is what its process knows, and the entries are
/// those before the access.
pub fn accesses_are_told_one_by_one()
    ensures { (h : List Moment) (n j : ℕ) (a : Access) (clock : Clock) (bytes : List (List Entry)) →
        deed_at h (time n j) ≡ Some (Accessed a) → Knows h (record { time = time n j; access = a }) clock →
        Holds bytes (entries_at h n j) →
        ((k : ℕ) (e : Entry) → slice_get (entries_of bytes a.byte) k ≡ Some e → last bytes e.stores a.byte e.process ≡ Some e) →
        (old new : List Pair) →
        new ≡ old ++ pairs_of clock a.byte (made_entry (record { time = time n j; access = a })) (entries_of bytes a.byte) →
        Finds h (time n j) old → Finds h (time n (suc j)) new }
{}

/// As bytes get a new owner nothing is told.
pub fn gifts_tell_nothing()
    ensures { (h : List Moment) (n j first count : ℕ) (told : List Pair) → deed_at h (time n j) ≡ Some (Given first count) →
        Finds h (time n j) told → Finds h (time n (suc j)) told }
{}

/// A moment more changes nothing of what is told so far, and once its deeds are done the next one may come.
pub fn moments_come_and_go()
    ensures come { (h : List Moment) (m : Moment) (told : List Pair) →
        Finds h (time (suc (length h)) 0) told → Finds (h ++ m ∷ []) (time (suc (length h)) 0) told }
    ensures go { (h : List Moment) (n : ℕ) (told : List Pair) →
        Finds h (time n (length (moment_of h n).deeds)) told → Finds h (time (suc n) 0) told }
{}

/// After the last moment all that the history tells is told, and nothing else.
pub fn all_is_told()
    ensures { (h : List Moment) (told : List Pair) → Finds h (time (suc (length h)) 0) told → FindsAll h told }
{}
