//! The entries go as those of a detector (`specs/Told.antt` of `happens_before`) do.

ghost use Rattle.std.specs.Prelude.{◌≡◌, ◌&&◌, ◌==◌, ℕ, Bool, List, Option, None, Some, if◌then◌else◌};
ghost use Rattle.std.specs.List.{Contains};
ghost use Rattle.happens_before.specs.Histories.{Access, Accessed, Given};
ghost use Rattle.happens_before.specs.Races.{Time};
ghost use Rattle.happens_before.specs.Told.{Entries, entered, no_entries};
ghost use Rattle.race_entries.specs.Entries.{Holds, entries_of, is_among, is_by, last, made_entry};
ghost use Rattle.race_entries.specs.declared.entry.Entry.{Entry};

/// At the start there are none.
pub fn none_are_held()
    ensures { (bytes : List (List Entry)) → ((stores : Bool) (b u : ℕ) → last bytes stores b u ≡ None) → Holds bytes no_entries }
{}

/// What `enter` promises is what a detector enters of the access, at whatever turn of its event.
pub fn accesses_are_held()
    ensures { (old new : List (List Entry)) (entries : Entries) (t : Time) (a : Access) (e : Entry) →
        e ≡ made_entry (record { time = t; access = a }) →
        ((stores : Bool) (b u : ℕ) →
        last new stores b u ≡ (if (b == a.byte) && is_by stores u e then Some e else last old stores b u)) →
        Holds old entries → Holds new (entered t (Some (Accessed a)) entries) }
{}

/// What `give` promises is what a detector does as bytes get a new owner.
pub fn gifts_are_held()
    ensures { (old new : List (List Entry)) (entries : Entries) (t : Time) (first count : ℕ) →
        ((stores : Bool) (b u : ℕ) → last new stores b u ≡ (if is_among first count b then None else last old stores b u)) →
        Holds old entries → Holds new (entered t (Some (Given first count)) entries) }
{}

/// Each last access of a byte is one of its entries, and has its kind and process.
pub fn what_is_last_is_listed()
    ensures { (bytes : List (List Entry)) (stores : Bool) (b u : ℕ) (e : Entry) → last bytes stores b u ≡ Some e →
        Contains (entries_of bytes b) e × (e.stores ≡ stores) × (e.process ≡ u) }
{}
