//! The name space by itself (book, chapter 21): mounted prefixes, and what they make of a name.

ghost use Rattle.std.specs.Prelude.{◌≡◌, ◌≢◌, ◌<◌, ◌≤◌, ℕ, List, [], ◌∷◌, ◌++◌, length, Some, None};
ghost use Rattle.xinu_model.specs.Names.Constants.{NM_MAXLEN, NAMESPACE};
ghost use Rattle.xinu_model.specs.Names.Mapping.{MappedName, first_row, replaced, short_enough, map_name};
ghost use Rattle.xinu_model.specs.Names.Mounting.{NameRow, mounted};
ghost use Rattle.xinu_model.specs.Names.Sound.{AreSoundNames};

/// At the start nothing is mounted, and each mount keeps the rows sound. Its row is the last.
pub fn names_stay_sound()
    ensures starts { AreSoundNames [] }
    ensures mounted { (row : NameRow) (rows more : List NameRow) → row.device < 10 → AreSoundNames rows → mounted row rows ≡ Some more →
        AreSoundNames more }
    ensures last { (row : NameRow) (rows more : List NameRow) → mounted row rows ≡ Some more → more ≡ rows ++ row ∷ [] }
{}

/// What a name is mapped to is no name of the name space itself, and not too long. A name that no prefix begins isn't mapped, one
/// whose first row leads to another device is mapped by that row alone, and one that its row gives back isn't mapped.
pub fn mappings_end()
    ensures ends { (rows : List NameRow) (name : List ℕ) (m : MappedName) → map_name rows name ≡ Some m → m.device ≢ NAMESPACE }
    ensures short { (rows : List NameRow) (name : List ℕ) (m : MappedName) → map_name rows name ≡ Some m → length m.name ≤ NM_MAXLEN }
    ensures unmounted { (rows : List NameRow) (name : List ℕ) → first_row name rows ≡ None → map_name rows name ≡ None }
    ensures direct { (rows : List NameRow) (name : List ℕ) (row : NameRow) → length name ≤ NM_MAXLEN → first_row name rows ≡ Some row →
        row.device ≢ NAMESPACE → map_name rows name ≡ short_enough (replaced row name) }
    ensures circular { (rows : List NameRow) (name : List ℕ) (row : NameRow) → first_row name rows ≡ Some row →
        replaced row name ≡ record { device = NAMESPACE; name = name } → map_name rows name ≡ None }
{}

/// A row that is mounted later changes nothing for a name that is mapped already.
pub fn later_mounts_change_no_mapping()
    ensures same { (rows more : List NameRow) (name : List ℕ) (m : MappedName) → map_name rows name ≡ Some m →
        map_name (rows ++ more) name ≡ Some m }
{}
