//! Images that overlap: which of them the start of the machine names.

ghost use Rattle.std.specs.Prelude.{◌≡◌, ◌<◌, ℕ, false, List, [], length, Some, None};
ghost use Rattle.event_laws.specs.FirstOverlap.{IsFirstOverlap, overlaps_earlier};
ghost use Rattle.xinu_model.specs.Boot.{Loaded, first_overlap};

/// The image that is refused is the least that overlaps an earlier one; none is only if none does.
pub fn the_first_overlap_is_named()
    ensures first { (images : List Loaded) (k : ℕ) → first_overlap 1 [] images ≡ Some k → IsFirstOverlap images k }
    ensures none { (images : List Loaded) (i : ℕ) → first_overlap 1 [] images ≡ None → i < length images → overlaps_earlier images i ≡ false }
{}
