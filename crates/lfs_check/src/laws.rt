//! What the rules say of disks.

ghost use Rattle.std.specs.Prelude.{ℕ, ◌≡◌, ◌≤◌, ◌+◌, ◌-◌, ◌*◌, ◌/◌, List, [], ◌↔◌, None, filter};
ghost use Rattle.lfs_check.specs.declared.geometry.Geometry.{Geometry};
ghost use Rattle.lfs_check.specs.Geometries.{IsGeometry};
ghost use Rattle.lfs_check.specs.Laid.{Shape, Places};
ghost use Rattle.lfs_check.specs.Clean.{chain_in, data_in, places_of, IsShape, Passes, LaidIn};
ghost use Rattle.lfs_check.specs.Meets.{times_met};
ghost use Rattle.lfs_check.specs.Kept.{kept_entries};
ghost use Rattle.lfs_check.specs.Faults.{fault};
ghost use Rattle.lfs_check.specs.Fields.{fields_of, geometry_of, directory_entries};
ghost use Rattle.lfs_check.specs.Rules.{entry_is_used};
ghost use Rattle.lfs_check.specs.Empty.{IsEmpty};
ghost use Rattle.lfs_check.specs.Built.{IsBuilt, built_places};
ghost use Rattle.std.specs.List.{flat_map};
ghost use Rattle.lfs_format.specs.declared.Entry.{Entry};
ghost use Rattle.lfs_format.specs.declared.Index.{Index};

/// No rule from 4 to 7 is broken if and only if files lie on the disk with nothing held.
#[tactic(auto, using(crate::proofs::Theorems::clean_laid))]
pub fn clean_is_laid()
    ensures { (g : Geometry) (d : Shape) → IsGeometry g → IsShape g d → Passes g d ↔ LaidIn g d (places_of g d) }
{}

/// Whose the blocks of a disk are is read off it.
#[tactic(auto, using(crate::proofs::Lies::places_read))]
pub fn places_are_read()
    ensures { (g : Geometry) (d : Shape) (p : Places) → IsGeometry g → IsShape g d → LaidIn g d p → p.held_index ≡ [] → p.held_data ≡ [] → places_of g d ≡ p }
{}

/// A disk with no file breaks no rule from 4 to 7.
#[tactic(auto, using(crate::proofs::Theorems::empty_passes))]
pub fn empty_is_clean()
    ensures { (g : Geometry) (d : Shape) → IsGeometry g → IsShape g d → IsEmpty g d → Passes g d }
{}

/// A disk on which each file takes the lowest free blocks in the order of the entries breaks no rule from 4 to 7.
pub fn built_is_clean()
    ensures { (g : Geometry) (d : Shape) → IsGeometry g → IsShape g d → IsBuilt g d → Passes g d × (places_of g d ≡ built_places g d) }
{}

/// What fits on a disk of version 1 fits on one of version 2 that is six blocks larger.
#[tactic(auto, using(crate::proofs::Theorems::migration_room))]
pub fn migration_fits()
    ensures data { (n : ℕ) → n - (1 + (n + 63) / 64) ≤ n + 6 - (6 + (n + 6 + 63) / 64) }
    ensures index { (n : ℕ) → 7 * ((n + 63) / 64) ≤ 7 * ((n + 6 + 63) / 64) }
{}

/// No block is in the chains of two kept entries, nor twice in one.
#[tactic(auto, using(crate::proofs::Keeping::kept_apart))]
pub fn kept_are_apart()
    ensures { (g : Geometry) (ix : List Index) (es : List Entry) (n : ℕ) → (times_met n (flat_map (chain_in g ix) (kept_entries g ix es)) ≤ 1) × (times_met n (flat_map (data_in g ix) (kept_entries g ix es)) ≤ 1) }
{}

/// Of an image without a fault, of either version, all used entries are kept.
#[tactic(auto, using(crate::proofs::KeepsAll::keeps_all))]
pub fn clean_image_keeps_all()
    ensures { (image : List ℕ) → fault image ≡ None → kept_entries (geometry_of image) (fields_of (geometry_of image) image).indexes (directory_entries (geometry_of image) image) ≡ filter entry_is_used (directory_entries (geometry_of image) image) }
{}

/// On an image without a fault files lie, with nothing held.
#[tactic(auto, using(crate::proofs::Images::image_lies))]
pub fn clean_image_lies()
    ensures { (image : List ℕ) → fault image ≡ None → LaidIn (geometry_of image) (fields_of (geometry_of image) image) (places_of (geometry_of image) (fields_of (geometry_of image) image)) }
{}
