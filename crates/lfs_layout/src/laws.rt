//! What always holds of images and their files.

ghost use Rattle.std.specs.Prelude.{ℕ, ◌≡◌, ◌*◌, ◌≤◌, ◌<◌, true, false, List, [], None, count_by, length};
ghost use Rattle.lfs_check.specs.Rules.{entry_is_used, rule_0};
ghost use Rattle.lfs_check.specs.Fields.{geometry_of, fields_of, directory_entries};
ghost use Rattle.lfs_check.specs.Faults.{fault, report};
ghost use Rattle.lfs_check.specs.Kept.{kept_entries};
ghost use Rattle.lfs_layout.specs.Files.{Clean, File, files_of, placed_files, sorted, names_right, names_of, with_set, have_room};
ghost use Rattle.lfs_layout.specs.Made.{geometry_2, image_with, Room};
ghost use Rattle.lfs_layout.specs.Images.{repaired, repaired_blocks, kept_files};

/// The image that is made of files with room and right names holds exactly these: reading its entries in their order gives the
/// list back, and it is clean for them.
#[tactic(auto, using(crate::proofs::ImageLaws::made_is_clean, crate::proofs::MadeFiles::made_files, crate::proofs::MadeFields::length_image))]
pub fn made_images_hold_their_files()
    ensures files { (n : ℕ) (files : List File) → Room n files → names_right 27 [] (names_of files) ≡ true → placed_files (image_with n files) ≡ files }
    ensures clean { (n : ℕ) (files : List File) → Room n files → names_right 27 [] (names_of files) ≡ true → Clean (image_with n files) (sorted files) }
    ensures blocks { (n : ℕ) (files : List File) → Room n files → length (image_with n files) ≡ 512 * n }
{}

/// The repair of an image of a right size, whatever else is wrong with it, holds exactly the files of the entries that are kept, in
/// their order. It is clean for them, and has as many blocks, or six more if the image had version 1.
#[tactic(auto, using(crate::proofs::ImageLaws::repaired_holds, crate::proofs::ImageLaws::repaired_is_clean, crate::proofs::ImageLaws::repaired_length))]
pub fn repaired_images_hold_the_kept_files()
    ensures files { (image : List ℕ) → rule_0 (geometry_of image) image ≡ None → placed_files (repaired image) ≡ kept_files image }
    ensures clean { (image : List ℕ) → rule_0 (geometry_of image) image ≡ None → Clean (repaired image) (sorted (kept_files image)) }
    ensures blocks { (image : List ℕ) → rule_0 (geometry_of image) image ≡ None → length (repaired image) ≡ 512 * repaired_blocks image }
{}

/// The repair of an image without a fault, of either version, is clean for the same files: each used entry is kept, and there are
/// as many of them as files.
#[tactic(auto, using(crate::proofs::ImageLaws::repaired_files, crate::proofs::ImageLaws::all_kept, crate::proofs::ImageLaws::used_files))]
pub fn repair_keeps_a_clean_image()
    ensures files { (image : List ℕ) → fault image ≡ None → files_of (repaired image) ≡ files_of image }
    ensures kept { (image : List ℕ) → fault image ≡ None → length (kept_entries (geometry_of image) (fields_of (geometry_of image) image).indexes (directory_entries (geometry_of image) image)) ≡ length (files_of image) }
    ensures used { (image : List ℕ) → fault image ≡ None → count_by entry_is_used (directory_entries (geometry_of image) image) ≡ length (files_of image) }
{}

/// The report of an image without a fault has the number of its files.
#[tactic(auto, using(crate::proofs::ImageLaws::reported_files))]
pub fn files_are_reported()
    ensures { (image : List ℕ) → fault image ≡ None → (report image).files ≡ length (files_of image) }
{}

/// No disk has room for a file of more than 65,542 blocks.
#[tactic(auto, using(crate::proofs::ImageLaws::long_no_room))]
pub fn long_files_have_no_room()
    ensures { (n : ℕ) (file : File) (files : List File) → n ≤ 65542 → 33557504 < length file.bytes → have_room (geometry_2 n) (with_set file files) ≡ false }
{}
