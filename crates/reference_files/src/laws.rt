//! When the conditions of the calls are met, as the contract of a function that does nothing.

ghost use Rattle.std.specs.Prelude.{◌≤◌};
ghost use Rattle.reference_files.specs.Sizes.{IsSmall};
ghost use Rattle.xinu_model.specs.Files.Sound.{IsSoundFiles};
ghost use Rattle.xinu_model.specs.Files.Systems.{FileSystem};

/// Sound files on a disk of at most 65542 blocks, the most that a disk has, are few and small.
pub fn sound_files_are_small()
    ensures { (s : FileSystem) → IsSoundFiles s → s.blocks ≤ 65542 → IsSmall s }
{}
