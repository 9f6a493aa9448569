//! What a disk on which nothing was written has.

ghost use Rattle.std.specs.Prelude.{ℕ, ◌≡◌, ◌*◌, replicate};
ghost use Rattle.lfs_layout.specs.Images.{blocks_of};
ghost use Rattle.xinu_model.specs.Devices.State.{empty_blocks};

/// The blocks of zero bytes are empty blocks, and 32,768 zero bytes are the disk that the machine has if it is given none.
pub fn zero_bytes_are_empty_blocks()
    ensures blocks { (n : ℕ) → blocks_of (replicate (512 * n) 0) ≡ replicate n (replicate 512 0) }
    ensures first { blocks_of (replicate 32768 0) ≡ empty_blocks }
{}
