//! The disk as it was when the call in hand began: which blocks were written since then, and how it becomes the disk as it is.

ghost use Rattle.std.specs.Prelude.{◌≡◌, ◌≤◌, ◌+◌, ◌*◌, ℕ, List, [], length};
ghost use Rattle.file_server.specs.Settled.{DiffersIn, Follows};
ghost use Rattle.lfs_check.specs.Disks.{block_put};
ghost use Rattle.lfs_check.specs.Rules.{block_in};
ghost use Rattle.local_files.specs.Standing.{Stands, served};

use arrayvec::ArrayVec;
use local_files::{BlockWork, Files};

// How many blocks are remembered at most.
const MOST: usize = 256;

// The numbers of the blocks that were written. Once it is full, others may have been written too.
pub(crate) type Written = ArrayVec<u32, MOST>;

// Remembers the block that the engine is about to write.
pub(crate) fn note_write(written: &mut Written, files: &Files)
    ensures follows { (base disk : List ℕ) → Stands files.now base disk → Follows written.old.items base disk
        → Follows written.new.items base (served files.now disk) }
{
    files.wants_a_block_of_the_disk();
    if let Some(BlockWork::Write(n)) = files.wants() {
        if written.len() < MOST {
            written.push(n);
        }
    }
}

// The disk as it was becomes the disk as it is: the blocks that were written are copied, or all if they are too many.
pub(crate) fn settle(settled: &mut [u8], disk: &[u8], written: &mut Written)
    requires follows { Follows written.old.items settled.old disk.now }
    requires long { length settled.old ≡ length disk.now }
    ensures same { settled.new ≡ disk.now }
    ensures len { length settled.new ≡ length settled.old }
    ensures none { written.new.items ≡ [] }
{
    if written.len() < MOST {
        copy_blocks(settled, disk, written.as_slice());
    } else {
        settled.copy_from_slice(disk);
    }
    written.clear();
}

// Copies the blocks in which a disk differs.
fn copy_blocks(settled: &mut [u8], disk: &[u8], blocks: &[u32])
    requires differs { DiffersIn blocks.now settled.old disk.now }
    ensures same { settled.new ≡ disk.now }
{
    for n in blocks {
        copy_block(settled, disk, *n);
    }
}

// Copies a block of a disk.
fn copy_block(settled: &mut [u8], disk: &[u8], n: u32)
    requires within { 512 * n + 512 ≤ length disk.now }
    requires long { length settled.old ≡ length disk.now }
    ensures block { settled.new ≡ block_put settled.old n (block_in disk.now n) }
    ensures len { length settled.new ≡ length settled.old }
{
    let at = 512 * n as usize;
    settled[at..at + 512].copy_from_slice(&disk[at..at + 512]);
}
