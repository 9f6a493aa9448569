//! How much room files have on a disk of version 2, and how many completions a call may take.

ghost use Rattle.std.specs.Prelude.{◌≤◌};

use crate::plain_files::PlainFile;
use local_files::FileCall;

/// How many of `n` bytes there is room for at a position of a file of `size` bytes, beside these files, of which it is one.
///
/// A disk has a block for index blocks for each 64 blocks, rounded up, with seven in each; six blocks are the directory, and the rest are
/// data blocks of 512 bytes. An index block has the numbers of sixteen of them.
pub(crate) fn fitting(
    blocks: u32,
    files: &[PlainFile],
    size: usize,
    position: usize,
    n: usize,
) -> usize
    ensures most { result ≤ n }
{
    let area = (blocks as usize + 63) / 64;
    let free_data = (blocks as usize)
        .saturating_sub(6 + area)
        .saturating_sub(used(files, 512));
    let free_index = (7 * area).saturating_sub(used(files, 8192));
    let by_data = needed(size, 512)
        .saturating_add(free_data)
        .saturating_mul(512);
    let by_index = needed(size, 8192)
        .saturating_add(free_index)
        .saturating_mul(8192);
    n.min(by_data.min(by_index).saturating_sub(position))
}

// How many blocks of this many bytes the files take.
fn used(files: &[PlainFile], width: usize) -> usize {
    let mut sum: usize = 0;
    for file in files {
        sum = sum.saturating_add(needed(file.bytes.len(), width));
    }
    sum
}

// How many blocks of this many bytes a file of `size` bytes takes.
fn needed(size: usize, width: usize) -> usize {
    if width == 0 {
        return 0;
    }
    size / width + (size % width).min(1)
}

/// How many bytes a call takes or puts; `bytes` are those of a write.
pub(crate) fn byte_count(call: &FileCall, bytes: usize) -> usize {
    match *call {
        FileCall::Read(_, n) => n as usize,
        FileCall::Write(_) => bytes,
        FileCall::Getc(_) => 1,
        FileCall::Putc(_, _) => 1,
        _ => 0,
    }
}

/// How many completions a call on a file of `size` bytes may take if it takes or puts `n` bytes.
pub(crate) fn most_turns(size: usize, n: usize) -> usize {
    let blocks = needed(size, 512)
        .saturating_add(needed(size, 8192))
        .saturating_add(needed(n, 512));
    blocks.saturating_mul(8).saturating_add(32)
}
