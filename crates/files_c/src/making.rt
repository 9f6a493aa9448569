//! A call on files, from its beginning to its reply: the loop that serves the engine's blocks from the bytes of a disk.

ghost use Rattle.std.specs.Prelude.{◌≡◌, [], ◌≤◌, ◌<◌, ◌+◌, ◌*◌, ℕ, List, IsSome, length};
ghost use Rattle.lfs_check.specs.Disks.{block_put};
ghost use Rattle.local_files.specs.Bounds.{left};
ghost use Rattle.local_files.specs.Hands.{IsCall, system};
ghost use Rattle.local_files.specs.Resting.{IsOnDisk};
ghost use Rattle.xinu_model.specs.Files.Calls.{Write, file_effect};
ghost use Rattle.local_files.specs.Standing.{GoesTo, HasEffect, Stands, call_bytes, call_of, gathered, given_bytes, wanted};

use lfs_check::block_at;
use local_files::{BlockWork, FileCall, FileDev, Files, Phase};

// Makes a call and answers its reply: that of the abstract machine, with its effect on the files that the disk holds.
fn make_call(files: &mut Files, disk: &mut [u8], call: FileCall, bytes: &[u8]) -> i32
    requires idle { files.old.phase ≡ Phase.Idle }
    requires stands { Stands files.old disk.old disk.old }
    requires call { IsCall call }
    requires bytes { length bytes.now ≤ 1048576 }
    ensures effect { HasEffect call (given_bytes call bytes.now) (system files.old disk.old) result (gathered files.new) (system files.new disk.new) }
    ensures stands { Stands files.new disk.new disk.new }
    ensures idle { files.new.phase ≡ Phase.Idle }
{
    files.begin(call, bytes);
    while files.wants().is_some() {
        files.wants_a_block_of_the_disk();
        serve(files, disk);
    }
    match files.answer() {
        Some(reply) => reply,
        None => unreachable!(),
    }
}

/// Makes a call that takes no bytes.
pub(crate) fn make_plain(files: &mut Files, disk: &mut [u8], call: FileCall) -> i32
    requires idle { files.old.phase ≡ Phase.Idle }
    requires stands { Stands files.old disk.old disk.old }
    requires call { IsCall call }
    ensures reply { result ≡ (file_effect (call_of call []) [] (system files.old disk.old)).reply }
    ensures system { system files.new disk.new ≡ (file_effect (call_of call []) [] (system files.old disk.old)).system }
    ensures given { gathered files.new ≡ (file_effect (call_of call []) [] (system files.old disk.old)).bytes }
    ensures stands { Stands files.new disk.new disk.new }
    ensures idle { files.new.phase ≡ Phase.Idle }
{
    make_call(files, disk, call, &[])
}

/// Writes bytes to a device.
pub(crate) fn make_write(files: &mut Files, disk: &mut [u8], d: FileDev, bytes: &[u8]) -> i32
    requires idle { files.old.phase ≡ Phase.Idle }
    requires stands { Stands files.old disk.old disk.old }
    requires bytes { length bytes.now ≤ 1048576 }
    ensures reply { result ≡ (file_effect (Write d (length bytes.now)) bytes.now (system files.old disk.old)).reply }
    ensures system { system files.new disk.new ≡ (file_effect (Write d (length bytes.now)) bytes.now (system files.old disk.old)).system }
    ensures stands { Stands files.new disk.new disk.new }
    ensures idle { files.new.phase ≡ Phase.Idle }
{
    make_call(files, disk, FileCall::Write(d), bytes)
}

// Carries out the work that the engine wants: a block is read, or written.
fn serve(files: &mut Files, disk: &mut [u8])
    requires wants { IsSome (wanted files.old) }
    requires blocks { length disk.old ≡ 512 * files.old.blocks }
    requires outgoing { length files.old.block ≡ 512 }
    requires within { IsOnDisk (wanted files.old) files.old.blocks }
    ensures goes { (base : List ℕ) → Stands files.old base disk.old
        → GoesTo files.new.phase files.old.call (call_bytes files.old) files.old files.new base disk.new }
    ensures less { (base : List ℕ) → Stands files.old base disk.old → left files.new base < left files.old base }
{
    match files.wants() {
        None => unreachable!(),
        Some(BlockWork::Read(n)) => {
            let block = block_at(disk, n);
            files.completed(&block);
        }
        Some(BlockWork::Write(n)) => {
            let block = *files.outgoing();
            put_block(disk, n, &block);
            files.completed(&block);
        }
    }
}

// Writes a block of a disk.
fn put_block(disk: &mut [u8], n: u32, block: &[u8; 512])
    requires within { 512 * n + 512 ≤ length disk.old }
    ensures block { disk.new ≡ block_put disk.old n block.now }
    ensures len { length disk.new ≡ length disk.old }
{
    let at = 512 * n as usize;
    disk[at..at + 512].copy_from_slice(block);
}
