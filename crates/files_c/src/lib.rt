//! The files for C: what they answer to a list of calls, and which files a disk holds, as a power cut left it.
//!
//! So a program in C that has files of its own notes the calls on them, and asks [`file_answers`] what the proved ones answer: the first
//! answer that differs is the first mistake. And one that writes the same disk asks [`disk_answers`] after each block whether every file is
//! still there, since the power may be cut at each. `examples/files_in_c` has both. What the answers are is defined in `specs/Answers` and
//! `specs/Judging`.
//!
//! The engine (`local_files`) wants its blocks from a disk that is empty at first; the loop that serves it is in `src/making.rt`. The
//! archive needs `rattle_alloc`, `rattle_realloc` and `rattle_dealloc`, which the toolchain's C library has.
#![tactic(auto)]

ghost use Rattle.std.specs.Prelude.{◌≡◌, ◌==◌, ◌&&◌, ◌⊎◌, not, length};
ghost use Rattle.files_c.specs.Answers.{answers_of, bytes_after, is_size, start};
ghost use Rattle.files_c.specs.Judging.{is_disk, judgements};

mod calls;
mod judging;
mod laws;
mod making;
mod spans;

pub use calls::FilesCall;
use calls::answer_all;
pub use judging::FileAtRest;
use judging::{is_disk, judge};
pub use laws::{judged_files_are_apart, judged_files_are_held};
use lfs_layout::{CleanImage, made_images_hold_their_files};
use local_files::Files;
use std::alloc::Global;

/// All was answered.
pub const ANSWERED: u32 = 0;
/// There is no such disk, or there isn't an answer for each question.
pub const NO_DISK: u32 = 1;
/// Out of memory.
pub const NO_MEMORY: u32 = 2;

/// Makes these calls, one after another, on an empty disk of so many blocks, 14 to 65542, and writes what each answers.
///
/// Names and the bytes of writes are taken from `bytes`, and those of reads are put there. There are as many answers as calls. What each
/// kind of call answers is said at [`FilesCall::kind`].
///
/// The result is [`ANSWERED`] if all was answered: then the answers, and the bytes that reads leave, are those of the abstract machine. It
/// is [`NO_DISK`] if and only if there is no disk of so many blocks, or there isn't an answer for each call, and [`NO_MEMORY`] if memory
/// runs out. In both cases neither answers nor bytes are written.
#[unsafe(no_mangle)]
pub extern "C" fn file_answers(
    alloc: Global,
    blocks: u32,
    calls: &[FilesCall],
    bytes: &mut [u8],
    answers: &mut [i64],
) -> u32
    ensures answered { (result ≡ 0) → (answers.new ≡ answers_of (start blocks bytes.old) calls.now) }
    ensures bytes { (result ≡ 0) → (bytes.new ≡ bytes_after (start blocks bytes.old) calls.now) }
    ensures ranges { (result == 1) ≡ not (is_size blocks && (length calls.now == length answers.old)) }
    ensures stays { (result ≡ 0) ⊎ (answers.new ≡ answers.old) }
    ensures bytes_stay { (result ≡ 0) ⊎ (bytes.new ≡ bytes.old) }
{
    if blocks < 14 || blocks > 65542 || calls.len() != answers.len() {
        return NO_DISK;
    }
    let Ok(image) = CleanImage::empty(alloc, blocks) else {
        return NO_MEMORY;
    };
    let Ok(mut files) = Files::new(alloc, blocks) else {
        return NO_MEMORY;
    };
    made_images_hold_their_files();
    let mut disk = image.into_bytes();
    answer_all(&mut files, &mut disk, calls, bytes, answers);
    ANSWERED
}

/// Judges for each of these files whether a disk holds it: 1 if exactly one entry has its name, and the disk's repair keeps its file with
/// these bytes; of one that isn't there, if no entry has its name; else 0.
///
/// The names and bytes of the files lie in `texts`. There are as many answers as files.
///
/// The result is [`ANSWERED`] if all was answered. It is [`NO_DISK`] if and only if the bytes are no disk of version 2, or there isn't an
/// answer for each file, and [`NO_MEMORY`] if memory runs out. In both cases no answer is written.
#[unsafe(no_mangle)]
pub extern "C" fn disk_answers(
    alloc: Global,
    disk: &[u8],
    files: &[FileAtRest],
    texts: &[u8],
    answers: &mut [u32],
) -> u32
    ensures answered { (result ≡ 0) → (answers.new ≡ judgements disk.now texts.now files.now) }
    ensures ranges { (result == 1) ≡ not (is_disk disk.now && (length files.now == length answers.old)) }
    ensures stays { (result ≡ 0) ⊎ (answers.new ≡ answers.old) }
{
    if !is_disk(disk) || files.len() != answers.len() {
        return NO_DISK;
    }
    let Ok(judged) = judge(alloc, disk, files, texts) else {
        return NO_MEMORY;
    };
    answers.copy_from_slice(&judged);
    ANSWERED
}
