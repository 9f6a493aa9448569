//! Whole and damaged images, with the rule and the block that the layout's rules name.
//!
//! The expected rules and blocks come from a checker of another hand, which was written from the rules alone.

mod version_1;
mod version_2;

use byteorder::{ByteOrder, LittleEndian};
use lfs_check::{CheckFault, check};
use std::alloc::Global;
use std::process::Abort;

/// A run of words: the place of the first, how many there are, how many bytes apart, the first of them, and by how much they go up.
pub type Run = (usize, usize, usize, u32, u32);

/// The words of an image that aren't zero: single ones, and runs.
pub type Words = (&'static [(usize, u32)], &'static [Run]);

/// Writes of two words.
pub type Writes = ((usize, u32), (usize, u32));

/// Writes of two words, the rule that they break and its lowest block.
pub type Damage = ((usize, u32), (usize, u32), u8, u32);

/// Sizes in bytes, versions, and the rule and the block that are named for so many zeros.
const SIZES: [(usize, u32, u8, u32); 12] = [
    // 0, 1 and 7 blocks of version 1, and 8 and 13 of version 2
    (0, 0, 0, 0),
    (512, 0, 0, 0),
    (3584, 0, 0, 0),
    (4096, 2, 0, 0),
    (6656, 2, 0, 0),
    // no whole blocks
    (4095, 0, 0, 0),
    (3000, 0, 0, 0),
    // 65536 and 65537 blocks of version 1
    (33_554_432, 0, 4, 0),
    (33_554_944, 0, 0, 0),
    // 65537, 65542 and 65543 blocks of version 2
    (33_554_944, 2, 2, 1),
    (33_557_504, 2, 2, 1),
    (33_558_016, 2, 0, 0),
];

const VERSION_1: Words = (&version_1::WORDS, &version_1::RUNS);

const VERSION_2: Words = (&version_2::WORDS, &version_2::RUNS);

// Writes a word, if it is in the image.
fn put(image: &mut Vec<u8>, at: usize, word: u32) {
    if at < image.len() && image.len() - at >= 4 {
        LittleEndian::write_u32(&mut image[at..at + 4], word);
    }
}

/// An image of a number of blocks with these words, and zeros otherwise.
pub(crate) fn image_of(
    rt: &impl Abort,
    alloc: Global,
    blocks: u16,
    words: &[(usize, u32)],
) -> Vec<u8> {
    let mut image = vec![in alloc; 0u8; 512 * blocks as usize].expect(rt, "memory");
    for (at, word) in words {
        put(&mut image, *at, *word);
    }
    image
}

/// An image of 70 blocks of version 2 with files of 8193, 600 and 0 bytes, and then two writes of words.
pub(crate) fn with_writes(rt: &impl Abort, alloc: Global, writes: &Writes) -> Vec<u8> {
    written(rt, alloc, VERSION_2, writes)
}

// Writes a run of words.
fn put_run(image: &mut Vec<u8>, (at, count, apart, first, more): &Run) {
    let (mut place, mut word) = (*at, *first);
    for _ in 0..*count {
        put(image, place, word);
        place = place.wrapping_add(*apart);
        word = word.wrapping_add(*more);
    }
}

// An image of 70 blocks with these words, and then two writes.
fn written(rt: &impl Abort, alloc: Global, words: Words, writes: &Writes) -> Vec<u8> {
    let mut image = image_of(rt, alloc, 70, words.0);
    for run in words.1 {
        put_run(&mut image, run);
    }
    put(&mut image, writes.0.0, writes.0.1);
    put(&mut image, writes.1.0, writes.1.1);
    image
}

// The rule and the block that the check names.
fn named(rt: &impl Abort, alloc: Global, image: &[u8]) -> Option<(u8, u32)> {
    match check(alloc, image) {
        Err(CheckFault::Broken(fault)) => Some((fault.rule, fault.block)),
        Err(CheckFault::NoMemory) => rt.abort(),
        Ok(_) => None,
    }
}

/// The files, the free data blocks and the free index blocks of an image, if it is clean.
pub(crate) fn counts(alloc: Global, image: &[u8]) -> Option<(u32, u32, u32)> {
    let report = check(alloc, image).ok()?;
    Some((report.files, report.free_data, report.free_index))
}

// An image with these words is clean after each of the writes, with these counts.
fn are_harmless(
    rt: &impl Abort,
    alloc: Global,
    words: Words,
    writes: &[Writes],
    wanted: (u32, u32, u32),
) {
    for two in writes {
        let image = written(rt, alloc, words, two);
        assert!(rt; counts(alloc, image.as_slice()) == Some(wanted), "{two:?}");
    }
}

// Each of the damages of an image with these words is named.
fn are_named(rt: &impl Abort, alloc: Global, words: Words, damages: &[Damage]) {
    for (first, second, rule, block) in damages {
        let image = written(rt, alloc, words, &(*first, *second));
        let found = named(rt, alloc, image.as_slice());
        assert!(rt; found == Some((*rule, *block)), "{first:?} {second:?}");
    }
}

#[test]
fn images_of_version_1(rt: HostRuntime) {
    let words = VERSION_1;
    are_harmless(
        &rt,
        rt.alloc(),
        words,
        &version_1::HARMLESS,
        version_1::REPORT,
    );
    are_named(&rt, rt.alloc(), words, &version_1::DAMAGES);
}

#[test]
fn images_of_version_2(rt: HostRuntime) {
    let words = VERSION_2;
    are_harmless(
        &rt,
        rt.alloc(),
        words,
        &version_2::HARMLESS,
        version_2::REPORT,
    );
    are_named(&rt, rt.alloc(), words, &version_2::DAMAGES);
}

// What the check of this many zeros, with a version, names.
fn of_zeros(rt: &impl Abort, alloc: Global, size: usize, version: u32) -> Option<(u8, u32)> {
    let mut image = vec![in alloc; 0u8; size].expect(rt, "memory");
    put(&mut image, 492, version);
    named(rt, alloc, image.as_slice())
}

#[test]
fn the_number_of_blocks_is_judged_by_the_version(rt: HostRuntime) {
    for (size, version, rule, block) in &SIZES {
        let found = of_zeros(&rt, rt.alloc(), *size, *version);
        assert!(rt; found == Some((*rule, *block)), "{size}");
    }
}
