//! Disks made anew: of an image of version 1, and of one on which two files share a block.

mod migration;

use crate::disk_check::{counts, image_of, with_writes};
use lfs_layout::{CleanImage, repair};
use std::alloc::Global;
use std::process::Abort;

// The bytes of the disk that an image is taken as.
fn taken(rt: &impl Abort, alloc: Global, image: Vec<u8>) -> Vec<u8> {
    match CleanImage::new(alloc, image) {
        Ok(image) => image.into_bytes(),
        Err(_) => rt.abort(),
    }
}

#[test]
fn an_image_of_version_1_is_made_anew(rt: HostRuntime) {
    let old = image_of(&rt, rt.alloc(), 12, &migration::OLD);
    let new = image_of(&rt, rt.alloc(), 18, &migration::NEW);
    assert!(rt; taken(&rt, rt.alloc(), old).as_slice() == new.as_slice());
}

// How many files a repair keeps and drops, and the counts of the disk that it makes.
fn repaired(rt: &impl Abort, alloc: Global, image: &[u8]) -> ((u32, u32), Option<(u32, u32, u32)>) {
    match repair(alloc, image) {
        Ok(made) => ((made.kept, made.dropped), counts(alloc, made.image.bytes())),
        Err(_) => rt.abort(),
    }
}

// The second file names the first data block of the first, which is 8. The file without bytes is kept.
#[test]
fn repair_keeps_what_shares_no_block(rt: HostRuntime) {
    let image = with_writes(&rt, rt.alloc(), &((3224, 8), (3224, 8)));
    let wanted = ((1, 2), Some((1, 62, 14)));
    assert!(rt; repaired(&rt, rt.alloc(), image.as_slice()) == wanted);
}
