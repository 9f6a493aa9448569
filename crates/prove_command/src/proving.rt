//! A proof for images: they boot, a walk finds what is known at each of their places, and that is judged.

ghost use Rattle.std.specs.Prelude.{◌≡◌, ◌≤◌, IfErr, IfOk, length, map};
ghost use Rattle.image_loader.specs.Images.{loaded_of};
ghost use Rattle.prove_command.specs.Proved.{IsProved};
ghost use Rattle.prove_command.specs.Theorem.{AreUnbooted};
ghost use Rattle.xinu_model.specs.Boot as model;
ghost use Rattle.xinu_model.specs.Boot.{Boots};
ghost use Rattle.xinu_model.specs.Machine.{Xinu};

use crate::causes::Fault;
use crate::judging::are_proved;
use crate::walk::{Program, walk};
use image_loader::{Image, load_all};
use kernel_boot::boot;
use program_logic::{Lock, Place, Range};
use run_inputs::{Refusal, clean_disk, raw_disk};
use rv_hart::Ram;
use std::alloc::{AllocError, Global};

/// What is answered of images and a lock.
#[derive(Clone, Copy)]
pub enum Answer {
    /// They keep the rule of the lock at each moment of each run.
    Proved,
    /// The walk stopped.
    Stopped(Fault),
    /// What the walk found doesn't check.
    Unchecked,
}

/// Whether these images, at most eight, keep the rule of a lock. The table gets the places of their programs, with what is known at each,
/// and the ranges say where in it each program is.
///
/// If the answer is `Proved` the images boot on any disks. From there, if the disks are sound, on every schedule and at each moment the
/// process of each image is alive, and whenever nobody has the token the guarded word is what the rule says.
///
/// # Errors
/// `Overlap` and `NoRoom` say why they don't boot: images that are answered of boot. `NoMemory` says nothing of them.
pub fn prove_images(
    alloc: Global,
    images: &[Image<'_>],
    lock: &Lock,
    table: &mut Vec<Place>,
    ranges: &mut Vec<Range>,
) -> Result<Answer, Refusal>
    requires few { length images.now ≤ 8 }
    ensures proved { IfOk result (λ answer. answer ≡ Answer.Proved → IsProved lock.now (map loaded_of images.now)) }
    ensures boots { IfOk result (λ _. (start : Xinu) × (model.boot (map loaded_of images.now) ≡ Boots start)) }
    ensures refused { IfErr result (AreUnbooted (map loaded_of images.now)) }
{
    match boots(alloc, images) {
        Ok(()) => {}
        Err(cause) => return Err(cause),
    }
    let Ok(mut ram) = Ram::new(alloc) else {
        return Err(Refusal::NoMemory);
    };
    load_all(&mut ram, images);
    match walk_all(&ram, images, lock, table, ranges) {
        Ok(None) => {}
        Ok(Some(fault)) => return Ok(Answer::Stopped(fault)),
        Err(_) => return Err(Refusal::NoMemory),
    }
    if are_proved(
        ram.bytes_from(0),
        images,
        lock,
        table.as_slice(),
        ranges.as_slice(),
    ) {
        Ok(Answer::Proved)
    } else {
        Ok(Answer::Unchecked)
    }
}

// The images boot.
fn boots(alloc: Global, images: &[Image<'_>]) -> Result<(), Refusal>
    requires few { length images.now ≤ 8 }
    ensures boots { IfOk result (λ _. (start : Xinu) × (model.boot (map loaded_of images.now) ≡ Boots start)) }
    ensures refused { IfErr result (AreUnbooted (map loaded_of images.now)) }
{
    let Ok(disk0) = raw_disk(alloc, None) else {
        return Err(Refusal::NoMemory);
    };
    let Ok(disk1) = clean_disk(alloc, None) else {
        return Err(Refusal::NoMemory);
    };
    let _state = match boot(alloc, images, disk0, disk1) {
        Ok(state) => state,
        Err(fault) => return Err(Refusal::from(fault)),
    };
    Ok(())
}

// Walks through the program of each image. The fault at which the walk stopped, if it did.
fn walk_all(
    ram: &Ram,
    images: &[Image<'_>],
    lock: &Lock,
    table: &mut Vec<Place>,
    ranges: &mut Vec<Range>,
) -> Result<Option<Fault>, AllocError> {
    let mut number = 0u8;
    for image in images {
        number = number.wrapping_add(1);
        let start = table.len();
        let first = image.entry;
        let program = Program {
            image: number,
            first,
            start,
        };
        if let Some(fault) = walk(ram, lock, program, table)? {
            return Ok(Some(fault));
        }
        ranges.push(Range {
            first,
            start,
            after: table.len(),
        })?;
    }
    Ok(None)
}
