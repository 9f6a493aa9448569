//! The search: all placements are gone through, each by a run.

ghost use Rattle.std.specs.Prelude.{◌≡◌, ◌+◌, ◌++◌, ◌≤◌, ℕ, List, [], length, take, drop, map, IfErr, IfOk, MatchResult};
ghost use Rattle.std.specs.List.{All};
ghost use Rattle.given_disks.specs.Disks.{disks_of};
ghost use Rattle.image_loader.specs.Images.{loaded_of};
ghost use Rattle.preemptions.specs.Placements.{IsAscending, IsPlacement, placements};
ghost use Rattle.preemptions.specs.Preempted.{preempted_at};
ghost use Rattle.race_runs.specs.Remainders.{IsKnown};
ghost use Rattle.race_runs.specs.Runs.{ComesToOn, IsRefused};
ghost use Rattle.race_runs.specs.Explored.{Explores, ExploresSome};
ghost use Rattle.race_runs.specs.Forced.{AreForced, ForcesOn};

use crate::known::Known;
use crate::progress::Progress;
use crate::runs::{Ran, run_on};
use image_loader::Image;
use lfs_layout::{CleanImage, RawImage};
use machine::BootFault;
use preemptions::{Placements, Stretch, preempt};
use race_tables::{Row, count_run};
use std::alloc::Global;
use xinu_base::Event;

// How many events are run after the last preemption before machines are compared: processes that it put out of step fall into step again meanwhile.
const SETTLING: usize = 4096;
// How many events are worth the copy and the comparison of a machine.
const LONG: usize = 32768;

/// Runs the images on these disks through the base's events with each placement of at most `most` quantum ends in a stretch of its steps,
/// in their order, and puts the outcomes into a table that is empty before. The outcome that is counted for a placement is that of a run of
/// the abstract machine. The progress is told of each that was gone through. The answer is `true` only if nothing was chosen in any of
/// them, so that there are no other runs.
///
/// There are one to eight images, at most 999999994 events, and at most three quantum ends, and the last place of the stretch is at most
/// 1000000.
///
/// # Errors
/// `Overlap` and `NoRoom` if and only if the images don't boot; `NoMemory`. The table is that of the placements so far.
pub fn explore<P: Progress>(
    alloc: Global,
    images: &[Image<'_>],
    disk0: &RawImage,
    disk1: &CleanImage,
    base: &[Event],
    most: u32,
    stretch: Stretch,
    table: &mut Vec<Row>,
    progress: &mut P,
) -> Result<bool, BootFault>
    requires some { 1 ≤ length images.now }
    requires few { length images.now ≤ 8 }
    requires base { length base.now ≤ 999999994 }
    requires most { most ≤ 3 }
    requires within { stretch.within ≤ 1000000 }
    requires empty { table.old.items ≡ [] }
    ensures explores { MatchResult result (λ _. Explores (disks_of disk0.now disk1.now) (map loaded_of images.now) base.now (placements most stretch) table.new.items) (λ _. ExploresSome (disks_of disk0.now disk1.now) (map loaded_of images.now) base.now (placements most stretch) table.new.items) }
    ensures forced { IfOk result (λ are_forced. AreForced are_forced (disks_of disk0.now disk1.now) (map loaded_of images.now) base.now (placements most stretch)) }
    ensures first { All (λ row. IsPlacement most stretch row.first) table.new.items }
    ensures cause { IfErr result (IsRefused (disks_of disk0.now disk1.now) (map loaded_of images.now)) }
{
    let cut = cut_of(base, stretch);
    let (front, back) = base.split_at(cut);
    let mut known = Vec::new(alloc);
    let mut left = Placements::new(alloc, most, stretch);
    let mut are_forced = true;
    while let Some(places) = left.first() {
        let ran = match run_placement(
            alloc, images, disk0, disk1, front, back, places, &mut known,
        ) {
            Ok(ran) => ran,
            Err(fault) => return Err(fault),
        };
        are_forced = are_forced && ran.is_forced;
        match count_run(alloc, table, ran.outcome, places) {
            Ok(()) => {}
            Err(_) => return Err(BootFault::NoMemory),
        }
        match left.advance() {
            Ok(()) => {}
            Err(_) => return Err(BootFault::NoMemory),
        }
        progress.tell();
    }
    Ok(are_forced)
}

// Where the base is cut into the front, in which all preemptions come, and the back. It isn't cut if the back isn't worth a comparison.
fn cut_of(base: &[Event], stretch: Stretch) -> usize
    requires few { length base.now ≤ 999999994 }
    ensures inside { result ≤ length base.now }
    ensures parts { (most : ℕ) (places : List ℕ) → IsPlacement most stretch places → preempted_at places base.now ≡ preempted_at places (take result base.now) ++ drop result base.now }
{
    let cut = preemptions::front(base, stretch) + SETTLING;
    if cut + LONG > base.len() {
        return base.len();
    }
    cut
}

// Runs the images on these disks through the front with one placement, and the back.
fn run_placement(
    alloc: Global,
    images: &[Image<'_>],
    disk0: &RawImage,
    disk1: &CleanImage,
    front: &[Event],
    back: &[Event],
    places: &[u32],
    known: &mut Vec<Known>,
) -> Result<Ran, BootFault>
    requires some { 1 ≤ length images.now }
    requires few { length images.now ≤ 8 }
    requires events { length front.now + length back.now ≤ 999999994 }
    requires places { length places.now ≤ 3 }
    requires ascending { IsAscending places.now }
    requires known { All (λ k. IsKnown back.now k) known.old.items }
    ensures known { All (λ k. IsKnown back.now k) known.new.items }
    ensures forced { IfOk result (λ r. ForcesOn r.is_forced (disks_of disk0.now disk1.now) (map loaded_of images.now) (preempted_at places.now front.now ++ back.now)) }
    ensures comes { MatchResult result (λ r. ComesToOn (disks_of disk0.now disk1.now) (map loaded_of images.now) (preempted_at places.now front.now ++ back.now) r.outcome) (λ fault. IsRefused (disks_of disk0.now disk1.now) (map loaded_of images.now) fault) }
{
    let Ok(events) = preempt(alloc, front, places) else {
        return Err(BootFault::NoMemory);
    };
    run_on(alloc, images, disk0, disk1, events.as_slice(), back, known)
}
