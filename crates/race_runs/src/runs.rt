//! One run.

ghost use Rattle.std.specs.Prelude.{◌≡◌, ◌+◌, ◌++◌, ◌≤◌, false, length, map, List, ℕ, None, IfOk, MatchResult};
ghost use Rattle.std.specs.List.{All};
ghost use Rattle.given_disks.specs.Disks.{disks_of};
ghost use Rattle.host_port.specs.Printing.{Prints};
ghost use Rattle.host_port.specs.QuietHost.{quiet_empty, quiet_view};
ghost use Rattle.image_loader.specs.Images.{loaded_of};
ghost use Rattle.race_runs.specs.Forced.{Forces, ForcesOn};
ghost use Rattle.race_runs.specs.Remainders.{IsKnown, TakesMore};
ghost use Rattle.race_runs.specs.Runs.{ComesTo, ComesToOn, HasText, IsRefused, RunPrinted};
ghost use Rattle.race_tables.specs.Outcomes.{outcome_in};
ghost use Rattle.xinu_model.specs.Text.{tables_of, text};

use crate::choices::{is_forced, stays_quiet};
use crate::copies::{copy_clean, copy_raw};
use crate::known::{Known, finish};
use host_port::{Channel, Host, Printer, QuietMemoryHost};
use image_loader::Image;
use lfs_layout::{CleanImage, RawImage};
use machine::{BootFault, Go, Machine};
use race_tables::Outcome;
use std::alloc::Global;
use xinu_base::{End, Event, NoMemory};

/// What a run came to: its outcome, and whether it is the only one, since nothing was chosen in it.
#[derive(Drop)]
pub(crate) struct Ran {
    pub(crate) outcome: Outcome,
    pub(crate) is_forced: bool,
}

/// Events that were taken: the text that they printed, how the run ended with them, and whether nothing was chosen in them.
#[derive(Drop)]
pub(crate) struct Stretch {
    pub(crate) text: Vec<u8>,
    pub(crate) end: End,
    pub(crate) is_forced: bool,
}

/// Boots images on copies of these disks and runs them through the events of the front and the back, together at most 1000000000. There are
/// one to eight images. What comes of the back is run once for each machine to which the front leads, while that is known.
///
/// # Errors
/// `Overlap` and `NoRoom` if and only if the images don't boot, as [`Machine::boot`] says; `NoMemory`. The disks stay.
pub(crate) fn run_on(
    alloc: Global,
    images: &[Image<'_>],
    disk0: &RawImage,
    disk1: &CleanImage,
    front: &[Event],
    back: &[Event],
    known: &mut Vec<Known>,
) -> Result<Ran, BootFault>
    requires some { 1 ≤ length images.now }
    requires few { length images.now ≤ 8 }
    requires events { length front.now + length back.now ≤ 1000000000 }
    requires known { All (λ k. IsKnown back.now k) known.old.items }
    ensures known { All (λ k. IsKnown back.now k) known.new.items }
    ensures forced { IfOk result (λ r. ForcesOn r.is_forced (disks_of disk0.now disk1.now) (map loaded_of images.now) (front.now ++ back.now)) }
    ensures comes { MatchResult result (λ r. ComesToOn (disks_of disk0.now disk1.now) (map loaded_of images.now) (front.now ++ back.now) r.outcome) (λ fault. IsRefused (disks_of disk0.now disk1.now) (map loaded_of images.now) fault) }
{
    let Ok(disk0) = copy_raw(alloc, disk0) else {
        return Err(BootFault::NoMemory);
    };
    let Ok(disk1) = copy_clean(alloc, disk1) else {
        return Err(BootFault::NoMemory);
    };
    run(alloc, images, disk0, disk1, front, back, known)
}

// Boots images on these disks and runs them through these events.
fn run(
    alloc: Global,
    images: &[Image<'_>],
    disk0: RawImage,
    disk1: CleanImage,
    front: &[Event],
    back: &[Event],
    known: &mut Vec<Known>,
) -> Result<Ran, BootFault>
    requires some { 1 ≤ length images.now }
    requires few { length images.now ≤ 8 }
    requires events { length front.now + length back.now ≤ 1000000000 }
    requires known { All (λ k. IsKnown back.now k) known.old.items }
    ensures known { All (λ k. IsKnown back.now k) known.new.items }
    ensures forced { IfOk result (λ r. ForcesOn r.is_forced (disks_of disk0 disk1) (map loaded_of images.now) (front.now ++ back.now)) }
    ensures comes { MatchResult result (λ r. ComesToOn (disks_of disk0 disk1) (map loaded_of images.now) (front.now ++ back.now) r.outcome) (λ fault. IsRefused (disks_of disk0 disk1) (map loaded_of images.now) fault) }
{
    let mut machine = Machine::boot(alloc, images, disk0, disk1)?;
    match run_machine(alloc, &mut machine, front, back, known) {
        Ok(ran) => Ok(ran),
        Err(_) => Err(BootFault::NoMemory),
    }
}

// Runs a machine through these events.
fn run_machine(
    alloc: Global,
    machine: &mut Machine,
    front: &[Event],
    back: &[Event],
    known: &mut Vec<Known>,
) -> Result<Ran, NoMemory>
    requires over { machine.old.over ≡ false }
    requires few { machine.old.events + length front.now + length back.now ≤ 1000000000 }
    requires known { All (λ k. IsKnown back.now k) known.old.items }
    ensures known { All (λ k. IsKnown back.now k) known.new.items }
    ensures comes { IfOk result (λ r. ComesTo machine.old.state (front.now ++ back.now) r.outcome) }
    ensures forced { IfOk result (λ r. Forces r.is_forced machine.old.state (front.now ++ back.now)) }
{
    let taken = print_events(alloc, machine, front)?;
    if back.is_empty() {
        return ended(alloc, machine, &taken);
    }
    if taken.end != End::Schedule {
        return ended(alloc, machine, &taken);
    }
    let rest = finish(alloc, machine, &taken.text, back, known)?;
    Ok(Ran {
        outcome: rest.outcome,
        is_forced: taken.is_forced && rest.is_forced,
    })
}

// What a run came to with these events.
fn ended(alloc: Global, machine: &Machine, taken: &Stretch) -> Result<Ran, NoMemory>
    ensures outcome { IfOk result (λ r. r.outcome ≡ outcome_in taken.now.text.items (text (tables_of machine.now.state)) taken.now.end) }
    ensures forced { IfOk result (λ r. r.is_forced ≡ taken.now.is_forced) }
{
    let tables = print_tables(alloc, machine)?;
    let outcome = Outcome::new(alloc, &taken.text, &tables, taken.end)?;
    Ok(Ran {
        outcome,
        is_forced: taken.is_forced,
    })
}

/// Takes the events up to the end of the run.
pub(crate) fn print_events(
    alloc: Global,
    machine: &mut Machine,
    events: &[Event],
) -> Result<Stretch, NoMemory>
    requires over { machine.old.over ≡ false }
    requires few { machine.old.events + length events.now ≤ 1000000000 }
    ensures prints { IfOk result (λ r. HasText machine.old.state events.now machine.new.state r.end r.text.items) }
    ensures forced { IfOk result (λ r. Forces r.is_forced machine.old.state events.now) }
    ensures more { IfOk result (λ r. TakesMore machine.old events.now machine.new r.end) }
{
    let mut host = QuietMemoryHost::new(alloc);
    let mut out = Printer::new(false);
    let (end, is_quiet) = take_events(machine, events, &mut out, &mut host);
    let text = sent(alloc, &host, &out)?;
    let is_forced = is_forced(is_quiet, &text);
    Ok(Stretch {
        text,
        end,
        is_forced,
    })
}

/// The text of a machine's tables.
pub(crate) fn print_tables(alloc: Global, machine: &Machine) -> Result<Vec<u8>, NoMemory>
    ensures tables { IfOk result (λ tables. tables.items ≡ text (tables_of machine.now.state)) }
{
    let mut host = QuietMemoryHost::new(alloc);
    let mut out = Printer::new(false);
    machine.dump(&mut out, &mut host);
    sent(alloc, &host, &out)
}

// Takes the events up to the end of the run: how it ends, and whether no call on files was under way between them.
fn take_events<H: Host>(
    machine: &mut Machine,
    events: &[Event],
    out: &mut Printer,
    host: &mut H,
) -> (End, bool)
    requires over { machine.old.over ≡ false }
    requires few { machine.old.events + length events.now ≤ 1000000000 }
    ensures prints { RunPrinted machine.old.state events.now machine.new.state result.0 result.1 out.old out.new (H.view host.old) (H.view host.new) }
    ensures more { TakesMore machine.old events.now machine.new result.0 }
{
    let mut is_quiet = stays_quiet(true, machine);
    for event in events {
        let go = machine.event(*event, out, host);
        is_quiet = stays_quiet(is_quiet, machine);
        match go {
            Go::Goes => {}
            Go::Done => return (End::Done, is_quiet),
            Go::Panic => return (End::Panic, is_quiet),
        }
    }
    (End::Schedule, is_quiet)
}

// What a new printer sent to a new host.
fn sent(alloc: Global, host: &QuietMemoryHost, out: &Printer) -> Result<Vec<u8>, NoMemory>
    ensures sent { IfOk result (λ bytes. (text : List ℕ) → Prints (record { plain = false; failure = None }) out.now quiet_empty (quiet_view host.now) text → bytes.items ≡ text) }
{
    if out.failed().is_some() {
        return Err(NoMemory);
    }
    match Vec::from_slice(alloc, host.sent(Channel::Out)) {
        Ok(bytes) => Ok(bytes),
        Err(_) => Err(NoMemory),
    }
}
