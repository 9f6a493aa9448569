//! The actions on a disk with files: each fetches its disk, checks it, and sends what it makes of it.

ghost use Rattle.std.specs.Prelude.{◌≡◌, ◌≤◌, ◌∷◌, [], true, Some, None, IfOk};
ghost use Rattle.command_line.specs.Commands as command;
ghost use Rattle.command_line.specs.DiskArgs as disk;
ghost use Rattle.command_line.specs.Names.{action_names};
ghost use Rattle.host_port.specs.Outside.{fetching, naming};
ghost use Rattle.host_port.specs.declared.host.Channel.TheVariants as channel;
ghost use Rattle.lfs_layout.specs.Files.{is_text};
ghost use Rattle.xinu_commands.specs.DiskVerdict as verdict;
ghost use Rattle.run_inputs.specs.Fetching.{IsFetched, refusal_of};
ghost use Rattle.xinu_commands.specs.Stages.{Fetches, IsPossible, Performs, SetsFile, Stage, no_fetches};

use crate::disk_lines::{repair_line, report_line};
use crate::fetching::fetch_file;
use crate::sending::{print_files, print_line, send_file};
use command_line::DiskAction;
use host_port::{Channel, Host};
use lfs_layout::{CleanImage, check, repair};
use run_inputs::Refusal;
use std::alloc::Global;

/// The most bytes of a disk: 65,542 blocks.
const LONGEST_DISK: usize = 33_557_504;

/// Carries out an action.
///
/// # Errors
/// The refusal that the action deserves; `HostFault` if the host failed; `NoMemory`.
pub(crate) fn act<H: Host>(
    alloc: Global,
    action: DiskAction<'_>,
    host: &mut H,
) -> Result<(), Refusal>
    requires possible { IsPossible (action_names action) }
    ensures performs { Performs (Some (command.Disk (action_names action.entry))) (refusal_of result) None (H.view host.old) (H.view host.new) }
{
    match action {
        DiskAction::Mkfs { blocks, out } => make(alloc, blocks, out, host),
        DiskAction::Ls { image } => list(alloc, image, host),
        DiskAction::Get { image, name, out } => get(alloc, image, name, out, host),
        DiskAction::Put {
            image,
            name,
            source,
            out,
        } => put(alloc, image, name, source, out, host),
        DiskAction::Check { image } => check_file(alloc, image, host),
        DiskAction::Repair { image, out } => repair_file(alloc, image, out, host),
    }
}

// Makes a disk without files.
fn make<H: Host>(alloc: Global, blocks: u32, out: &str, host: &mut H) -> Result<(), Refusal>
    requires low { 14 ≤ blocks }
    requires high { blocks ≤ 65542 }
    ensures performs { Performs (Some (command.Disk (disk.Mkfs blocks out.now))) (refusal_of result) None (H.view host.old) (H.view host.new) }
{
    let image = CleanImage::empty(alloc, blocks)?;
    send_file(host, Channel::Disk1, out, image.bytes())
}

// Lists the files of a disk.
fn list<H: Host>(alloc: Global, name: &str, host: &mut H) -> Result<(), Refusal>
    ensures performs { Performs (Some (command.Disk (disk.Ls name.now))) (refusal_of result) None (H.view host.old) (H.view host.new) }
{
    let bytes = fetch(alloc, name, host)?;
    list_files(alloc, bytes, host)
}

fn list_files<H: Host>(alloc: Global, bytes: Vec<u8>, host: &mut H) -> Result<(), Refusal>
    ensures stage { Stage (verdict.ls_verdict bytes.items) no_fetches [] (refusal_of result) None (H.view host.old) (H.view host.new) }
{
    let image = CleanImage::new(alloc, bytes)?;
    print_files(host, &image)
}

// Copies a file of a disk to the host.
fn get<H: Host>(
    alloc: Global,
    image: &str,
    name: &str,
    out: &str,
    host: &mut H,
) -> Result<(), Refusal>
    ensures performs { Performs (Some (command.Disk (disk.Get image.now name.now out.now))) (refusal_of result) None (H.view host.old) (H.view host.new) }
{
    let bytes = fetch(alloc, image, host)?;
    get_file(alloc, bytes, name, out, host)
}

fn get_file<H: Host>(
    alloc: Global,
    bytes: Vec<u8>,
    name: &str,
    out: &str,
    host: &mut H,
) -> Result<(), Refusal>
    ensures stage { Stage (verdict.get_verdict name.now bytes.items) no_fetches (naming channel.Image out.now ∷ []) (refusal_of result) None (H.view host.old) (H.view host.new) }
{
    let image = CleanImage::new(alloc, bytes)?;
    match image.read_file(alloc, name.as_bytes())? {
        Some(file) => send_file(host, Channel::Image, out, file.as_slice()),
        None => Err(Refusal::NoSuchFile),
    }
}

// Sets a file of a disk to the bytes of a source.
fn put<H: Host>(
    alloc: Global,
    image: &str,
    name: &str,
    source: &str,
    out: &str,
    host: &mut H,
) -> Result<(), Refusal>
    requires name { is_text name.now ≡ true }
    ensures performs { Performs (Some (command.Disk (disk.Put image.now name.now source.now out.now))) (refusal_of result) None (H.view host.old) (H.view host.new) }
{
    let bytes = fetch(alloc, image, host)?;
    put_file(alloc, bytes, name, source, out, host)
}

fn put_file<H: Host>(
    alloc: Global,
    bytes: Vec<u8>,
    name: &str,
    source: &str,
    out: &str,
    host: &mut H,
) -> Result<(), Refusal>
    requires name { is_text name.now ≡ true }
    ensures sets { SetsFile bytes.items name.now source.now out.now (refusal_of result) (H.view host.old) (H.view host.new) }
{
    let disk = CleanImage::new(alloc, bytes)?;
    let source = fetch(alloc, source, host)?;
    set_file(alloc, disk, name, source.as_slice(), out, host)
}

fn set_file<H: Host>(
    alloc: Global,
    disk: CleanImage,
    name: &str,
    source: &[u8],
    out: &str,
    host: &mut H,
) -> Result<(), Refusal>
    requires name { is_text name.now ≡ true }
    ensures stage { Stage (verdict.set_verdict name.now source.now disk) no_fetches (naming channel.Disk1 out.now ∷ []) (refusal_of result) None (H.view host.old) (H.view host.new) }
{
    let mut disk = disk;
    if disk.put_file(alloc, name.as_bytes(), source)? {
        send_file(host, Channel::Disk1, out, disk.bytes())
    } else {
        Err(Refusal::DoesNotFit)
    }
}

// Checks a disk.
fn check_file<H: Host>(alloc: Global, name: &str, host: &mut H) -> Result<(), Refusal>
    ensures performs { Performs (Some (command.Disk (disk.Check name.now))) (refusal_of result) None (H.view host.old) (H.view host.new) }
{
    let bytes = fetch(alloc, name, host)?;
    check_bytes(alloc, bytes.as_slice(), host)
}

fn check_bytes<H: Host>(alloc: Global, bytes: &[u8], host: &mut H) -> Result<(), Refusal>
    ensures stage { Stage (verdict.check_verdict bytes.now) no_fetches [] (refusal_of result) None (H.view host.old) (H.view host.new) }
{
    let report = check(alloc, bytes)?;
    print_line(host, &report_line(report))
}

// Repairs a disk.
fn repair_file<H: Host>(alloc: Global, name: &str, out: &str, host: &mut H) -> Result<(), Refusal>
    ensures performs { Performs (Some (command.Disk (disk.Repair name.now out.now))) (refusal_of result) None (H.view host.old) (H.view host.new) }
{
    let bytes = fetch(alloc, name, host)?;
    repair_bytes(alloc, bytes.as_slice(), out, host)
}

fn repair_bytes<H: Host>(
    alloc: Global,
    bytes: &[u8],
    out: &str,
    host: &mut H,
) -> Result<(), Refusal>
    ensures stage { Stage (verdict.repair_verdict bytes.now) no_fetches (naming channel.Disk1 out.now ∷ []) (refusal_of result) None (H.view host.old) (H.view host.new) }
{
    let repaired = repair(alloc, bytes)?;
    print_line(host, &repair_line(repaired.kept, repaired.dropped))?;
    send_file(host, Channel::Disk1, out, repaired.image.bytes())
}

// The bytes of a file, at most one more than a disk can have.
fn fetch<H: Host>(alloc: Global, name: &str, host: &mut H) -> Result<Vec<u8>, Refusal>
    ensures bytes { IfOk result (λ v. IsFetched 33557504 ((H.view host.old).file name.now) v.items) }
    ensures fetches { Fetches name.now (refusal_of result) (H.view host.old) (H.view host.new) }
{
    fetch_file(alloc, name, LONGEST_DISK, host)
}
