//! The disks that a machine starts with: each is fetched if a file is named for it, and checked.

ghost use Rattle.std.specs.Prelude.{◌≡◌, None, IfOk, IfErr, IsErrOf, option_map};
ghost use Rattle.std.specs.Option.{unwrap_or};
ghost use Rattle.lfs_layout.specs.Images.{opened};
ghost use Rattle.run_inputs.specs.Causes.{MayBeFetchedLast};
ghost use Rattle.run_inputs.specs.Fetching.{FetchesFiles, IsOfHost, MayBeFetched, refusal_of};
ghost use Rattle.run_inputs.specs.InputDisks.{IsDiskCause, disk_fault, empty_disk0, empty_disk1, raw_fault};
ghost use Rattle.run_inputs.specs.InputFiles.{if_named};
ghost use Rattle.run_inputs.specs.Reading.{ReadsDisk};
ghost use Rattle.run_inputs.specs.declared.refusals.Refusal.TheVariants as refusal;

use crate::fetching::fetch_file;
use crate::refusals::Refusal;
use host_port::Host;
use lfs_layout::{CleanImage, DiskFault, RawImage};
use std::alloc::Global;
use xinu_base::NoMemory;

/// The most bytes of a disk: 65,542 blocks.
const LONGEST_DISK: usize = 33_557_504;
/// How many blocks a disk with files has if none is named.
const EMPTY_BLOCKS: u32 = 256;

/// Fetches and checks the raw disk, or makes the one of a run that names none.
///
/// # Errors
/// Rule 0 at block 0 of disk 0 if and only if it isn't 8 to 65,536 whole blocks; `HostFault` if the host failed; `NoMemory`.
pub(crate) fn fetch_raw_disk<H: Host>(
    alloc: Global,
    name: Option<&str>,
    host: &mut H,
) -> Result<RawImage, Refusal>
    ensures reads { ReadsDisk 0 raw_fault (λ image. image) empty_disk0 (option_map (λ s. s.now) name.entry) result (H.view host.old) (H.view host.new) }
    ensures last { IsErrOf result refusal.HostFault → MayBeFetchedLast (option_map (λ s. s.now) name.entry) (H.view host.new) }
{
    let bytes = fetch_disk(alloc, name, host)?;
    raw_disk(alloc, bytes)
}

/// Fetches and checks the disk with files, or makes the one of a run that names none.
///
/// # Errors
/// The rule of disk 1 that it breaks, and its block, if and only if it breaks one; `HostFault` if the host failed; `NoMemory`.
pub(crate) fn fetch_clean_disk<H: Host>(
    alloc: Global,
    name: Option<&str>,
    host: &mut H,
) -> Result<CleanImage, Refusal>
    ensures reads { ReadsDisk 1 disk_fault opened empty_disk1 (option_map (λ s. s.now) name.entry) result (H.view host.old) (H.view host.new) }
    ensures last { IsErrOf result refusal.HostFault → MayBeFetchedLast (option_map (λ s. s.now) name.entry) (H.view host.new) }
{
    let bytes = fetch_disk(alloc, name, host)?;
    clean_disk(alloc, bytes)
}

// The bytes of a disk's file, at most one more than a disk can have, if a file is named.
fn fetch_disk<H: Host>(
    alloc: Global,
    name: Option<&str>,
    host: &mut H,
) -> Result<Option<Vec<u8>>, Refusal>
    ensures bytes { IfOk result (λ o. MayBeFetched 33557504 (option_map (λ s. s.now) name.entry) (H.view host.old).file (option_map (λ v. v.items) o)) }
    ensures cause { IfErr result IsOfHost }
    ensures fetches { FetchesFiles (if_named (option_map (λ s. s.now) name.entry)) (refusal_of result) (H.view host.old) (H.view host.new) }
    ensures last { IsErrOf result refusal.HostFault → MayBeFetchedLast (option_map (λ s. s.now) name.entry) (H.view host.new) }
{
    match name {
        Some(name) => match fetch_file(alloc, name, LONGEST_DISK, host) {
            Ok(bytes) => Ok(Some(bytes)),
            Err(refusal) => Err(refusal),
        },
        None => Ok(None),
    }
}

/// The raw disk of these bytes, or one of 64 empty blocks if there are none.
///
/// # Errors
/// Rule 0 at block 0 of disk 0 if and only if it isn't 8 to 65,536 whole blocks; `NoMemory`.
pub fn raw_disk(alloc: Global, bytes: Option<Vec<u8>>) -> Result<RawImage, Refusal>
    ensures ok { IfOk result (λ image. (raw_fault (unwrap_or (option_map (λ v. v.items) bytes) empty_disk0) ≡ None) × (image ≡ unwrap_or (option_map (λ v. v.items) bytes) empty_disk0)) }
    ensures refused { IfErr result (λ r. IsDiskCause 0 (raw_fault (unwrap_or (option_map (λ v. v.items) bytes) empty_disk0)) r) }
{
    match bytes {
        Some(bytes) => raw_image(bytes),
        None => raw_image(empty_bytes(alloc)?),
    }
}

// The raw disk of these bytes.
fn raw_image(bytes: Vec<u8>) -> Result<RawImage, Refusal>
    ensures ok { IfOk result (λ image. (raw_fault bytes.items ≡ None) × (image ≡ bytes.items)) }
    ensures refused { IfErr result (λ r. IsDiskCause 0 (raw_fault bytes.items) r) }
{
    match RawImage::new(bytes) {
        Ok(image) => Ok(image),
        Err(DiskFault { block, rule }) => Err(Refusal::Disk {
            disk: 0,
            block,
            rule,
        }),
    }
}

// The bytes of 64 empty blocks.
fn empty_bytes(alloc: Global) -> Result<Vec<u8>, NoMemory>
    ensures empty { IfOk result (λ v. v.items ≡ empty_disk0) }
{
    match vec![in alloc; 0u8; 32_768] {
        Ok(bytes) => Ok(bytes),
        Err(_) => Err(NoMemory),
    }
}

/// The disk with files of these bytes, or one of 256 blocks without files if there are none.
///
/// # Errors
/// The rule of disk 1 that it breaks, and its block, if and only if it breaks one; `NoMemory`.
pub fn clean_disk(alloc: Global, bytes: Option<Vec<u8>>) -> Result<CleanImage, Refusal>
    ensures ok { IfOk result (λ image. (disk_fault (unwrap_or (option_map (λ v. v.items) bytes) empty_disk1) ≡ None) × (image ≡ opened (unwrap_or (option_map (λ v. v.items) bytes) empty_disk1))) }
    ensures refused { IfErr result (λ r. IsDiskCause 1 (disk_fault (unwrap_or (option_map (λ v. v.items) bytes) empty_disk1)) r) }
{
    match bytes {
        Some(bytes) => match CleanImage::new(alloc, bytes) {
            Ok(image) => Ok(image),
            Err(fault) => Err(Refusal::from(fault)),
        },
        None => match CleanImage::empty(alloc, EMPTY_BLOCKS) {
            Ok(image) => Ok(image),
            Err(NoMemory) => Err(Refusal::NoMemory),
        },
    }
}
