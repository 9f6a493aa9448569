//! Why a name isn't opened, or a prefix not mounted (book, chapter 21).

ghost use Rattle.std.specs.Prelude.{◌≡◌, IfOk, Some, length, nat_lt, not};
ghost use Rattle.name_space.specs.Mounted.{mapped_of};
ghost use Rattle.refusal_reasons.specs.Causes.{first_reason};
ghost use Rattle.refusal_reasons.specs.Names as specs;
ghost use Rattle.xinu_model.specs.Devices.Table as table;
ghost use Rattle.xinu_model.specs.Names.Constants.{NNAMES};

use crate::file_causes::file_reason;
use crate::looks::text_at;
use crate::reasons::{Cause, Reason, first_of};
use device_switch::{device, kind_of};
use kernel_state::KernelState;
use name_space::{MappedName, Names};
use std::alloc::AllocError;
use xinu_base::{Dev, Kind};

/// `open` of a device with a name and a mode.
pub(crate) fn direct_reason(kind: Kind, name: &[u8], mode: &[u8]) -> Option<Reason>
    ensures reason { result ≡ first_reason (specs.direct_causes (Some kind) name.now mode.now) }
{
    match kind {
        Kind::FileSystem => file_reason(name, mode),
        Kind::Console | Kind::NameSpace | Kind::RawDisk | Kind::File => None,
    }
}

// Whether a device is opened by a name that is mapped to it.
fn is_opened(kind: Kind) -> bool
    ensures opened { result ≡ specs.is_opened (Some kind) }
{
    matches!(kind, Kind::Console | Kind::RawDisk | Kind::FileSystem)
}

// `open` of what a name is mapped to.
fn mapped_reason(m: &MappedName, mode: &[u8]) -> Option<Reason>
    ensures reason { result ≡ first_reason (specs.mapped_causes (Some (mapped_of m.now)) mode.now) }
{
    let kind = kind_of(m.device);
    if !is_opened(kind) {
        return Some(Reason::NotOpened);
    }
    direct_reason(kind, m.name.as_slice(), mode)
}

/// `open` of a name by the mounted prefixes.
pub(crate) fn name_space_reason(names: &Names, name: &[u8], mode: &[u8]) -> Option<Reason>
    ensures reason { result ≡ first_reason (specs.name_space_causes names.now name.now mode.now) }
{
    match names.map(name) {
        Ok(m) => mapped_reason(&m, mode),
        Err(_) => Some(Reason::NotMapped),
    }
}

// A copy of the mounted prefixes.
fn copy_of(names: &Names) -> Result<Names, AllocError>
    ensures copy { IfOk result (λ n. n ≡ names.now) }
{
    names.clone()
}

// Whether one prefix more can be mounted, so that a copy takes one.
fn has_row(names: &Names) -> Result<bool, AllocError>
    ensures room { IfOk result (λ r. r ≡ nat_lt (length names.now) NNAMES) }
{
    let mut copy = copy_of(names)?;
    Ok(copy.mount(&[], &[], Dev::at(0)))
}

/// `mount`, with the addresses of a prefix and a replacement, and a device.
///
/// # Errors
/// Out of memory, for a copy of the mounted prefixes.
pub(crate) fn mount(
    k: &KernelState,
    prefix: u32,
    replacement: u32,
    dev: u32,
) -> Result<Option<Reason>, AllocError>
    ensures reason { IfOk result (λ r. r ≡ first_reason (specs.mount_causes prefix replacement dev k.now.call.state)) }
{
    if device(dev).is_err() {
        return Ok(Some(Reason::NoDevice));
    }
    let Some(prefix) = text_at(&k.ram, prefix) else {
        return Ok(Some(Reason::NoPrefixText));
    };
    let Some(replacement) = text_at(&k.ram, replacement) else {
        return Ok(Some(Reason::NoReplacementText));
    };
    let room = has_row(&k.names)?;
    Ok(first_of(&[
        Cause::new(Reason::PrefixTooLong, !(prefix.len() <= 31)),
        Cause::new(Reason::ReplacementTooLong, !(replacement.len() <= 31)),
        Cause::new(Reason::NoFreeRow, !room),
    ]))
}
