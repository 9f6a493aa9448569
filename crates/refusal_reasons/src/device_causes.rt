//! Why the calls on devices are refused (book, chapters 14, 15, 18 and 19).

ghost use Rattle.std.specs.Prelude.{◌≡◌};
ghost use Rattle.refusal_reasons.specs.Causes.{first_reason};
ghost use Rattle.refusal_reasons.specs.Devices as specs;
ghost use Rattle.xinu_model.specs.Devices.Table as table;
ghost use Rattle.xinu_model.specs.Sound.State.{IsSound};
ghost use Rattle.xinu_base.specs.declared.devices.Kind.TheVariants as DeviceKind;
ghost use Rattle.xinu_base.specs.declared.devices.Op.TheVariants as op;
ghost use Rattle.xinu_model.specs.Words as words;

use crate::file_causes::name_reason;
use crate::looks::{text_at, tokens_of};
use crate::name_causes::{direct_reason, name_space_reason};
use crate::numbers::{in_ram, is_negative};
use crate::reasons::{Cause, Reason, first_of};
use device_switch::{device, kind_of, offers};
use kernel_state::{KernelState, signed};
use name_space::Names;
use xinu_base::{Kind, Op, Sem, TtyMode};

// The control functions that delete a file, empty one and tell its size, and that tells the raw disk's.
const LF_CTL_DEL: u32 = 1;

const LF_CTL_TRUNC: u32 = 1;

const LF_CTL_SIZE: u32 = 2;

const RD_CTL_SIZE: u32 = 1;

// What the device of a word is, if there is one.
fn kind_at(dev: u32) -> Option<Kind>
    ensures kind { result ≡ table.kind_of dev }
{
    match device(dev) {
        Ok(dev) => Some(kind_of(dev)),
        Err(_) => None,
    }
}

// Whether it offers a call.
fn does_offer(call: Op, dev: u32) -> bool
    ensures offers { result ≡ specs.does_offer call (table.kind_of dev) }
{
    match device(dev) {
        Ok(dev) => offers(dev, call),
        Err(_) => false,
    }
}

/// There is no device, or it doesn't offer the call. `close`, `getc`, `putc` and `seek` aren't refused for anything else as they are made.
pub(crate) fn switch_reason(call: Op, dev: u32) -> Option<Reason>
    ensures reason { result ≡ first_reason (specs.switch_causes call dev) }
{
    first_of(&[
        Cause::new(Reason::NoDevice, kind_at(dev).is_none()),
        Cause::new(Reason::NotOffered, !does_offer(call, dev)),
    ])
}

/// `open`, with the addresses of a name and a mode.
#[tactic(auto, using(crate::proofs::Chained::first_of_first, crate::proofs::Chained::first_of_second))]
pub(crate) fn open(k: &KernelState, dev: u32, name: u32, mode: u32) -> Option<Reason>
    ensures reason { result ≡ first_reason (specs.device_calls op.Open dev (specs.open_causes name mode k.now.call.state)) }
{
    let common = switch_reason(Op::Open, dev);
    if common.is_some() {
        return common;
    }
    match kind_at(dev) {
        Some(kind) => open_reason(k, name, mode, kind),
        None => None,
    }
}

// `open` by what the device is.
fn open_reason(k: &KernelState, name: u32, mode: u32, kind: Kind) -> Option<Reason>
    ensures reason { result ≡ first_reason (specs.open_causes name mode k.now.call.state kind) }
{
    let Some(name) = text_at(&k.ram, name) else {
        return Some(Reason::NoName);
    };
    let Some(mode) = text_at(&k.ram, mode) else {
        return Some(Reason::NoMode);
    };
    text_reason(&k.names, kind, name, mode)
}

// The same, with the texts of the name and the mode.
fn text_reason(names: &Names, kind: Kind, name: &[u8], mode: &[u8]) -> Option<Reason>
    ensures reason { result ≡ first_reason (specs.open_by kind names.now name.now mode.now) }
{
    match kind {
        Kind::NameSpace => name_space_reason(names, name, mode),
        _ => direct_reason(kind, name, mode),
    }
}

/// `read`, with an address and a word: a number of bytes or a block.
#[tactic(auto, using(crate::proofs::Chained::first_of_first, crate::proofs::Chained::first_of_second))]
pub(crate) fn read(k: &KernelState, dev: u32, at: u32, n: u32) -> Option<Reason>
    requires sound { IsSound k.now.call.state }
    ensures reason { result ≡ first_reason (specs.device_calls op.Read dev (specs.read_causes at n k.now.call.state)) }
{
    let common = switch_reason(Op::Read, dev);
    if common.is_some() {
        return common;
    }
    match kind_at(dev) {
        Some(kind) => read_reason(k, at, n, kind),
        None => None,
    }
}

// `read` by what the device is.
fn read_reason(k: &KernelState, at: u32, n: u32, kind: Kind) -> Option<Reason>
    requires sound { IsSound k.now.call.state }
    ensures reason { result ≡ first_reason (specs.read_causes at n k.now.call.state kind) }
{
    match kind {
        Kind::Console => console_read_reason(k, at, n),
        Kind::RawDisk => block_reason(k, at, n),
        Kind::File => transfer_reason(at, n),
        Kind::NameSpace | Kind::FileSystem => None,
    }
}

// A read of the console.
fn console_read_reason(k: &KernelState, at: u32, n: u32) -> Option<Reason>
    requires sound { IsSound k.now.call.state }
    ensures reason { result ≡ first_reason (specs.read_causes at n k.now.call.state DeviceKind.Console) }
{
    first_of(&[
        Cause::new(Reason::NegativeBytes, is_negative(signed(n))),
        Cause::new(Reason::OutsideRam, read_leaves_ram(k, at, signed(n))),
    ])
}

// Whether the bytes of a read of the console leave RAM.
fn read_leaves_ram(k: &KernelState, at: u32, n: i32) -> bool
    requires sound { IsSound k.now.call.state }
    ensures leaves { result ≡ specs.read_leaves_ram at n k.now.call.state }
{
    if n == 0 {
        let cooked = matches!(k.tty.mode(), TtyMode::Cooked);
        return !cooked && !in_ram(at, tokens_of(&k.tables, Sem::at(0)));
    }
    leaves_ram(at, n)
}

// Whether so many bytes from an address on leave RAM.
fn leaves_ram(at: u32, n: i32) -> bool
    ensures leaves { result ≡ specs.leaves_ram at n }
{
    if n < 0 {
        return false;
    }
    !in_ram(at, n as u32)
}

// A transfer of bytes between a file and an address.
fn transfer_reason(at: u32, n: u32) -> Option<Reason>
    ensures reason { result ≡ first_reason (specs.transfer_causes at (words.signed n)) }
{
    first_of(&[
        Cause::new(Reason::NegativeBytes, is_negative(signed(n))),
        Cause::new(Reason::OutsideRam, leaves_ram(at, signed(n))),
    ])
}

// A transfer of a block of the raw disk.
fn block_reason(k: &KernelState, at: u32, block: u32) -> Option<Reason>
    ensures reason { result ≡ first_reason (specs.block_causes at block k.now.call.state) }
{
    first_of(&[
        Cause::new(Reason::OutsideRam, !in_ram(at, 512)),
        Cause::new(Reason::NoDiskBlock, !(block < k.disk.blocks())),
    ])
}

/// `write`, with an address and a word: a number of bytes or a block.
#[tactic(auto, using(crate::proofs::Chained::first_of_first, crate::proofs::Chained::first_of_second))]
pub(crate) fn write(k: &KernelState, dev: u32, at: u32, n: u32) -> Option<Reason>
    ensures reason { result ≡ first_reason (specs.device_calls op.Write dev (specs.write_causes at n k.now.call.state)) }
{
    let common = switch_reason(Op::Write, dev);
    if common.is_some() {
        return common;
    }
    match kind_at(dev) {
        Some(kind) => write_reason(k, at, n, kind),
        None => None,
    }
}

// `write` by what the device is.
fn write_reason(k: &KernelState, at: u32, n: u32, kind: Kind) -> Option<Reason>
    ensures reason { result ≡ first_reason (specs.write_causes at n k.now.call.state kind) }
{
    match kind {
        Kind::Console | Kind::File => transfer_reason(at, n),
        Kind::RawDisk => block_reason(k, at, n),
        Kind::NameSpace | Kind::FileSystem => None,
    }
}

/// `control`, with a function and the address of a name.
#[tactic(auto, using(crate::proofs::Chained::first_of_first, crate::proofs::Chained::first_of_second))]
pub(crate) fn control(k: &KernelState, dev: u32, f: u32, x: u32) -> Option<Reason>
    ensures reason { result ≡ first_reason (specs.device_calls op.Control dev (specs.control_causes f x k.now.call.state)) }
{
    let common = switch_reason(Op::Control, dev);
    if common.is_some() {
        return common;
    }
    match kind_at(dev) {
        Some(kind) => control_reason(k, f, x, kind),
        None => None,
    }
}

// `control` by what the device is.
fn control_reason(k: &KernelState, f: u32, x: u32, kind: Kind) -> Option<Reason>
    ensures reason { result ≡ first_reason (specs.control_causes f x k.now.call.state kind) }
{
    match kind {
        Kind::Console => {
            let known = f == 1 || (f == 2 || (f == 3 || (f == 4 || (f == 5 || f == 6))));
            first_of(&[Cause::new(Reason::NoFunction, !known)])
        },
        Kind::RawDisk => first_of(&[Cause::new(Reason::NoFunction, f != RD_CTL_SIZE)]),
        Kind::FileSystem => deletion_reason(k, f, x),
        Kind::File => {
            let known = f == LF_CTL_TRUNC || f == LF_CTL_SIZE;
            first_of(&[Cause::new(Reason::NoFunction, !known)])
        },
        Kind::NameSpace => None,
    }
}

// `control` of the file system.
fn deletion_reason(k: &KernelState, f: u32, x: u32) -> Option<Reason>
    ensures reason { result ≡ first_reason (specs.control_causes f x k.now.call.state DeviceKind.FileSystem) }
{
    if f != LF_CTL_DEL {
        return Some(Reason::NoFunction);
    }
    match text_at(&k.ram, x) {
        Some(name) => name_reason(name),
        None => Some(Reason::NoName),
    }
}
