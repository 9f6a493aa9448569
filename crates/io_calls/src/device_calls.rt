//! The calls on devices: each goes to the device that its first argument names, if that offers it (book, chapter 14, `open.c`,
//! `close.c`, `read.c`, `write.c`, `getc.c`, `putc.c`, `seek.c`, `control.c`).
//!
//! Each begins as the row of its number in the abstract machine's table, or takes effect as it is made, if it is on files.

ghost use Rattle.std.specs.Prelude.{◌≡◌, ◌%◌, IfSome, Some};
ghost use Rattle.io_calls.specs.Devices.{by_kind};
ghost use Rattle.kernel_state.specs.Beginnings.{BeginsAs, next_of};
ghost use Rattle.kernel_state.specs.Calling.{IsCalling};
ghost use Rattle.kernel_state.specs.Results.{came_to};
ghost use Rattle.xinu_base.specs.declared.devices.Kind.{Kind};
ghost use Rattle.xinu_model.specs.Devices.Calls as model;
ghost use Rattle.xinu_model.specs.Devices.Table as table;
ghost use Rattle.xinu_model.specs.Machine.{CallResult, Xinu};
ghost use Rattle.xinu_model.specs.Words.{signed};

use crate::console_reads::{console_getc, console_read};
use crate::console_signals::console_control;
use crate::console_writes::{console_putc, console_write};
use crate::disk_calls::{disk_control, disk_read, disk_write};
use crate::file_calls::{ask, file_control, file_read, file_write, system_control};
use crate::open_calls::{Opening, what_opens};
use device_switch::{Kind, Op, device, kind_of, offers};
use kernel_state::{Begun, KernelState, signed};
use local_files::{FileCall, FileDev};
use xinu_base::{LFILE0, Next, SYSERR};

// A call that is refused as it is made.
const REFUSED: Begun = Begun::ByRow(Next::Returns(SYSERR));

/// Call 36: a device is opened, with the texts at two addresses as a name and a mode. Refused if a text isn't there.
pub(crate) fn device_open(k: &mut KernelState, dev: u32, name: u32, mode: u32) -> Begun
    requires calling { IsCalling k.old.call }
    ensures opens { BeginsAs result (model.device_open dev name mode k.old.call.state) k.old.call.state (came_to k.new.call (next_of result)) }
    ensures image { k.new.image ≡ k.old.image }
{
    let Some(kind) = offering(dev, Op::Open) else {
        return REFUSED;
    };
    match what_opens(k, kind, name, mode) {
        Opening::Answers(value) => Begun::ByRow(Next::Returns(value)),
        Opening::Asks(call) => ask(k, call),
    }
}

/// Call 37: a device is closed.
pub(crate) fn device_close(k: &mut KernelState, dev: u32) -> Begun
    requires calling { IsCalling k.old.call }
    ensures close { BeginsAs result (model.device_close dev k.old.call.state) k.old.call.state (came_to k.new.call (next_of result)) }
    ensures image { k.new.image ≡ k.old.image }
{
    let Some(kind) = offering(dev, Op::Close) else {
        return REFUSED;
    };
    match kind {
        Kind::Console | Kind::RawDisk => Begun::ByRow(Next::Returns(0)),
        Kind::File => ask(k, FileCall::Close(file_device(dev))),
        _ => REFUSED,
    }
}

/// Call 38: a device is read, to an address; the last argument is a number of bytes, of the raw disk the number of a block.
pub(crate) fn device_read(k: &mut KernelState, dev: u32, at: u32, n: u32) -> Begun
    requires calling { IsCalling k.old.call }
    ensures read { BeginsAs result (model.device_read dev at n k.old.call.state) k.old.call.state (came_to k.new.call (next_of result)) }
    ensures image { k.new.image ≡ k.old.image }
{
    let Some(kind) = offering(dev, Op::Read) else {
        return REFUSED;
    };
    match kind {
        Kind::Console => Begun::ByRow(console_read(k, at, signed(n))),
        Kind::RawDisk => Begun::ByRow(disk_read(k, at, n)),
        Kind::File => file_read(k, file_device(dev), at, signed(n)),
        _ => REFUSED,
    }
}

/// Call 39: a device is written, from an address; the last argument is as that of `read`.
pub(crate) fn device_write(k: &mut KernelState, dev: u32, at: u32, n: u32) -> Begun
    requires calling { IsCalling k.old.call }
    ensures write { BeginsAs result (model.device_write dev at n k.old.call.state) k.old.call.state (came_to k.new.call (next_of result)) }
    ensures image { k.new.image ≡ k.old.image }
{
    let Some(kind) = offering(dev, Op::Write) else {
        return REFUSED;
    };
    match kind {
        Kind::Console => Begun::ByRow(console_write(k, at, signed(n))),
        Kind::RawDisk => Begun::ByRow(disk_write(k, at, n)),
        Kind::File => file_write(k, file_device(dev), at, signed(n)),
        _ => REFUSED,
    }
}

/// Call 40: a character is read from a device.
pub(crate) fn device_getc(k: &mut KernelState, dev: u32) -> Begun
    requires calling { IsCalling k.old.call }
    ensures getc { BeginsAs result (model.device_getc dev k.old.call.state) k.old.call.state (came_to k.new.call (next_of result)) }
    ensures image { k.new.image ≡ k.old.image }
{
    let Some(kind) = offering(dev, Op::Getc) else {
        return REFUSED;
    };
    match kind {
        Kind::Console => Begun::ByRow(console_getc(k)),
        Kind::File => ask(k, FileCall::Getc(file_device(dev))),
        _ => REFUSED,
    }
}

/// Call 41: a character, the lowest byte of a word, is written to a device.
pub(crate) fn device_putc(k: &mut KernelState, dev: u32, word: u32) -> Begun
    requires calling { IsCalling k.old.call }
    ensures putc { BeginsAs result (model.device_putc dev (word % 256) k.old.call.state) k.old.call.state (came_to k.new.call (next_of result)) }
    ensures image { k.new.image ≡ k.old.image }
{
    let Some(kind) = offering(dev, Op::Putc) else {
        return REFUSED;
    };
    match kind {
        Kind::Console => Begun::ByRow(console_putc(k, (word % 256) as u8)),
        Kind::File => ask(k, FileCall::Putc(file_device(dev), (word % 256) as u8)),
        _ => REFUSED,
    }
}

/// Call 42: a device has another position.
pub(crate) fn device_seek(k: &mut KernelState, dev: u32, n: u32) -> Begun
    requires calling { IsCalling k.old.call }
    ensures seek { BeginsAs result (model.device_seek dev (signed n) k.old.call.state) k.old.call.state (came_to k.new.call (next_of result)) }
    ensures image { k.new.image ≡ k.old.image }
{
    let Some(kind) = offering(dev, Op::Seek) else {
        return REFUSED;
    };
    match kind {
        Kind::File => ask(k, FileCall::Seek(file_device(dev), signed(n))),
        _ => REFUSED,
    }
}

/// Call 43: a control function of a device, with an argument.
pub(crate) fn device_control(k: &mut KernelState, dev: u32, f: u32, x: u32) -> Begun
    requires calling { IsCalling k.old.call }
    ensures control { BeginsAs result (model.device_control dev f x k.old.call.state) k.old.call.state (came_to k.new.call (next_of result)) }
    ensures image { k.new.image ≡ k.old.image }
{
    let Some(kind) = offering(dev, Op::Control) else {
        return REFUSED;
    };
    match kind {
        Kind::Console => Begun::ByRow(console_control(k, f)),
        Kind::RawDisk => Begun::ByRow(disk_control(k, f)),
        Kind::FileSystem => system_control(k, f, x),
        Kind::File => file_control(k, file_device(dev), f),
        Kind::NameSpace => REFUSED,
    }
}

// What the device is that a word names, if there is one and it offers this call.
fn offering(word: u32, op: Op) -> Option<Kind>
    ensures offered { (does : Kind → Xinu → CallResult) (s : Xinu) → model.on_device op word does s ≡ by_kind result does s }
    ensures known { IfSome result (λ kind. table.kind_of word ≡ Some kind) }
{
    match device(word) {
        Ok(dev) if offers(dev, op) => Some(kind_of(dev)),
        _ => None,
    }
}

// Which of the file devices a word names.
fn file_device(word: u32) -> FileDev
    requires file { table.kind_of word ≡ Some Kind.File }
    ensures number { result ≡ model.file_number word }
{
    FileDev::at((word - LFILE0) as usize)
}
