//! The calls on devices: each goes to the device that its first argument names, if that offers it (book, chapter 14). Calls on the file
//! system and on files are judged by their arguments here, and by the files as they take effect.

ghost use Rattle.std.specs.Prelude.{◌≡◌, ◌%◌, IfOk, is_ok, option_map, true};
ghost use Rattle.reference_state.specs.Answers.{IsStart};
ghost use Rattle.reference_state.specs.FileCalls.{file_call_of};
ghost use Rattle.reference_switch.specs.Outcomes.{comes_to, LeavesFiles};
ghost use Rattle.xinu_model.specs.Devices.Calls as model;
ghost use Rattle.xinu_model.specs.Files.Syscalls.{asks_files};
ghost use Rattle.xinu_model.specs.Machine.{refused};
ghost use Rattle.xinu_model.specs.Names.Calls.{names_of};
ghost use Rattle.xinu_model.specs.Names.Mapping.{map_name};
ghost use Rattle.xinu_model.specs.Sound.State.{IsSound};
ghost use Rattle.xinu_model.specs.Words.{signed};

use crate::file_calls::{file_control_call, open_call, read_call, system_control_call, write_call};
use crate::outcomes::DeviceOutcome;
use crate::table::kind_for;
use reference_devices::console_reads::{console_getc, console_read};
use reference_devices::console_signals::console_control;
use reference_devices::console_writes::{console_putc, console_write};
use reference_devices::disk::{disk_control, disk_read, disk_write};
use reference_devices::names::{MappedName, map_name};
use reference_devices::texts::text_at;
use reference_state::{Answer, Bytes, FileCall, Machine};
use xinu_base::{DISK0, Kind, LFILE0, NoMemory, Op, SYSERR};

/// Call 36: a device is opened, with the texts at two addresses as a name and a mode; both have to be there, whatever the device is.
pub fn device_open(m: &Machine, dev: u32, name: u32, mode: u32) -> Result<DeviceOutcome, NoMemory>
    requires start { IsStart m.now }
    ensures opens { IfOk result (λ r. comes_to m.now r ≡ model.device_open dev name mode m.now.state) }
{
    match kind_for(Op::Open, dev) {
        None => Ok(refuse(m)),
        Some(kind) => open_texts(m, name, mode, kind),
    }
}

// `open` by what the device is, with the texts at two addresses.
fn open_texts(m: &Machine, name: u32, mode: u32, kind: Kind) -> Result<DeviceOutcome, NoMemory>
    requires start { IsStart m.now }
    ensures opens { IfOk result (λ r. comes_to m.now r ≡ model.open_texts name mode kind m.now.state) }
{
    let Some(name) = text_at(m, name)? else {
        return Ok(refuse(m));
    };
    let Some(mode) = text_at(m, mode)? else {
        return Ok(refuse(m));
    };
    open_as(m, kind, name, &mode.bytes)
}

// The same with the texts; the name space opens what the name is mapped to.
fn open_as(m: &Machine, kind: Kind, name: Bytes, mode: &[u8]) -> Result<DeviceOutcome, NoMemory>
    requires start { IsStart m.now }
    ensures opens { IfOk result (λ r. comes_to m.now r ≡ model.open_as kind name mode.now m.now.state) }
{
    match kind {
        Kind::NameSpace => open_mapped(m, name, mode),
        _ => Ok(open_direct(m, kind, name, mode)),
    }
}

// `open` of what a name is mapped to.
fn open_mapped(m: &Machine, name: Bytes, mode: &[u8]) -> Result<DeviceOutcome, NoMemory>
    requires start { IsStart m.now }
    ensures opens { IfOk result (λ r. comes_to m.now r ≡
        model.open_mapped (map_name (names_of m.now.state) name) mode.now m.now.state) }
{
    let target = mapped_name(m, name)?;
    Ok(open_target(m, target, mode))
}

// `open` of a name and its device, if a name was mapped.
fn open_target(m: &Machine, target: Option<MappedName>, mode: &[u8]) -> DeviceOutcome
    requires start { IsStart m.now }
    ensures opens { comes_to m.now result ≡ model.open_mapped target mode.now m.now.state }
{
    match target {
        None => refuse(m),
        Some(MappedName { device, name }) => {
            let dev = device.index() as u32;
            open_named(m, dev, Bytes { bytes: name }, mode)
        }
    }
}

// What a name is mapped to.
fn mapped_name(m: &Machine, name: Bytes) -> Result<Option<MappedName>, NoMemory>
    ensures mapped { IfOk result (λ r. r ≡ map_name (names_of m.now.state) name) }
{
    map_name(&m.names, name.bytes)
}

// `open` of a device by its number, with the texts of a name and a mode.
fn open_named(m: &Machine, dev: u32, name: Bytes, mode: &[u8]) -> DeviceOutcome
    requires start { IsStart m.now }
    ensures opens { comes_to m.now result ≡ model.on_device Op.Open dev (model.open_direct name mode.now) m.now.state }
{
    match kind_for(Op::Open, dev) {
        None => refuse(m),
        Some(kind) => open_direct(m, kind, name, mode),
    }
}

// `open` of a device that isn't the name space, with the texts of a name and a mode.
fn open_direct(m: &Machine, kind: Kind, name: Bytes, mode: &[u8]) -> DeviceOutcome
    requires start { IsStart m.now }
    ensures opens { comes_to m.now result ≡ model.open_direct name mode.now kind m.now.state }
{
    match kind {
        Kind::Console => DeviceOutcome::Done(Answer::Returns(0)),
        Kind::RawDisk => DeviceOutcome::Done(Answer::Returns(DISK0)),
        Kind::FileSystem => ask(m, open_call(name, mode), 0),
        Kind::NameSpace => refuse(m),
        Kind::File => refuse(m),
    }
}

/// Call 37: a device is closed.
pub fn device_close(m: &Machine, dev: u32) -> Result<DeviceOutcome, NoMemory>
    requires start { IsStart m.now }
    ensures close { IfOk result (λ r. comes_to m.now r ≡ model.device_close dev m.now.state) }
    ensures answers { is_ok result ≡ true }
{
    match kind_for(Op::Close, dev) {
        None => Ok(refuse(m)),
        Some(kind) => Ok(close_as(m, dev, kind)),
    }
}

// `close` by what the device is.
fn close_as(m: &Machine, dev: u32, kind: Kind) -> DeviceOutcome
    requires start { IsStart m.now }
    ensures close { comes_to m.now result ≡ model.close_as dev kind m.now.state }
{
    match kind {
        Kind::Console => DeviceOutcome::Done(Answer::Returns(0)),
        Kind::RawDisk => DeviceOutcome::Done(Answer::Returns(0)),
        Kind::File => DeviceOutcome::Asks(FileCall::Close(file_number(dev)), 0),
        Kind::NameSpace => refuse(m),
        Kind::FileSystem => refuse(m),
    }
}

/// Call 38: a device is read, to an address; the last argument is a signed number of bytes, of the raw disk the number of a block.
pub fn device_read(m: &mut Machine, dev: u32, at: u32, n: u32) -> Result<DeviceOutcome, NoMemory>
    requires start { IsStart m.old }
    requires sound { IsSound m.old.state }
    ensures read { IfOk result (λ r. comes_to m.new r ≡ model.device_read dev at n m.old.state) }
    ensures files { IfOk result (λ r. LeavesFiles m.old r m.new) }
{
    match kind_for(Op::Read, dev) {
        None => Ok(refuse(m)),
        Some(kind) => read_as(m, dev, at, n, kind),
    }
}

// `read` by what the device is.
fn read_as(
    m: &mut Machine,
    dev: u32,
    at: u32,
    n: u32,
    kind: Kind,
) -> Result<DeviceOutcome, NoMemory>
    requires start { IsStart m.old }
    requires sound { IsSound m.old.state }
    ensures read { IfOk result (λ r. comes_to m.new r ≡ model.read_as dev at n kind m.old.state) }
    ensures files { IfOk result (λ r. LeavesFiles m.old r m.new) }
{
    match kind {
        Kind::Console => Ok(DeviceOutcome::Done(console_read(m, at, n.cast_signed())?)),
        Kind::RawDisk => Ok(DeviceOutcome::Done(disk_read(m, at, n)?)),
        Kind::File => Ok(ask(m, read_call(file_number(dev), at, n.cast_signed()), at)),
        Kind::NameSpace => Ok(refuse(m)),
        Kind::FileSystem => Ok(refuse(m)),
    }
}

/// Call 39: a device is written, from an address; the last argument is as that of `read`.
pub fn device_write(m: &mut Machine, dev: u32, at: u32, n: u32) -> Result<DeviceOutcome, NoMemory>
    requires start { IsStart m.old }
    requires sound { IsSound m.old.state }
    ensures write { IfOk result (λ r. comes_to m.new r ≡ model.device_write dev at n m.old.state) }
    ensures files { IfOk result (λ r. LeavesFiles m.old r m.new) }
{
    match kind_for(Op::Write, dev) {
        None => Ok(refuse(m)),
        Some(kind) => write_as(m, dev, at, n, kind),
    }
}

// `write` by what the device is.
fn write_as(
    m: &mut Machine,
    dev: u32,
    at: u32,
    n: u32,
    kind: Kind,
) -> Result<DeviceOutcome, NoMemory>
    requires start { IsStart m.old }
    requires sound { IsSound m.old.state }
    ensures write { IfOk result (λ r. comes_to m.new r ≡ model.write_as dev at n kind m.old.state) }
    ensures files { IfOk result (λ r. LeavesFiles m.old r m.new) }
{
    match kind {
        Kind::Console => Ok(DeviceOutcome::Done(console_write(m, at, n.cast_signed())?)),
        Kind::RawDisk => Ok(DeviceOutcome::Done(disk_write(m, at, n)?)),
        Kind::File => Ok(ask(m, write_call(file_number(dev), at, n.cast_signed()), at)),
        Kind::NameSpace => Ok(refuse(m)),
        Kind::FileSystem => Ok(refuse(m)),
    }
}

/// Call 40: a character is read from a device.
pub fn device_getc(m: &mut Machine, dev: u32) -> Result<DeviceOutcome, NoMemory>
    requires start { IsStart m.old }
    requires sound { IsSound m.old.state }
    ensures getc { IfOk result (λ r. comes_to m.new r ≡ model.device_getc dev m.old.state) }
    ensures files { IfOk result (λ r. LeavesFiles m.old r m.new) }
{
    match kind_for(Op::Getc, dev) {
        None => Ok(refuse(m)),
        Some(kind) => getc_as(m, dev, kind),
    }
}

// `getc` by what the device is.
fn getc_as(m: &mut Machine, dev: u32, kind: Kind) -> Result<DeviceOutcome, NoMemory>
    requires start { IsStart m.old }
    requires sound { IsSound m.old.state }
    ensures getc { IfOk result (λ r. comes_to m.new r ≡ model.getc_as dev kind m.old.state) }
    ensures files { IfOk result (λ r. LeavesFiles m.old r m.new) }
{
    match kind {
        Kind::Console => Ok(DeviceOutcome::Done(console_getc(m)?)),
        Kind::File => Ok(DeviceOutcome::Asks(FileCall::Getc(file_number(dev)), 0)),
        Kind::NameSpace => Ok(refuse(m)),
        Kind::RawDisk => Ok(refuse(m)),
        Kind::FileSystem => Ok(refuse(m)),
    }
}

/// Call 41: a character, the lowest byte of a word, is written to a device.
pub fn device_putc(m: &mut Machine, dev: u32, word: u32) -> Result<DeviceOutcome, NoMemory>
    requires start { IsStart m.old }
    requires sound { IsSound m.old.state }
    ensures putc { IfOk result (λ r. comes_to m.new r ≡ model.device_putc dev (word % 256) m.old.state) }
    ensures files { IfOk result (λ r. LeavesFiles m.old r m.new) }
{
    match kind_for(Op::Putc, dev) {
        None => Ok(refuse(m)),
        Some(kind) => putc_as(m, dev, (word % 256) as u8, kind),
    }
}

// `putc` by what the device is.
fn putc_as(m: &mut Machine, dev: u32, b: u8, kind: Kind) -> Result<DeviceOutcome, NoMemory>
    requires start { IsStart m.old }
    requires sound { IsSound m.old.state }
    ensures putc { IfOk result (λ r. comes_to m.new r ≡ model.putc_as dev b kind m.old.state) }
    ensures files { IfOk result (λ r. LeavesFiles m.old r m.new) }
{
    match kind {
        Kind::Console => Ok(DeviceOutcome::Done(console_putc(m, b)?)),
        Kind::File => Ok(DeviceOutcome::Asks(FileCall::Putc(file_number(dev), b), 0)),
        Kind::NameSpace => Ok(refuse(m)),
        Kind::RawDisk => Ok(refuse(m)),
        Kind::FileSystem => Ok(refuse(m)),
    }
}

/// Call 42: a device has another position, a signed number.
pub fn device_seek(m: &Machine, dev: u32, word: u32) -> Result<DeviceOutcome, NoMemory>
    requires start { IsStart m.now }
    ensures seek { IfOk result (λ r. comes_to m.now r ≡ model.device_seek dev (signed word) m.now.state) }
    ensures answers { is_ok result ≡ true }
{
    match kind_for(Op::Seek, dev) {
        None => Ok(refuse(m)),
        Some(kind) => Ok(seek_as(m, dev, word.cast_signed(), kind)),
    }
}

// `seek` by what the device is.
fn seek_as(m: &Machine, dev: u32, n: i32, kind: Kind) -> DeviceOutcome
    requires start { IsStart m.now }
    ensures seek { comes_to m.now result ≡ model.seek_as dev n kind m.now.state }
{
    match kind {
        Kind::File => DeviceOutcome::Asks(FileCall::Seek(file_number(dev), n), 0),
        Kind::Console => refuse(m),
        Kind::NameSpace => refuse(m),
        Kind::RawDisk => refuse(m),
        Kind::FileSystem => refuse(m),
    }
}

/// Call 43: a control function of a device, with its argument.
pub fn device_control(m: &mut Machine, dev: u32, f: u32, x: u32) -> Result<DeviceOutcome, NoMemory>
    requires start { IsStart m.old }
    requires sound { IsSound m.old.state }
    ensures control { IfOk result (λ r. comes_to m.new r ≡ model.device_control dev f x m.old.state) }
    ensures files { IfOk result (λ r. LeavesFiles m.old r m.new) }
{
    match kind_for(Op::Control, dev) {
        None => Ok(refuse(m)),
        Some(kind) => control_as(m, dev, f, x, kind),
    }
}

// `control` by what the device is.
fn control_as(
    m: &mut Machine,
    dev: u32,
    f: u32,
    x: u32,
    kind: Kind,
) -> Result<DeviceOutcome, NoMemory>
    requires start { IsStart m.old }
    requires sound { IsSound m.old.state }
    ensures control { IfOk result (λ r. comes_to m.new r ≡ model.control_as dev f x kind m.old.state) }
    ensures files { IfOk result (λ r. LeavesFiles m.old r m.new) }
{
    match kind {
        Kind::Console => Ok(DeviceOutcome::Done(console_control(m, f)?)),
        Kind::RawDisk => Ok(DeviceOutcome::Done(disk_control(m, f))),
        Kind::FileSystem => control_system(m, dev, f, x),
        Kind::File => Ok(ask(m, file_control_call(file_number(dev), f), 0)),
        Kind::NameSpace => Ok(refuse(m)),
    }
}

// `control` of the file system, if the text at its argument is there.
fn control_system(m: &Machine, dev: u32, f: u32, x: u32) -> Result<DeviceOutcome, NoMemory>
    requires start { IsStart m.now }
    ensures control { IfOk result (λ r. comes_to m.now r ≡ model.control_as dev f x Kind.FileSystem m.now.state) }
{
    match text_at(m, x)? {
        Some(name) => Ok(ask(m, system_control_call(f, name), 0)),
        None => Ok(refuse(m)),
    }
}

// Which of the file devices has a number.
fn file_number(dev: u32) -> u32
    ensures number { result ≡ model.file_number dev }
{
    dev.saturating_sub(LFILE0)
}

// The call is refused.
fn refuse(m: &Machine) -> DeviceOutcome
    requires start { IsStart m.now }
    ensures refused { comes_to m.now result ≡ refused m.now.state }
{
    DeviceOutcome::Done(Answer::Returns(SYSERR))
}

// The files are asked for a call; refused if its arguments say none.
fn ask(m: &Machine, call: Option<FileCall>, at: u32) -> DeviceOutcome
    requires start { IsStart m.now }
    ensures asks { comes_to m.now result ≡ asks_files (option_map file_call_of call) at m.now.state }
{
    match call {
        Some(call) => DeviceOutcome::Asks(call, at),
        None => refuse(m),
    }
}
