//! The lines of the devices: the console, the raw disk, and the files that devices have open.

ghost use Rattle.std.specs.Prelude.{◌≡◌, ◌<◌, ◌≤◌, ◌+◌, ◌++◌, IfOk, Option, length, is_some};
ghost use Rattle.std.specs.List.{list_any};
ghost use Rattle.reference_boot.specs.Few.{AreFewFiles, IsSmallConsole};
ghost use Rattle.xinu_model.specs.Files.Rest as rest;
ghost use Rattle.xinu_model.specs.Files.Stored as stored;
ghost use Rattle.xinu_model.specs.Files.Systems as systems;
ghost use Rattle.xinu_model.specs.Text as model;

use reference_state::{Console, FileSystem, FileWork, Machine, OpenFile, StoredFile};
use reference_tables::push;
use xinu_base::{Dev, NoMemory, TranscriptLine};

/// The lines of the devices.
pub(crate) fn push_devices(lines: &mut Vec<TranscriptLine>, m: &Machine) -> Result<(), NoMemory>
    requires console { IsSmallConsole m.now.state.parts.devices.console }
    requires requests { length m.now.state.parts.devices.disk.requests ≤ 4294967295 }
    requires files { AreFewFiles m.now.state.parts.devices.files.system }
    ensures pushed { IfOk result (λ _. lines.new.items ≡ lines.old.items ++ model.device_lines m.now.state.parts.devices) }
{
    push(lines, console_line(&m.console))?;
    push(lines, TranscriptLine::Disk0(m.disk.requests.len() as u32))?;
    push_open_files(lines, &m.files.system)?;
    push(lines, TranscriptLine::Disk1(is_busy(&m.files)))?;
    Ok(())
}

// The line of the console.
fn console_line(c: &Console) -> TranscriptLine
    requires small { IsSmallConsole c.now }
    ensures line { result ≡ model.console_line c.now }
{
    TranscriptLine::Console {
        mode: c.mode,
        committed: c.committed.len() as u32,
        line: c.line.len() as u32,
        output: c.output.len() as u32,
        echo: c.echo.len() as u32,
        held: c.is_held,
    }
}

// The lines of the file devices that have a file open.
fn push_open_files(lines: &mut Vec<TranscriptLine>, s: &FileSystem) -> Result<(), NoMemory>
    requires few { AreFewFiles s.now }
    ensures pushed { IfOk result (λ _. lines.new.items ≡ lines.old.items ++ model.open_file_lines 4 s.now.devices s.now) }
{
    for (number, x) in s.devices.iter().enumerate() {
        push_open_file(lines, file_device(number), x, s)?;
    }
    Ok(())
}

// The line of a file device, if it has a file open.
fn push_open_file(
    lines: &mut Vec<TranscriptLine>,
    dev: Dev,
    x: &Option<OpenFile>,
    s: &FileSystem,
) -> Result<(), NoMemory>
    requires few { AreFewFiles s.now }
    ensures pushed { IfOk result (λ _. lines.new.items ≡ lines.old.items ++ model.open_file_line dev x.now s.now) }
{
    match x {
        None => Ok(()),
        Some(f) => push(
            lines,
            TranscriptLine::OpenFile(dev, f.position, open_size(f, s)),
        ),
    }
}

// The size of an open file; 0 if there is no file of its name.
fn open_size(f: &OpenFile, s: &FileSystem) -> u32
    requires few { AreFewFiles s.now }
    ensures size { result ≡ length (systems.open_bytes f.now s.now) }
{
    for file in &s.files {
        if is_named(&f.name, file) {
            return file.bytes.len() as u32;
        }
    }
    0
}

// Whether a file has this name.
fn is_named(name: &[u8], file: &StoredFile) -> bool
    ensures named { result ≡ stored.is_named name.now file.now }
{
    file.name.as_slice() == name
}

// Whether the file system is busy: a file is open, or a call under way.
fn is_busy(w: &FileWork) -> bool
    ensures busy { result ≡ rest.is_busy w.now }
{
    has_open(&w.system.devices) || !w.calls.is_empty()
}

// Whether a device has a file open.
fn has_open(devices: &[Option<OpenFile>]) -> bool
    ensures open { result ≡ list_any (λ (x : Option systems.OpenFile). is_some x) devices.now }
{
    for x in devices {
        if x.is_some() {
            return true;
        }
    }
    false
}

// The file device of a number from 0 to 5.
fn file_device(number: usize) -> Dev
    requires below { number < 6 }
    ensures device { result ≡ 4 + number }
{
    Dev::from_word(4 + number as u32).unwrap()
}
