//! What is sent besides a transcript: lines on Out, and files.

ghost use Rattle.std.specs.Prelude.{◌≡◌, ◌≢◌, ◌∷◌, [], Some, None, is_some, option_map, if◌then◌else◌};
ghost use Rattle.command_line.specs.Names.{disk_names};
ghost use Rattle.host_port.specs.Outside.{naming};
ghost use Rattle.host_port.specs.Printing.{Prints};
ghost use Rattle.lfs_layout.specs.Images.{IsCleanImage};
ghost use Rattle.xinu_commands.specs.Calls.{if_written};
ghost use Rattle.run_inputs.specs.Conversions.{host_refusal};
ghost use Rattle.xinu_commands.specs.DiskVerdict.{file_lines};
ghost use Rattle.run_inputs.specs.Fetching.{refusal_of};
ghost use Rattle.xinu_commands.specs.Stages.{SendsDisks, SendsOutput, disks_output, left_by, line_at, output_on};
ghost use Rattle.xinu_commands.specs.Work.{output_of};

use crate::disk_lines::file_line;
use command_line::DiskFiles;
use host_port::{Channel, Host, Line, Printer};
use lfs_layout::CleanImage;
use machine::Machine;
use run_inputs::Refusal;

/// The most files of a disk.
const MOST_FILES: usize = 78;

/// Writes a file: names it for a channel, `Disk0`, `Disk1` or `Image`, and sends its bytes there.
///
/// # Errors
/// `HostFault` if the host failed; `NoMemory`.
pub(crate) fn send_file<H: Host>(
    host: &mut H,
    channel: Channel,
    name: &str,
    bytes: &[u8],
) -> Result<(), Refusal>
    requires not_out { channel ≢ Channel.Out }
    requires not_fault { channel ≢ Channel.Fault }
    ensures sends { SendsOutput (output_on channel bytes.now) (naming channel name.now ∷ []) (refusal_of result) (H.view host.old) (H.view host.new) }
{
    match host.name_out(channel, name) {
        Ok(()) => {}
        Err(fault) => return Err(Refusal::from(fault)),
    }
    match host.emit(channel, bytes) {
        Ok(()) => Ok(()),
        Err(fault) => Err(Refusal::from(fault)),
    }
}

/// Writes the disks of a machine, the raw one first, each if a file is named for it.
///
/// # Errors
/// `HostFault` if the host failed; `NoMemory`.
pub(crate) fn send_disks<H: Host>(
    machine: &Machine,
    disks: DiskFiles<'_>,
    host: &mut H,
) -> Result<(), Refusal>
    ensures sends { SendsDisks (disk_names disks.entry) (left_by machine.now) (refusal_of result) (H.view host.old) (H.view host.new) }
{
    let disk1 = machine.disk(1);
    send_disk(host, Channel::Disk0, disks.out0, machine.disk(0))?;
    send_disk(host, Channel::Disk1, disks.out1, disk1)
}

// Writes a disk, if a file is named for it.
fn send_disk<H: Host>(
    host: &mut H,
    channel: Channel,
    name: Option<&str>,
    bytes: &[u8],
) -> Result<(), Refusal>
    requires not_out { channel ≢ Channel.Out }
    requires not_fault { channel ≢ Channel.Fault }
    ensures sends { SendsOutput (if is_some (option_map (λ s. s.now) name.entry) then output_on channel bytes.now else disks_output None None) (if_written channel (option_map (λ s. s.now) name.entry)) (refusal_of result) (H.view host.old) (H.view host.new) }
{
    match name {
        Some(name) => send_file(host, channel, name, bytes),
        None => Ok(()),
    }
}

/// Sends a text on Out.
///
/// # Errors
/// `HostFault` if the host failed; `NoMemory`.
pub(crate) fn print_text<H: Host>(host: &mut H, text: &[u8]) -> Result<(), Refusal>
    ensures sends { SendsOutput (output_of text.now None None) [] (refusal_of result) (H.view host.old) (H.view host.new) }
{
    match host.emit(Channel::Out, text) {
        Ok(()) => Ok(()),
        Err(fault) => Err(Refusal::from(fault)),
    }
}

/// Prints a line.
///
/// # Errors
/// `HostFault` if the host failed; `NoMemory`.
pub(crate) fn print_line<H: Host>(host: &mut H, line: &Line) -> Result<(), Refusal>
    ensures sends { SendsOutput (output_of line.now None None) [] (refusal_of result) (H.view host.old) (H.view host.new) }
{
    let mut out = Printer::new(false);
    out.line(host, line);
    printed(&out)
}

/// Prints a line for each file of a disk.
///
/// # Errors
/// `HostFault` if the host failed; `NoMemory`.
pub(crate) fn print_files<H: Host>(host: &mut H, image: &CleanImage) -> Result<(), Refusal>
    requires clean { IsCleanImage image.now }
    ensures sends { SendsOutput (output_of (file_lines image.now) None None) [] (refusal_of result) (H.view host.old) (H.view host.new) }
{
    let mut out = Printer::new(false);
    for k in 0..MOST_FILES {
        print_file(&mut out, host, image, k);
    }
    printed(&out)
}

// Prints the line of the file at a place in the order of names, if there is one.
fn print_file<H: Host>(out: &mut Printer, host: &mut H, image: &CleanImage, k: usize)
    ensures prints { Prints out.old out.new (H.view host.old) (H.view host.new) (if out.old.plain then [] else line_at k image.now) }
{
    match image.file_at(k) {
        Some((name, size)) => out.line(host, &file_line(name.as_slice(), size)),
        None => {}
    }
}

// Whether all that was printed was sent.
fn printed(out: &Printer) -> Result<(), Refusal>
    ensures refused { refusal_of result ≡ option_map host_refusal out.now.failure }
{
    match out.failed() {
        None => Ok(()),
        Some(fault) => Err(Refusal::from(fault)),
    }
}
