//! The refusals of a command, each with its status and its text.

ghost use Rattle.std.specs.Prelude.{◌≡◌, ◌<◌, ◌≤◌, ◌++◌, length, codes};
ghost use Rattle.std.specs.Fmt.{decimal};
ghost use Rattle.run_inputs.specs.Refusals.{TellsRefusal, status_of, text_of};
ghost use Rattle.run_inputs.specs.declared.refusals.Refusal.TheVariants as refusal;

use command_line::ArgsFault;
use host_port::{Channel, Host, HostFault, Line};
use kernel_boot::BootFault;
use lfs_layout::CheckFault;
use schedule_file::ScheduleFault;
use xinu_base::NoMemory;

/// Why a command wasn't carried out.
#[derive(Clone, Copy, PartialEq, Eq)]
pub enum Refusal {
    /// The arguments give no command.
    Usage,
    /// The host failed.
    HostFault,
    /// The image file with this number, counted from 1, has this fault: 1 to 7, or from 11 on for an ELF file, as the readers of
    /// images number them, or 0 if the file is too long.
    Image { image: u8, fault: u8 },
    /// The schedule file has a fault at this line, counted from 1; it is too long if this is 0.
    Schedule(u32),
    /// The disk with this number breaks this rule at this block; 1 is the disk with files.
    Disk { disk: u8, block: u32, rule: u8 },
    /// The image with this number, counted from 1, overlaps an earlier one.
    Overlap(u8),
    /// The heap has no room for the stack of the image with this number, counted from 1.
    NoRoom(u8),
    /// The source has a fault at this line, counted from 1: 1 if the line has no form of the language, 2 if a name isn't known, 3 if a
    /// number is out of range, 4 if a label is there twice. At line 0, 1 is too little content and 3 a source that is too long.
    Asm { line: u32, fault: u8 },
    /// The trace is too long.
    TraceTooLong,
    /// The disk has no file of the name.
    NoSuchFile,
    /// The disk has no room for the file.
    DoesNotFit,
    /// Memory ran out.
    NoMemory,
}

impl From<ArgsFault> for Refusal {
    ghost use Rattle.std.specs.Prelude.{◌≡◌};
    ghost use Rattle.run_inputs.specs.Conversions.{args_refusal};

    ghost from_gives = { λ f r. r ≡ args_refusal f };

    fn from(fault: ArgsFault) -> Refusal {
        match fault {
            ArgsFault::NoCommand => Refusal::Usage,
            ArgsFault::NoMemory => Refusal::NoMemory,
        }
    }
}

impl From<HostFault> for Refusal {
    ghost use Rattle.std.specs.Prelude.{◌≡◌};
    ghost use Rattle.run_inputs.specs.Conversions.{host_refusal};

    ghost from_gives = { λ f r. r ≡ host_refusal f };

    fn from(fault: HostFault) -> Refusal {
        match fault {
            HostFault::Failed => Refusal::HostFault,
            HostFault::NoMemory => Refusal::NoMemory,
        }
    }
}

impl From<ScheduleFault> for Refusal {
    ghost use Rattle.std.specs.Prelude.{◌≡◌};
    ghost use Rattle.run_inputs.specs.Conversions.{schedule_refusal};

    ghost from_gives = { λ f r. r ≡ schedule_refusal f };

    fn from(fault: ScheduleFault) -> Refusal {
        match fault {
            ScheduleFault::BadLine(line) | ScheduleFault::TooMany(line) => Refusal::Schedule(line),
            ScheduleFault::NoMemory => Refusal::NoMemory,
        }
    }
}

impl From<BootFault> for Refusal {
    ghost use Rattle.std.specs.Prelude.{◌≡◌};
    ghost use Rattle.run_inputs.specs.Conversions.{boot_refusal};

    ghost from_gives = { λ f r. r ≡ boot_refusal f };

    fn from(fault: BootFault) -> Refusal {
        match fault {
            BootFault::Overlap(image) => Refusal::Overlap(image),
            BootFault::NoRoom(image) => Refusal::NoRoom(image),
            BootFault::NoMemory => Refusal::NoMemory,
        }
    }
}

impl From<CheckFault> for Refusal {
    ghost use Rattle.std.specs.Prelude.{◌≡◌};
    ghost use Rattle.run_inputs.specs.Conversions.{check_refusal};

    ghost from_gives = { λ f r. r ≡ check_refusal f };

    fn from(fault: CheckFault) -> Refusal {
        match fault {
            CheckFault::Broken(fault) => Refusal::Disk {
                disk: 1,
                block: fault.block,
                rule: fault.rule,
            },
            CheckFault::NoMemory => Refusal::NoMemory,
        }
    }
}

impl From<NoMemory> for Refusal {
    ghost use Rattle.std.specs.Prelude.{◌≡◌};
    ghost use Rattle.run_inputs.specs.declared.refusals.Refusal.TheVariants.{NoMemory};

    ghost from_gives = { λ _ r. r ≡ NoMemory };

    fn from(_e: NoMemory) -> Refusal {
        Refusal::NoMemory
    }
}

/// Sends the text of a refusal, and answers its exit status, or 7 if memory runs out meanwhile. A host that fails is ignored here.
pub fn refuse<H: Host>(refusal: Refusal, host: &mut H) -> u8
    ensures { TellsRefusal refusal result (H.view host.old) (H.view host.new) }
{
    let line = line_of(refusal);
    match host.emit(Channel::Fault, line.bytes()) {
        Err(HostFault::NoMemory) => 7,
        Ok(()) | Err(HostFault::Failed) => status(refusal),
    }
}

fn status(refusal: Refusal) -> u8
    ensures { result ≡ status_of refusal }
{
    match refusal {
        Refusal::Usage => 2,
        Refusal::HostFault => 3,
        Refusal::Image { .. } => 4,
        Refusal::Schedule(_) => 5,
        Refusal::Disk { .. } => 6,
        Refusal::NoMemory => 7,
        Refusal::Overlap(_) | Refusal::NoRoom(_) => 8,
        Refusal::Asm { .. } => 9,
        Refusal::TraceTooLong => 11,
        Refusal::NoSuchFile => 12,
        Refusal::DoesNotFit => 13,
    }
}

// The text of a refusal, as a line.
fn line_of(refusal: Refusal) -> Line
    ensures text { result ≡ text_of refusal }
{
    match refusal {
        Refusal::Usage => text_line("xinu: usage"),
        Refusal::HostFault => text_line("xinu: host fault"),
        Refusal::Image { image, fault } => image_line(image, fault),
        Refusal::Schedule(number) => number_line("xinu: schedule line", number),
        Refusal::Disk { disk, block, rule } => disk_line(disk, block, rule),
        Refusal::NoMemory => text_line("xinu: no memory"),
        Refusal::Overlap(image) => overlap_line(image),
        Refusal::NoRoom(image) => number_line("xinu: no room for image", image as u32),
        Refusal::Asm { line, fault } => asm_line(line, fault),
        Refusal::TraceTooLong => text_line("xinu: trace too long"),
        Refusal::NoSuchFile => text_line("xinu: no such file"),
        Refusal::DoesNotFit => text_line("xinu: does not fit"),
    }
}

fn text_line(text: &str) -> Line
    requires { length text.now ≤ 40 }
    ensures { result ≡ text.now ++ codes "\n" }
{
    let mut line = Line::new();
    line.word(text);
    line.end();
    line
}

fn number_line(text: &str, number: u32) -> Line
    requires some { 0 < length text.now }
    requires few { length text.now ≤ 40 }
    ensures { result ≡ text.now ++ codes " " ++ decimal number ++ codes "\n" }
{
    let mut line = Line::new();
    line.word(text);
    line.number(number as i64);
    line.end();
    line
}

fn image_line(image: u8, fault: u8) -> Line
    ensures { result ≡ text_of (refusal.Image image fault) }
{
    let mut line = Line::new();
    line.word("xinu: image");
    line.number(image as i64);
    line.word("fault");
    line.number(fault as i64);
    line.end();
    line
}

fn overlap_line(image: u8) -> Line
    ensures { result ≡ text_of (refusal.Overlap image) }
{
    let mut line = Line::new();
    line.word("xinu: image");
    line.number(image as i64);
    line.word("overlaps");
    line.end();
    line
}

fn asm_line(number: u32, fault: u8) -> Line
    ensures { result ≡ text_of (refusal.Asm number fault) }
{
    let mut line = Line::new();
    line.word("xinu: asm line");
    line.number(number as i64);
    line.word("fault");
    line.number(fault as i64);
    line.end();
    line
}

fn disk_line(disk: u8, block: u32, rule: u8) -> Line
    ensures { result ≡ text_of (refusal.Disk disk block rule) }
{
    let mut line = Line::new();
    line.word("xinu: disk");
    line.number(disk as i64);
    line.word("block");
    line.number(block as i64);
    line.word("rule");
    line.number(rule as i64);
    line.end();
    line
}
