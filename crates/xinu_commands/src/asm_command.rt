//! The command `asm`: its source is fetched and assembled, and the file is written.

ghost use Rattle.std.specs.Prelude.{◌≡◌, ◌∷◌, [], true, Some, None, is_some, IfOk};
ghost use Rattle.command_line.specs.Commands.{Asm};
ghost use Rattle.command_line.specs.Names.{asm_names};
ghost use Rattle.host_port.specs.Outside.{naming};
ghost use Rattle.host_port.specs.declared.host.Channel.TheVariants as channel;
ghost use Rattle.image_loader.specs.ImageFiles.{image_in};
ghost use Rattle.xinu_commands.specs.AsmVerdict as verdict;
ghost use Rattle.xinu_commands.specs.AsmVerdict.{as_elf, asm_verdict, written_file};
ghost use Rattle.run_inputs.specs.Fetching.{refusal_of};
ghost use Rattle.xinu_commands.specs.Stages.{Performs, SendsOutput, Stage, no_fetches, output_on};

use crate::fetching::fetch_file;
use crate::sending::send_file;
use command_line::AsmFiles;
use elf_loader::write_elf;
use host_port::{Channel, Host};
use image_loader::read_image;
use run_inputs::Refusal;
use rv_asm::{AsmFault, assemble};
use std::alloc::Global;
use xinu_base::NoMemory;

/// The most bytes of a source: 1 MiB.
const LONGEST_SOURCE: usize = 1_048_576;

/// Assembles a source, and writes the image file or the ELF file.
///
/// # Errors
/// The refusal that the source deserves; `HostFault` if the host failed; `NoMemory`.
pub(crate) fn assemble_file<H: Host>(
    alloc: Global,
    files: &AsmFiles<'_>,
    host: &mut H,
) -> Result<(), Refusal>
    ensures performs { Performs (Some (Asm (asm_names files.now))) (refusal_of result) None (H.view host.old) (H.view host.new) }
{
    let source = fetch_file(alloc, files.source, LONGEST_SOURCE, host)?;
    assemble_text(alloc, source.as_slice(), files.elf, files.out, host)
}

// Assembles a text, and writes the file.
fn assemble_text<H: Host>(
    alloc: Global,
    source: &[u8],
    elf: bool,
    out: &str,
    host: &mut H,
) -> Result<(), Refusal>
    ensures stage { Stage (asm_verdict elf source.now) no_fetches (naming channel.Image out.now ∷ []) (refusal_of result) None (H.view host.old) (H.view host.new) }
{
    if source.len() > LONGEST_SOURCE {
        return Err(Refusal::Asm { line: 0, fault: 3 });
    }
    match assemble(alloc, source) {
        Ok(file) => write_file(alloc, file.as_slice(), elf, out, host),
        Err(fault) => Err(asm_refusal(fault)),
    }
}

// The refusal of a text with a fault.
fn asm_refusal(fault: AsmFault) -> Refusal
    ensures refusal { result ≡ verdict.asm_refusal fault }
{
    match fault {
        AsmFault::BadLine(line) => Refusal::Asm { line, fault: 1 },
        AsmFault::UnknownName(line) => Refusal::Asm { line, fault: 2 },
        AsmFault::OutOfRange(line) => Refusal::Asm { line, fault: 3 },
        AsmFault::DoubleLabel(line) => Refusal::Asm { line, fault: 4 },
        AsmFault::NoMemory => Refusal::NoMemory,
    }
}

// Writes an image file, as it is or as an ELF file.
fn write_file<H: Host>(
    alloc: Global,
    file: &[u8],
    elf: bool,
    out: &str,
    host: &mut H,
) -> Result<(), Refusal>
    requires loads { is_some (image_in file.now) ≡ true }
    ensures sends { SendsOutput (output_on channel.Image (written_file elf file.now)) (naming channel.Image out.now ∷ []) (refusal_of result) (H.view host.old) (H.view host.new) }
{
    if elf {
        let file = elf_file(alloc, file)?;
        send_file(host, Channel::Image, out, file.as_slice())
    } else {
        send_file(host, Channel::Image, out, file)
    }
}

// The ELF file with the image of an image file.
fn elf_file(alloc: Global, file: &[u8]) -> Result<Vec<u8>, NoMemory>
    requires loads { is_some (image_in file.now) ≡ true }
    ensures elf { IfOk result (λ v. v.items ≡ as_elf file.now) }
{
    match read_image(file) {
        Ok(image) => write_elf(alloc, &image),
        Err(_) => unreachable!(),
    }
}
