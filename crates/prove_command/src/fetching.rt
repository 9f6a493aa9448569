//! The files of images, which are fetched and loaded.

ghost use Rattle.std.specs.Prelude.{◌≡◌, ◌∷◌, ◌≤◌, [], IfErr, IfOk, Some, length, map, option_map};
ghost use Rattle.std.specs.String.{string_bytes};
ghost use Rattle.elf_loader.specs.LoadedFiles.{loads};
ghost use Rattle.image_loader.specs.Images.{loaded_of};
ghost use Rattle.prove_command.specs.Named.{AreFetched, AreLoaded, IsFrom};
ghost use Rattle.prove_command.specs.Theorem.{IsImageFault};
ghost use Rattle.run_inputs.specs.Fetching.{FetchesFiles, IsOfHost, refusal_of};
ghost use Rattle.run_inputs.specs.InputFaults.{image_fault};
ghost use Rattle.run_inputs.specs.declared.refusals.Refusal.TheVariants as refusal;

use elf_loader::load;
use host_port::Host;
use image_loader::Image;
use run_inputs::Refusal;
use std::alloc::Global;

/// The most bytes of an image file: 1 MiB.
const LONGEST_IMAGE: usize = 1_048_576;

/// The files of these names, fetched in order.
///
/// # Errors
/// `HostFault` if the host failed; `NoMemory`.
pub(crate) fn fetch_files<H: Host>(
    alloc: Global,
    names: &[String],
    host: &mut H,
) -> Result<Vec<Vec<u8>>, Refusal>
    ensures fetched { IfOk result (λ files. AreFetched (H.view host.old).file (map string_bytes names.now) (map (λ v. v.items) files.items)) }
    ensures cause { IfErr result IsOfHost }
    ensures fetches { FetchesFiles (map string_bytes names.now) (refusal_of result) (H.view host.old) (H.view host.new) }
{
    let mut files = Vec::new(alloc);
    for name in names {
        let file = match fetch_file(alloc, name.as_str(), host) {
            Ok(file) => file,
            Err(cause) => return Err(cause),
        };
        match files.push(file) {
            Ok(()) => {}
            Err(_) => return Err(Refusal::NoMemory),
        }
    }
    Ok(files)
}

// The bytes of a file, up to one more than an image may have.
fn fetch_file<H: Host>(alloc: Global, name: &str, host: &mut H) -> Result<Vec<u8>, Refusal>
    ensures bytes { IfOk result (λ v. IsFrom ((H.view host.old).file name.now) v.items) }
    ensures cause { IfErr result IsOfHost }
    ensures fetches { FetchesFiles (name.now ∷ []) (refusal_of result) (H.view host.old) (H.view host.new) }
{
    match host.fetch(alloc, name, LONGEST_IMAGE) {
        Ok(bytes) => Ok(bytes),
        Err(fault) => Err(Refusal::from(fault)),
    }
}

/// The images in these files.
///
/// # Errors
/// The first that isn't an image; `NoMemory`.
pub(crate) fn images_in<'a>(alloc: Global, files: &'a [Vec<u8>]) -> Result<Vec<Image<'a>>, Refusal>
    requires few { length files.now ≤ 8 }
    ensures loaded { IfOk result (λ v. AreLoaded (map (λ file. file.items) files.now) (map loaded_of v.items)) }
    ensures refused { IfErr result (IsImageFault (map (λ file. file.items) files.now)) }
{
    let mut images = Vec::new(alloc);
    for i in 0..files.len() {
        let image = match image_in(files[i].as_slice(), i as u8 + 1) {
            Ok(image) => image,
            Err(cause) => return Err(cause),
        };
        match images.push(image) {
            Ok(()) => {}
            Err(_) => return Err(Refusal::NoMemory),
        }
    }
    Ok(images)
}

// The image in a file, which has this number.
fn image_in<'a>(file: &'a [u8], number: u8) -> Result<Image<'a>, Refusal>
    ensures loads { IfOk result (λ image. loads file.now ≡ Some (loaded_of image)) }
    ensures judged { refusal_of result ≡ option_map (refusal.Image number) (image_fault file.now) }
{
    if file.len() > LONGEST_IMAGE {
        return Err(Refusal::Image {
            image: number,
            fault: 0,
        });
    }
    match load(file) {
        Ok(image) => Ok(image),
        Err(fault) => Err(Refusal::Image {
            image: number,
            fault: fault.number(),
        }),
    }
}
