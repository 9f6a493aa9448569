//! The command: its arguments are read, the images are fetched, and what is answered of them is told.

ghost use Rattle.std.specs.Prelude.{◌≡◌, ◌≤◌, IfErr, IfOk, length, map};
ghost use Rattle.std.specs.String.{string_bytes};
ghost use Rattle.image_loader.specs.Images.{loaded_of};
ghost use Rattle.prove_command.specs.Proved.{IsProved};
ghost use Rattle.proof_words.specs.Reading.{asked_of};
ghost use Rattle.prove_command.specs.Theorem as spec;
ghost use Rattle.proof_words.specs.Words.{asked};
ghost use Rattle.xinu_model.specs.Boot as model;
ghost use Rattle.xinu_model.specs.Boot.{Boots};
ghost use Rattle.xinu_model.specs.Machine.{Xinu};

use crate::causes::Fault;
use crate::fetching::{fetch_files, images_in};
use crate::proving::{Answer, prove_images};
use crate::sending::send;
use crate::telling::{tell_fault, tell_proof, tell_unchecked};
use host_port::Host;
use image_loader::Image;
use printed_runs::Text;
use program_logic::Lock;
use proof_words::{Words, words_of};
use run_inputs::{Refusal, refuse};
use std::alloc::Global;

/// The status if a rule is broken on some way.
const NOT_PROVED: u8 = 10;
/// The status if something isn't covered.
const NOT_FOLLOWED: u8 = 14;

/// Proves what the arguments after the program's name ask for: sends what is answered on Out, and answers the exit status.
///
/// The status is 0 if it is proved, 10 if the rule of the lock is broken on some way, and 14 if something isn't covered. Else it is the status with
/// which `run` refuses such arguments and images, and its text is sent on Fault.
///
/// If the status is 0 the images that the arguments name boot, and keep the rule of the lock that they name on every schedule and on any
/// sound disks, with no other premise. Of arguments that are right exactly the files of the images are fetched, in order, all of them
/// unless the host fails or memory runs out. But for that, the text that is sent and the count of faults the host is as it was.
pub fn prove<H: Host>(alloc: Global, args: &[String], host: &mut H) -> u8
    ensures proved { result ≡ 0 → spec.ProvesAsked (map string_bytes args.now) (H.view host.old).file }
    ensures answers { spec.Answers result (map string_bytes args.now) (H.view host.old) (H.view host.new) }
{
    match carry_out(alloc, args, host) {
        Ok(status) => status,
        Err(refusal) => refuse(refusal, host),
    }
}

// Carries the command out.
fn carry_out<H: Host>(alloc: Global, args: &[String], host: &mut H) -> Result<u8, Refusal>
    ensures carries { spec.Carries (asked (map string_bytes args.now)) result (H.view host.old) (H.view host.new) }
{
    match words_of(alloc, args) {
        Ok(Some(words)) => obey(alloc, &words, host),
        Ok(None) => Err(Refusal::Usage),
        Err(_) => Err(Refusal::NoMemory),
    }
}

// Does what is asked.
fn obey<H: Host>(alloc: Global, words: &Words, host: &mut H) -> Result<u8, Refusal>
    requires few { length words.now.images.items ≤ 8 }
    ensures obeys { spec.Obeys (asked_of words.now) result (H.view host.old) (H.view host.new) }
{
    match fetch_files(alloc, words.images.as_slice(), host) {
        Ok(files) => judge(
            alloc,
            &words.lock,
            words.images.as_slice(),
            files.as_slice(),
            host,
        ),
        Err(cause) => Err(cause),
    }
}

// Sends what is answered of the images in these files.
fn judge<H: Host>(
    alloc: Global,
    lock: &Lock,
    names: &[String],
    files: &[Vec<u8>],
    host: &mut H,
) -> Result<u8, Refusal>
    requires few { length files.now ≤ 8 }
    ensures judges { spec.Judges (record { lock = lock.now; images = map string_bytes names.now }) (map (λ file. file.items) files.now) result (H.view host.old) (H.view host.new) }
{
    match answered(alloc, lock, names, files) {
        Ok((status, text)) => send(alloc, status, lock, names, text, host),
        Err(cause) => Err(cause),
    }
}

// The status and the text, after its head, that are answered of the images in these files.
fn answered(
    alloc: Global,
    lock: &Lock,
    names: &[String],
    files: &[Vec<u8>],
) -> Result<(u8, Text), Refusal>
    requires few { length files.now ≤ 8 }
    ensures answered { IfOk result (λ a. spec.AreAnswered lock.now (map (λ file. file.items) files.now) a.0) }
    ensures refused { IfErr result (spec.AreRefused (map (λ file. file.items) files.now)) }
{
    match images_in(alloc, files) {
        Ok(images) => answer(alloc, lock, names, images.as_slice()),
        Err(cause) => Err(cause),
    }
}

// The same of images that load.
fn answer(
    alloc: Global,
    lock: &Lock,
    names: &[String],
    images: &[Image<'_>],
) -> Result<(u8, Text), Refusal>
    requires few { length images.now ≤ 8 }
    ensures boots { IfOk result (λ a. (start : Xinu) × (model.boot (map loaded_of images.now) ≡ Boots start)) }
    ensures proved { IfOk result (λ a. a.0 ≡ 0 → IsProved lock.now (map loaded_of images.now)) }
    ensures refused { IfErr result (spec.AreUnbooted (map loaded_of images.now)) }
{
    let mut table = Vec::new(alloc);
    let mut ranges = Vec::new(alloc);
    match prove_images(alloc, images, lock, &mut table, &mut ranges) {
        Ok(Answer::Proved) => Ok((
            0,
            tell_proof(alloc, lock, names, table.as_slice(), ranges.as_slice()),
        )),
        Ok(Answer::Stopped(fault)) => Ok((
            status_of(&fault),
            tell_fault(alloc, lock, names, &fault),
        )),
        Ok(Answer::Unchecked) => Ok((NOT_FOLLOWED, tell_unchecked(alloc, lock))),
        Err(cause) => Err(cause),
    }
}

// The status of a fault at which the walk stopped.
fn status_of(fault: &Fault) -> u8
    ensures some { result ≡ 0 → ⊥ }
{
    if fault.cause.breaks_the_rule() {
        NOT_PROVED
    } else {
        NOT_FOLLOWED
    }
}
