//! Texts that a call loads: up to their zero byte if they have one, else all the bytes that are looked at.

use crate::acts::{Acts, Doer};
use device_switch::{kind_of, offers};
use rv_hart::Ram;
use std::alloc::AllocError;
use xinu_base::{Call, Dev, Kind, Op};

/// The most bytes of a text.
const TEXT: usize = 128;
/// The most bytes of a process's name.
const NAME: usize = 15;
/// The control function of the file system that deletes a file.
const LF_CTL_DEL: u32 = 1;

/// How many bytes of the name of a new process are loaded: up to its zero, at most 15.
pub(crate) fn name_length(ram: &Ram, address: u32) -> u32 {
    let bytes = ram.bytes_from(address);
    let bytes = &bytes[..NAME.min(bytes.len())];
    match bytes.iter().position(|b| *b == 0) {
        Some(zero) => NAME.min(zero + 1) as u32,
        None => NAME.min(bytes.len() + 1) as u32,
    }
}

/// The texts of `open`, of `mount`, and of `control` of the file system that deletes a file.
///
/// # Errors
/// Out of memory.
pub(crate) fn push_texts(
    acts: &mut Acts,
    doer: &Doer,
    call: &Call,
    ram: &Ram,
) -> Result<(), AllocError> {
    let args = &call.args;
    match call.number {
        36 if can_open(args[0]) => push_two(acts, doer, args[1], args[2], ram),
        43 if is_file_system(args[0]) && args[1] == LF_CTL_DEL => {
            push_text(acts, doer, args[2], ram)
        }
        44 if Dev::from_word(args[2]).is_some() => push_two(acts, doer, args[0], args[1], ram),
        _ => Ok(()),
    }
}

// Two texts, the second of which is looked at if the first has an end.
fn push_two(acts: &mut Acts, doer: &Doer, a: u32, b: u32, ram: &Ram) -> Result<(), AllocError> {
    push_text(acts, doer, a, ram)?;
    if has_end(ram, a) {
        push_text(acts, doer, b, ram)?;
    }
    Ok(())
}

// A text.
fn push_text(acts: &mut Acts, doer: &Doer, address: u32, ram: &Ram) -> Result<(), AllocError> {
    acts.load(doer, address, text_length(ram, address))
}

// How many bytes of a text are looked at.
fn text_length(ram: &Ram, address: u32) -> u32 {
    let bytes = looked_at(ram, address);
    match bytes.iter().position(|b| *b == 0) {
        Some(zero) => TEXT.min(zero + 1) as u32,
        None => TEXT.min(bytes.len()) as u32,
    }
}

// Whether a text has an end.
fn has_end(ram: &Ram, address: u32) -> bool {
    looked_at(ram, address).iter().any(|b| *b == 0)
}

// The bytes that a text can have.
fn looked_at(ram: &Ram, address: u32) -> &[u8] {
    let bytes = ram.bytes_from(address);
    &bytes[..TEXT.min(bytes.len())]
}

// Whether a word names a device that can be opened.
fn can_open(word: u32) -> bool {
    match Dev::from_word(word) {
        Some(dev) => offers(dev, Op::Open),
        None => false,
    }
}

// Whether a word names the file system.
fn is_file_system(word: u32) -> bool {
    is_kind(word, Kind::FileSystem)
}

/// Whether a word names a device of this kind.
pub(crate) fn is_kind(word: u32, kind: Kind) -> bool {
    match Dev::from_word(word) {
        Some(dev) => kind_of(dev) == kind,
        None => false,
    }
}
