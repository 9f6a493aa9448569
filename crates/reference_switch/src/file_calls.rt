//! Which calls on files are refused by their arguments alone, as they are made: their texts are read and their numbers looked at (book,
//! chapter 19, `lfgetmode.c`).

ghost use Rattle.std.specs.Prelude.{◌≡◌, option_map, not, ◌==◌};
ghost use Rattle.std.specs.List.{list_all};
ghost use Rattle.reference_state.specs.FileCalls.{file_call_of};
ghost use Rattle.xinu_model.specs.Files.Issue as model;
ghost use Rattle.xinu_model.specs.Files.Modes as modes;
ghost use Rattle.xinu_model.specs.Files.Stored as stored;
ghost use Rattle.xinu_model.specs.Memory as memory;

use reference_state::{Bytes, FileCall};
use xinu_base::{OpenMode, RAM_SIZE};

// The most bytes of a file's name.
const LF_NAME_LEN: usize = 27;

// The control function of the file system that deletes a file.
const LF_CTL_DEL: u32 = 1;

// The control function of a file device that empties its file.
const LF_CTL_TRUNC: u32 = 1;

// The control function of a file device that tells the size of its file.
const LF_CTL_SIZE: u32 = 2;

/// `open` of the file system, with the texts of a name and a mode.
pub(crate) fn open_call(name: Bytes, mode: &[u8]) -> Option<FileCall>
    ensures call { option_map file_call_of result ≡ model.open_call name mode.now }
{
    if !is_file_name(&name.bytes) {
        return None;
    }
    let mode = mode_of(mode)?;
    Some(FileCall::Open(name, mode))
}

/// `control` of the file system, by its function and the text at its argument.
pub(crate) fn system_control_call(f: u32, name: Bytes) -> Option<FileCall>
    ensures call { option_map file_call_of result ≡ model.system_control_call f name }
{
    if f != LF_CTL_DEL {
        return None;
    }
    if !is_file_name(&name.bytes) {
        return None;
    }
    Some(FileCall::Delete(name))
}

/// `control` of a file device.
pub(crate) fn file_control_call(d: u32, f: u32) -> Option<FileCall>
    ensures call { option_map file_call_of result ≡ model.file_control_call d f }
{
    match f {
        LF_CTL_TRUNC => Some(FileCall::Truncate(d)),
        LF_CTL_SIZE => Some(FileCall::Size(d)),
        _ => None,
    }
}

/// `read` of a file device, with the address and the number of the bytes.
pub(crate) fn read_call(d: u32, at: u32, n: i32) -> Option<FileCall>
    ensures call { option_map file_call_of result ≡ model.read_call d at n }
{
    if n < 0 || !in_ram(at, n as u32) {
        return None;
    }
    Some(FileCall::Read(d, n as u32))
}

/// `write` of a file device, with the address and the number of the bytes.
pub(crate) fn write_call(d: u32, at: u32, n: i32) -> Option<FileCall>
    ensures call { option_map file_call_of result ≡ model.write_call d at n }
{
    if n < 0 || !in_ram(at, n as u32) {
        return None;
    }
    Some(FileCall::Write(d, n as u32))
}

// Whether a range of RAM lies in it.
fn in_ram(a: u32, n: u32) -> bool
    ensures within { result ≡ memory.in_ram a n }
{
    a <= RAM_SIZE && n <= RAM_SIZE - a
}

// Whether a text can be a file's name: 1 to 27 bytes, and none of them is zero.
fn is_file_name(name: &[u8]) -> bool
    ensures named { result ≡ stored.is_file_name name.now }
{
    !name.is_empty() && name.len() <= LF_NAME_LEN && has_no_zero(name)
}

// Whether no byte of a text is zero.
fn has_no_zero(name: &[u8]) -> bool
    ensures none { result ≡ list_all (λ b. not (b == 0)) name.now }
{
    for b in name {
        if *b == 0 {
            return false;
        }
    }
    true
}

// The mode that a text says.
fn mode_of(text: &[u8]) -> Option<OpenMode>
    ensures mode { result ≡ modes.mode_of text.now }
{
    if !is_mode(text) {
        return None;
    }
    Some(OpenMode {
        read: has_letter(b'r', text),
        write: has_letter(b'w', text),
        only_old: has_letter(b'o', text),
        only_new: has_letter(b'n', text),
    })
}

// Whether a text is a mode: each of these letters at most once, and not both old and new.
fn is_mode(text: &[u8]) -> bool
    ensures mode { result ≡ modes.is_mode text.now }
{
    are_letters(text) && are_apart(text) && !(has_letter(b'o', text) && has_letter(b'n', text))
}

// Whether each byte of a text is a letter of a mode.
fn are_letters(text: &[u8]) -> bool
    ensures letters { result ≡ list_all modes.is_mode_letter text.now }
{
    for b in text {
        if !is_mode_letter(*b) {
            return false;
        }
    }
    true
}

// Whether a byte is a letter of a mode.
fn is_mode_letter(b: u8) -> bool
    ensures letter { result ≡ modes.is_mode_letter b }
{
    b == b'r' || b == b'w' || b == b'o' || b == b'n'
}

// Whether no byte of a text comes twice.
fn are_apart(text: &[u8]) -> bool
    ensures apart { result ≡ modes.are_apart text.now }
{
    for i in 0..text.len() {
        let (_, rest) = text.split_at(i + 1);
        if has_letter(text[i], rest) {
            return false;
        }
    }
    true
}

// Whether a text has a letter.
fn has_letter(b: u8, text: &[u8]) -> bool
    ensures has { result ≡ modes.has_letter b text.now }
{
    text.contains(&b)
}
