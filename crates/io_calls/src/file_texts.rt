//! What texts say of files: names, modes, and the calls that open and delete a file (book, chapter 19, `lfsopen.c`, `lfgetmode.c`).

ghost use Rattle.std.specs.List.{list_all};
ghost use Rattle.std.specs.Prelude.{◌≡◌, ◌&&◌, IfSome, option_map, true};
ghost use Rattle.file_server.specs.Requests.{call_with};
ghost use Rattle.local_files.specs.Hands.{IsCall};
ghost use Rattle.xinu_model.specs.Files.Issue as model;
ghost use Rattle.xinu_model.specs.Files.Modes as modes;

use local_files::{FileCall, file_name};
use xinu_base::OpenMode;

// The letters of a mode: read, write, only an old file, only a new one.
const LF_MODE_R: u8 = b'r';

const LF_MODE_W: u8 = b'w';

const LF_MODE_O: u8 = b'o';

const LF_MODE_N: u8 = b'n';

// The control function of the file system that deletes a file.
const LF_CTL_DEL: u32 = 1;

/// The call that `open` of the file system makes. `None` if and only if the texts aren't a file's name and a mode.
pub(crate) fn open_call(name: &[u8], mode: &[u8]) -> Option<FileCall>
    ensures call { option_map (λ call. call_with call 0) result ≡ model.open_call name.now mode.now }
    ensures can { IfSome result (λ call. IsCall call) }
{
    let name = file_name(name)?;
    let mode = mode_of(mode)?;
    Some(FileCall::Open(name, mode))
}

/// The call that `control` of the file system makes. `None` if and only if there is no such function, or the text isn't a file's name.
pub(crate) fn system_control_call(f: u32, name: &[u8]) -> Option<FileCall>
    ensures call { option_map (λ call. call_with call 0) result ≡ model.system_control_call f name.now }
    ensures can { IfSome result (λ call. IsCall call) }
{
    if f != LF_CTL_DEL {
        return None;
    }
    let name = file_name(name)?;
    Some(FileCall::Delete(name))
}

// The mode that a text says. `None` if and only if a byte is none of the four letters or comes twice, or it has both `o` and `n`.
fn mode_of(text: &[u8]) -> Option<OpenMode>
    ensures mode { result ≡ modes.mode_of text.now }
{
    let only_old = text.contains(&LF_MODE_O);
    let only_new = text.contains(&LF_MODE_N);
    if !are_letters(text) || only_old && only_new {
        return None;
    }
    Some(OpenMode {
        read: text.contains(&LF_MODE_R),
        write: text.contains(&LF_MODE_W),
        only_old,
        only_new,
    })
}

// Whether each byte of a text is a letter of a mode, and none comes twice.
fn are_letters(text: &[u8]) -> bool
    ensures letters { result ≡ (list_all modes.is_mode_letter text.now && modes.are_apart text.now) }
{
    for i in 0..text.len() {
        let b = text[i];
        if !is_letter(b) || text[i + 1..].contains(&b) {
            return false;
        }
    }
    true
}

// Whether a byte is a letter of a mode.
fn is_letter(b: u8) -> bool
    ensures letter { result ≡ modes.is_mode_letter b }
{
    (b == LF_MODE_R || b == LF_MODE_W) || (b == LF_MODE_O || b == LF_MODE_N)
}
