//! Names of files as calls have them, and which calls can be made.

ghost use Rattle.std.specs.Prelude.{◌≡◌, IfNone, IfSome, false, true, length};
ghost use Rattle.lfs_check.specs.Rules.{are_zeros, is_name, text_length};
ghost use Rattle.lfs_layout.specs.Files.{bare_name, is_text};
ghost use Rattle.local_files.specs.Hands.{IsCall};

use crate::FileCall;
use lfs_layout::is_file_name;

/// A text as a call names a file: with zeros up to 28 bytes. `None` if and only if no file has such a name, since it is empty, is longer
/// than 27 bytes, or has a zero.
pub fn file_name(text: &[u8]) -> Option<[u8; 28]>
    ensures bare { IfSome result (λ name. bare_name name ≡ text.now) }
    ensures text { IfSome result (λ _. is_text text.now ≡ true) }
    ensures name { IfSome result (λ name. is_name 27 name ≡ true) }
    ensures len { IfSome result (λ name. length name ≡ 28) }
    ensures none { IfNone result (is_text text.now ≡ false) }
{
    if !is_file_name(text) {
        return None;
    }
    Some(padded(text))
}

// A name with zeros up to 28 bytes.
fn padded(text: &[u8]) -> [u8; 28]
    requires name { is_text text.now ≡ true }
    ensures bare { bare_name result ≡ text.now }
    ensures name { is_name 27 result ≡ true }
    ensures len { length result ≡ 28 }
{
    let mut padded = [0; 28];
    padded[..text.len()].copy_from_slice(text);
    padded
}

/// Whether a call can be made, as [`Files::begin`](crate::Files::begin) requires it: a name is one that a file can have, and at most 1 MiB is read.
pub fn is_call(call: &FileCall) -> bool
    ensures can { result ≡ true → IsCall call.now }
    ensures only { IsCall call.now → result ≡ true }
{
    match *call {
        FileCall::Open(name, _) => is_name(&name),
        FileCall::Delete(name) => is_name(&name),
        FileCall::Read(_, n) => n <= 1_048_576,
        _ => true,
    }
}

// Whether the bytes are 1 to 27 that aren't zero, and then zeros.
#[tactic(auto, unfolding(lfs_check::specs::Rules::is_name))]
fn is_name(name: &[u8; 28]) -> bool
    ensures name { result ≡ is_name 27 name.now }
    ensures len { length name.now ≡ 28 }
{
    let len = text_len(name);
    0 < len && len <= 27 && is_zeros(&name[len..])
}

// How many bytes a name begins with that aren't zero.
#[tactic(auto, unfolding(lfs_check::specs::Rules::text_length))]
fn text_len(name: &[u8; 28]) -> usize
    ensures { result ≡ text_length name.now }
{
    for i in 0..28 {
        if name[i] == 0 {
            return i;
        }
    }
    28
}

// Whether each byte is zero.
fn is_zeros(bytes: &[u8]) -> bool
    ensures { result ≡ are_zeros bytes.now }
{
    bytes.iter().all(|b| *b == 0)
}
