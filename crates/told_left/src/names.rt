//! The name of a process, as it is told.

ghost use Rattle.std.specs.Prelude.{◌≡◌, ◌++◌, OnOk, map};
ghost use Rattle.told_left.specs.Names as spec;
ghost use Rattle.xinu_base.specs.Texts as texts;

use std::alloc::AllocError;
use xinu_base::before_zero;

/// Appends the name that an entry of the process table has, after a blank; nothing if it is empty.
pub(crate) fn push_name(told: &mut Vec<u8>, name: &[u8]) -> Result<(), AllocError>
    ensures name { OnOk result (told.new.items ≡ told.old.items ++ spec.after_blank (texts.before_zero name.now)) }
{
    let name = before_zero(name);
    if name.is_empty() {
        return Ok(());
    }
    told.push(b' ')?;
    push_bytes(told, name)
}

// Appends the bytes of a name.
fn push_bytes(told: &mut Vec<u8>, name: &[u8]) -> Result<(), AllocError>
    ensures bytes { OnOk result (told.new.items ≡ told.old.items ++ map spec.shown_byte name.now) }
{
    for b in name {
        told.push(shown_byte(*b))?;
    }
    Ok(())
}

// A byte of a name: a dot for one that isn't a printable character.
fn shown_byte(b: u8) -> u8
    ensures byte { result ≡ spec.shown_byte b }
{
    if 32 <= b && b <= 126 { b } else { b'.' }
}
