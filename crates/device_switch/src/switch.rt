//! The table of devices.

ghost use Rattle.std.specs.Prelude.{◌≡◌, IfErr, IfOk, None, Some, is_some, option_map, true};
ghost use Rattle.xinu_model.specs.Devices.Table as table;

use xinu_base::{Dev, Kind, Op};

/// The answer to a word that names no device.
#[derive(Clone, Copy, PartialEq, Eq)]
pub struct NoSuch;

/// The device that a word names: the one of this number.
///
/// # Errors
///
/// `NoSuch` if and only if there is no device of this number.
pub fn device(word: u32) -> Result<Dev, NoSuch>
    ensures named { IfOk result (λ dev. dev ≡ word) }
    ensures known { IfOk result (λ _. is_some (table.kind_of word) ≡ true) }
    ensures missing { IfErr result (λ _. table.kind_of word ≡ None) }
{
    Dev::from_word(word).ok_or(NoSuch)
}

/// What a device is.
pub fn kind_of(dev: Dev) -> Kind
    ensures kind { table.kind_of dev ≡ Some result }
{
    match dev.index() {
        0 => Kind::Console,
        1 => Kind::NameSpace,
        2 => Kind::RawDisk,
        3 => Kind::FileSystem,
        _ => Kind::File,
    }
}

/// Whether a device offers a call.
pub fn offers(dev: Dev, op: Op) -> bool
    ensures offers { option_map (λ kind. table.offers kind op) (table.kind_of dev) ≡ Some result }
{
    match kind_of(dev) {
        Kind::Console => op != Op::Seek,
        Kind::NameSpace => op == Op::Open,
        Kind::RawDisk => !matches!(op, Op::Getc | Op::Putc | Op::Seek),
        Kind::FileSystem => matches!(op, Op::Open | Op::Control),
        Kind::File => op != Op::Open,
    }
}
