//! The table of devices: what each is, and which calls it offers (book, chapter 14, `devtab`).

ghost use Rattle.std.specs.Prelude.{◌≡◌};
ghost use Rattle.reference_switch.specs.Outcomes.{by_kind};
ghost use Rattle.xinu_model.specs.Devices.Calls as calls;
ghost use Rattle.xinu_model.specs.Devices.Table as model;
ghost use Rattle.xinu_model.specs.Machine.{CallResult, Xinu};

use xinu_base::{Kind, Op};

/// What the device of a number is. `None` if and only if there is no such device.
pub(crate) fn kind_of(dev: u32) -> Option<Kind>
    ensures kind { result ≡ model.kind_of dev }
{
    let devtab = [
        Kind::Console,
        Kind::NameSpace,
        Kind::RawDisk,
        Kind::FileSystem,
        Kind::File,
        Kind::File,
        Kind::File,
        Kind::File,
        Kind::File,
        Kind::File,
    ];
    devtab.get(dev as usize).copied()
}

/// Whether a device of a kind offers a call.
pub(crate) fn offers(kind: Kind, call: Op) -> bool
    ensures offers { result ≡ model.offers kind call }
{
    match kind {
        Kind::Console => !matches!(call, Op::Seek),
        Kind::NameSpace => matches!(call, Op::Open),
        Kind::RawDisk => !matches!(call, Op::Getc | Op::Putc | Op::Seek),
        Kind::FileSystem => matches!(call, Op::Open | Op::Control),
        Kind::File => !matches!(call, Op::Open),
    }
}

/// What the device of a number is, if it offers a call. `None` if and only if there is no such device, or it doesn't.
pub(crate) fn kind_for(call: Op, dev: u32) -> Option<Kind>
    ensures kind { (does : Kind → Xinu → CallResult) (s : Xinu) → calls.on_device call dev does s ≡ by_kind result does s }
{
    let kind = kind_of(dev)?;
    if offers(kind, call) {
        return Some(kind);
    }
    None
}
