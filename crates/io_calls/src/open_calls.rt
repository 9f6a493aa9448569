//! What `open` comes to: an answer, or a call on files (book, chapters 14, 19 and 21, `open.c`, `lfsopen.c`, `namopen.c`).

ghost use Rattle.std.specs.Prelude.{◌≡◌};
ghost use Rattle.io_calls.specs.Openings.{comes_to, CanBeMade};
ghost use Rattle.xinu_model.specs.Devices.Calls as model;
ghost use Rattle.xinu_model.specs.Machine.{Xinu};
ghost use Rattle.xinu_model.specs.Names.Mapping.{map_name};

use crate::file_texts::open_call;
use crate::texts::text_at;
use device_switch::{Kind, Op, kind_of, offers};
use kernel_state::KernelState;
use local_files::FileCall;
use name_space::Names;
use xinu_base::{DISK0, SYSERR};

/// What `open` comes to.
pub(crate) enum Opening {
    /// It is answered at once.
    Answers(i32),
    /// The file system is asked for this.
    Asks(FileCall),
}

/// `open` of a device of this kind, with the texts at two addresses as a name and a mode, which have to be there.
pub(crate) fn what_opens(k: &KernelState, kind: Kind, name: u32, mode: u32) -> Opening
    ensures opens { comes_to result k.now.call.state ≡ model.open_texts name mode kind k.now.call.state }
    ensures can { CanBeMade result }
{
    let Some(name) = text_at(&k.ram, name) else {
        return Opening::Answers(SYSERR);
    };
    let Some(mode) = text_at(&k.ram, mode) else {
        return Opening::Answers(SYSERR);
    };
    match kind {
        Kind::NameSpace => open_mapped(&k.names, name, mode),
        _ => open_direct(kind, name, mode),
    }
}

// `open` of what a name is mapped to. Refused if it is mapped to nothing, or to a device that doesn't offer `open`.
fn open_mapped(names: &Names, name: &[u8], mode: &[u8]) -> Opening
    ensures opens { (s : Xinu) → comes_to result s ≡ model.open_mapped (map_name names.now name.now) mode.now s }
    ensures can { CanBeMade result }
{
    let Ok(mapped) = names.map(name) else {
        return Opening::Answers(SYSERR);
    };
    if !offers(mapped.device, Op::Open) {
        return Opening::Answers(SYSERR);
    }
    open_direct(kind_of(mapped.device), mapped.name.as_slice(), mode)
}

// `open` of a device that isn't the name space.
fn open_direct(kind: Kind, name: &[u8], mode: &[u8]) -> Opening
    ensures opens { (s : Xinu) → comes_to result s ≡ model.open_direct name.now mode.now kind s }
    ensures can { CanBeMade result }
{
    match kind {
        Kind::Console => Opening::Answers(0),
        Kind::RawDisk => Opening::Answers(DISK0),
        Kind::FileSystem => match open_call(name, mode) {
            Some(call) => Opening::Asks(call),
            None => Opening::Answers(SYSERR),
        },
        Kind::NameSpace | Kind::File => Opening::Answers(SYSERR),
    }
}
