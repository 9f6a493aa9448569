//! The log.

ghost use Rattle.std.specs.Prelude.{◌≡◌};
ghost use Rattle.local_files.specs.Standing.{Stands};

use crate::call::make_call;
use local_files::{FileCall, FileDev, Files, Phase};
use xinu_base::OpenMode;

/// The log's name, with zeros after it.
const NAME: [u8; 28] = *b"log\0\0\0\0\0\0\0\0\0\0\0\0\0\0\0\0\0\0\0\0\0\0\0\0\0";

/// Opens a new log on a disk of which no file is open, and adds two lines. Answers the three replies: the number of the device, and how
/// many bytes each line has.
pub(crate) fn add_lines(files: &mut Files, disk: &mut [u8]) -> [i32; 3]
    requires idle { files.old.phase ≡ Phase.Idle }
    requires stands { Stands files.old disk.old disk.old }
    ensures stands { Stands files.new disk.new disk.new }
{
    let mode = OpenMode {
        read: false,
        write: true,
        only_old: false,
        only_new: true,
    };
    let Some(log) = FileDev::from_word(0) else {
        unreachable!()
    };
    let opened = make_call(files, disk, FileCall::Open(NAME, mode), &[]);
    let first = make_call(files, disk, FileCall::Write(log), b"booted\n");
    let second = make_call(files, disk, FileCall::Write(log), b"ready\n");
    [opened, first, second]
}
