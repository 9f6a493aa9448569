//! The lines that actions on a disk print.

ghost use Rattle.std.specs.Prelude.{◌≡◌, ◌≤◌, ◌++◌, length, codes};
ghost use Rattle.std.specs.Fmt.{decimal};
ghost use Rattle.xinu_commands.specs.DiskVerdict as line;

use host_port::Line;
use lfs_layout::Report;

/// The line of a file: its size, and its name in hexadecimal.
pub(crate) fn file_line(name: &[u8], size: u32) -> Line
    requires { length name.now ≤ 27 }
    ensures { result ≡ line.file_line (name.now, size) }
{
    let mut line = Line::new();
    line.word("file");
    line.number(size as i64);
    line.word("");
    line.hex(name);
    line.end();
    line
}

/// The line of a clean disk: how many files, free data blocks and free index blocks it has.
pub(crate) fn report_line(report: Report) -> Line
    ensures { result ≡ line.report_line report }
{
    let mut line = Line::new();
    line.word("clean");
    line.number(report.files as i64);
    line.number(report.free_data as i64);
    line.number(report.free_index as i64);
    line.end();
    line
}

/// The line of a repaired disk: how many files were kept, and how many entries dropped.
pub(crate) fn repair_line(kept: u32, dropped: u32) -> Line
    ensures { result ≡ codes "kept " ++ decimal kept ++ codes " dropped " ++ decimal dropped ++ codes "\n" }
{
    let mut line = Line::new();
    line.word("kept");
    line.number(kept as i64);
    line.word("dropped");
    line.number(dropped as i64);
    line.end();
    line
}
