//! Files with their names, and the room that they need.

ghost use Rattle.std.specs.Prelude.{◌≡◌, ◌≤◌, ◌^◌, length};
ghost use Rattle.lfs_layout.specs.Files.{total_for, have_room};
ghost use Rattle.lfs_layout.specs.Made.{indexes_needed, data_needed, file_of, all_files, geometry_2};

/// A file: its name with the zeros after it, and its bytes.
#[derive(Drop)]
pub(crate) struct NamedFile {
    pub name: [u8; 28],
    pub bytes: Vec<u8>,
}

/// Whether files have room on a disk of version 2: their number, their data blocks and their index blocks.
pub(crate) fn have_room(blocks: u32, files: &[NamedFile]) -> bool
    requires low { 14 ≤ blocks }
    requires high { blocks ≤ 65542 }
    ensures { result ≡ have_room (geometry_2 blocks) (all_files files.now) }
{
    let disks = (blocks + 63) / 64;
    files.len() <= 78
        && data_total(files) <= (blocks - (6 + disks)) as usize
        && index_total(files) <= (7 * disks) as usize
}

/// How many index blocks a file needs.
pub(crate) fn indexes_needed(file: &NamedFile) -> usize
    ensures need { result ≡ indexes_needed (file_of file.now) }
    ensures small { result ≤ 2 ^ 52 }
{
    (file.bytes.len() + 8191) / 8192
}

/// How many data blocks a file needs.
pub(crate) fn data_needed(file: &NamedFile) -> usize
    ensures need { result ≡ data_needed (file_of file.now) }
    ensures small { result ≤ 2 ^ 55 }
{
    (file.bytes.len() + 511) / 512
}

/// How many index blocks files need.
pub(crate) fn index_total(files: &[NamedFile]) -> usize
    requires { length files.now ≤ 78 }
    ensures { result ≡ total_for 8192 (all_files files.now) }
{
    let mut total = 0;
    for file in files {
        total += indexes_needed(file);
    }
    total
}

/// How many data blocks files need.
pub(crate) fn data_total(files: &[NamedFile]) -> usize
    requires { length files.now ≤ 78 }
    ensures { result ≡ total_for 512 (all_files files.now) }
{
    let mut total = 0;
    for file in files {
        total += data_needed(file);
    }
    total
}
