//! Files by their names. They are kept in the order of their names, so equal files are equal lists.

ghost use Rattle.std.specs.Prelude.{◌≡◌, ◌≤◌, ◌++◌, ◌∷◌, IfOk, MatchOption, None, Some, drop, length, take};
ghost use Rattle.xinu_model.specs.Files.Stored as model;

use reference_state::StoredFile;
use reference_tables::append;
use xinu_base::NoMemory;

/// Whether a name comes before another, byte by byte.
pub fn precedes(name: &[u8], other: &[u8]) -> bool
    ensures precedes { result ≡ model.precedes name.now other.now }
{
    let mut left = name;
    let mut right = other;
    while let Some((x, xs)) = left.split_first() {
        let Some((y, ys)) = right.split_first() else {
            return false;
        };
        if *x != *y {
            return *x < *y;
        }
        left = xs;
        right = ys;
    }
    !right.is_empty()
}

/// Whether a file has this name.
pub fn is_named(file: &StoredFile, name: &[u8]) -> bool
    ensures named { result ≡ model.is_named name.now file.now }
{
    file.name.as_slice() == name
}

/// The file of a name.
pub fn file_named<'a>(files: &'a [StoredFile], name: &[u8]) -> Option<&'a StoredFile>
    ensures found { MatchOption result (model.file_named name.now files.now ≡ None) (λ file. model.file_named name.now files.now ≡ Some file.now) }
{
    for file in files {
        if is_named(file, name) {
            return Some(file);
        }
    }
    None
}

/// The files with one more, in its place by name.
pub fn with_stored(files: &mut Vec<StoredFile>, file: StoredFile) -> Result<(), NoMemory>
    ensures stored { IfOk result (λ _. files.new.items ≡ model.with_stored file files.old.items) }
{
    let at = place_of(files, &file);
    files.insert(at, file).map_err(|_| NoMemory)
}

// The place of a file among others, by name.
fn place_of(files: &[StoredFile], file: &StoredFile) -> usize
    ensures place { model.with_stored file.now files.now ≡ take result files.now ++ file.now ∷ drop result files.now }
    ensures within { result ≤ length files.now }
{
    let mut at = 0usize;
    for other in files {
        if precedes(&file.name, &other.name) {
            return at;
        }
        at += 1;
    }
    at
}

/// The files, of which the one of this name has these bytes.
pub fn with_contents(files: &mut Vec<StoredFile>, name: &[u8], bytes: &[u8]) -> Result<(), NoMemory>
    ensures contents { IfOk result (λ _. files.new.items ≡ model.with_contents name.now bytes.now files.old.items) }
{
    for file in files.iter_mut() {
        rewrite(file, name, bytes)?;
    }
    Ok(())
}

// A file has other bytes if it has this name.
fn rewrite(file: &mut StoredFile, name: &[u8], bytes: &[u8]) -> Result<(), NoMemory>
    ensures rewritten { IfOk result (λ _. file.new ≡ model.rewritten name.now bytes.now file.old) }
{
    if is_named(file, name) {
        file.bytes.clear();
        append(&mut file.bytes, bytes)?;
    }
    Ok(())
}

/// The files without that of a name.
pub fn without_file(files: &mut Vec<StoredFile>, name: &[u8])
    ensures without { files.new.items ≡ model.without_file name.now files.old.items }
{
    files.retain(|file| !is_named(file, name));
}
