//! The plain data of files (book, chapter 19, `lfilesys.h`).

/// The letters with which a file is opened. A mode with neither `r` nor `w` allows both reading and writing.
#[derive(Clone, Copy, PartialEq, Eq)]
pub struct OpenMode {
    /// `r`: the file is read.
    pub read: bool,
    /// `w`: the file is written.
    pub write: bool,
    /// `o`: refused if there is no such file.
    pub only_old: bool,
    /// `n`: refused if there is such a file.
    pub only_new: bool,
}
