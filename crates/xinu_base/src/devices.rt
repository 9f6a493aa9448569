//! The devices by what they are, and the calls that a device may offer (book, chapter 14, `conf.h`).

/// What a device is.
#[derive(Clone, Copy, PartialEq, Eq)]
pub enum Kind {
    /// The console.
    Console,
    /// The name space, which opens what a name is mapped to.
    NameSpace,
    /// The raw disk.
    RawDisk,
    /// The file system, which opens and deletes files.
    FileSystem,
    /// A device through which an open file is read and written.
    File,
}

/// A call that a device may offer.
#[derive(Clone, Copy, PartialEq, Eq)]
pub enum Op {
    /// `open`.
    Open,
    /// `close`.
    Close,
    /// `read`.
    Read,
    /// `write`.
    Write,
    /// `getc`.
    Getc,
    /// `putc`.
    Putc,
    /// `seek`.
    Seek,
    /// `control`.
    Control,
}
